//! [`Keeper`]: the history, and the holder of the lock.
ghost use Rattle.std.specs.Prelude.{◌≡◌, ◌<◌, ◌-◌, ◌||◌, ◌++◌, ◌∷◌, [], false, true, Some, None, IsTrue, IfOk};
ghost use Rattle.std.specs.Prelude.{OnOk, OnErr};
ghost use Rattle.std.specs.Option.{option_copied};
ghost use Rattle.journal_log.specs.Frames.{framed_of};
ghost use Rattle.journal_log.specs.Gates.{IsOpening};
ghost use Rattle.stored_forms.specs.StoredForms.{entry_bytes};
ghost use Rattle.pod_command.specs.declared.entry.Entry.{Entry as EntryValue};
ghost use Rattle.pod_core.specs.History.{IsPlace, end_of, moment_before, pod_at};
ghost use Rattle.pod_core.specs.KeeperSteps as keeper;
ghost use Rattle.pod_core.specs.World.{holder_in};
ghost use Rattle.pod_core.specs.WorldImages.{IsAllowedImage, journal_of};
ghost use Rattle.pod_rows.specs.WellFormed.{IsWellFormedSnapshot};
ghost use Rattle.request_history.specs.Keepers.{AppliesAtEnd, Opens, first_history, first_view};
ghost use Rattle.request_history.specs.Phases.{IsOpened, MayStep, phase_of, step_event};
ghost use Rattle.world_laws.specs.CrashedWorlds.{IsRecordableHistory};

use crate::lock_holder::Holder;
use crate::lock_holder_steps::{Stage, Step, is_opened, may_now};
use crate::recorded_entry::Recorded;
use crate::world_journal::{first_journal, is_closed, is_opening, with_record};
use pod_base::{Bytes, List, Mem, Moment, NoMemory};
use pod_command::{Entry, Snapshot};
use pod_pages::Version;
use pod_rows::StateFault;
use std::alloc::Global;
use std::marker::Model;
use std::mem;

/// A pod's history: the versions of all its places, its entries, and its journal; the entry in
/// doubt; and the holder of the lock. The versions share their pages.
#[derive(Drop)]
pub(crate) struct Keeper {
    first: Version,
    entries: List<Entry>,
    later: List<Version>,
    journal: Bytes,
    doubt: Option<Recorded>,
    holder: Option<Holder>,
    stage: Stage,
}

/// What an opened gate adds to a keeper.
#[derive(Drop)]
pub(crate) struct Opening {
    entry: Entry,
    version: Version,
    journal: Bytes,
}

impl Model for Keeper {
    ghost use Rattle.pod_core.specs.KeeperSteps.{KeeperView};
    ghost use Rattle.request_history.specs.Keepers.{IsKeeper, history_of};
    ghost use Rattle.request_history.specs.Phases.{phase_of};

    ghost Value = { KeeperView };

    ghost view = { λ k. record {
      history = history_of k.first k.entries.items;
      doubt = k.doubt;
      phase = phase_of k.holder k.stage;
    } };

    ghost invariant = { λ k. IsKeeper (history_of k.first k.entries.items) k.later.items k.journal
        (phase_of k.holder k.stage) };
}

/// The position of a place among the versions of the world's keeper after the first one.
fn later_index(place: u64, start: u64) -> usize
    requires { start < place }
    ensures { result ≡ place - start - 1 }
{
    (place - start - 1) as usize
}

/// Appends to the history of the world's keeper the entry that an opened gate adds, and the version
/// after it. Returns the journal.
fn append(
    alloc: Global,
    entries: &mut List<Entry>,
    later: &mut List<Version>,
    opening: Opening,
) -> Mem<Bytes>
    ensures entries { OnOk result (entries.new.items ≡ entries.old.items ++ opening.entry ∷ []) }
    ensures later { OnOk result (later.new.items ≡ later.old.items ++ opening.version ∷ []) }
    ensures journal { IfOk result (λ journal. journal ≡ opening.journal) }
    ensures entries_stay { OnErr result (entries.new.items ≡ entries.old.items) }
    ensures later_stay { OnErr result (later.new.items ≡ later.old.items) }
{
    entries.reserve(alloc, 1)?;
    later.reserve(alloc, 1)?;
    let Opening {
        entry,
        version,
        journal,
    } = opening;
    let _pushed = entries.push(alloc, entry);
    let _pushed = later.push(alloc, version);
    Ok(journal)
}

/// Whether a crash may leave the image, since the world's keeper has this entry in doubt.
fn doubts(journal: &[u8], doubt: &Option<Recorded>, image: &[u8]) -> bool
    ensures yes { IsTrue result → (entry : EntryValue) × (doubt.now ≡ Some entry)
        × IsOpening journal.now (framed_of (entry_bytes entry)) image.now }
    ensures no { result ≡ false → (entry : EntryValue) → doubt.now ≡ Some entry
        → IsOpening journal.now (framed_of (entry_bytes entry)) image.now → ⊥ }
{
    match doubt {
        Some(entry) => is_opening(journal, entry.body(), image),
        None => false,
    }
}

/// Whether an image has a record of the entry of the holder in the world's keeper.
fn is_of_holder(journal: &[u8], holder: &Option<Holder>, image: &[u8]) -> bool
    ensures yes { IsTrue result → (held : keeper.Holder) × (holder.now ≡ Some held)
        × IsOpening journal.now (framed_of (entry_bytes held.entry)) image.now }
    ensures no { result ≡ false → (held : keeper.Holder) → holder.now ≡ Some held
        → IsOpening journal.now (framed_of (entry_bytes held.entry)) image.now → ⊥ }
{
    match holder {
        Some(holder) => is_opening(journal, holder.entry().body(), image),
        None => false,
    }
}

/// Whether a crash may leave the image, since the world's keeper has written the record of its
/// holder's entry.
fn writes(journal: &[u8], holder: &Option<Holder>, stage: Stage, image: &[u8]) -> bool
    ensures yes { IsTrue result → (held : keeper.Holder)
        × (phase_of holder.now stage ≡ keeper.written held)
        × IsOpening journal.now (framed_of (entry_bytes held.entry)) image.now }
    ensures no { result ≡ false → (held : keeper.Holder)
        → phase_of holder.now stage ≡ keeper.written held
        → IsOpening journal.now (framed_of (entry_bytes held.entry)) image.now → ⊥ }
{
    match stage {
        Stage::Taken => false,
        Stage::Written => is_of_holder(journal, holder, image),
        Stage::Opened => false,
    }
}

/// The entry alone of the holder in the world's keeper.
fn entry_of(holder: Option<Holder>) -> Option<Recorded>
    ensures { (held : keeper.Holder) → holder ≡ Some held → result ≡ Some held.entry }
{
    match holder {
        Some(holder) => Some(holder.into_entry()),
        None => None,
    }
}

/// Whether a crash may leave an image of the world's keeper for one of these reasons.
fn any_of(closed: bool, doubted: bool, written: bool) -> bool
    ensures { result ≡ (closed || (doubted || written)) }
{
    closed || doubted || written
}

impl Keeper {
    /// The keeper of a world's first pod, which is well-formed. Nobody holds the lock.
    pub(crate) fn of(alloc: Global, first: Snapshot) -> Mem<Keeper>
        requires { IsWellFormedSnapshot first }
        ensures is { IfOk result (λ keeper. keeper ≡ first_view first) }
        ensures recordable { IfOk result (λ _. IsRecordableHistory (first_history first)) }
    {
        let journal = first_journal(alloc, &first)?;
        match Version::of(alloc, first) {
            Ok(first) => {
                let entries = List::new(alloc);
                let later = List::new(alloc);
                Ok(Keeper {
                    first,
                    entries,
                    later,
                    journal,
                    doubt: None,
                    holder: None,
                    stage: Stage::Taken,
                })
            }
            Err(_) => Err(NoMemory),
        }
    }

    /// The entries of the history of the world's keeper.
    pub(crate) fn entries(&self) -> &List<Entry>
        ensures { result.now.items ≡ self.now.history.entries }
    {
        &self.entries
    }

    /// The journal of the world's keeper, up to its last gate.
    pub(crate) fn journal(&self) -> &Bytes
        ensures { result.now ≡ journal_of self.now.history }
    {
        &self.journal
    }

    /// The place after all entries of the world's keeper.
    pub(crate) fn end(&self) -> u64
        ensures { result ≡ end_of self.now.history }
    {
        match self.later.as_slice().last() {
            Some(version) => version.seq(),
            None => self.first.seq(),
        }
    }

    /// The moment of the last entry of the world's keeper, 0 where there is none.
    pub(crate) fn last_moment(&self) -> Moment
        ensures { result.0 ≡ moment_before self.now.history (end_of self.now.history) }
    {
        match self.entries.as_slice().last() {
            Some(entry) => entry.moment,
            None => Moment(0),
        }
    }

    /// The version of the world's keeper at a place.
    pub(crate) fn version(&self, place: u64) -> &Version
        requires { IsPlace self.now.history place }
        ensures pod { result.now.pod ≡ pod_at self.now.history place }
        ensures next { result.now.next ≡ place }
    {
        let start = self.first.seq();
        let later = self.later.as_slice();
        if place == start {
            return &self.first;
        }
        let at = later_index(place, start);
        &later[at]
    }

    /// Whether nobody holds the lock of the world's keeper.
    pub(crate) fn is_free(&self) -> bool
        ensures yes { IsTrue result → self.now.phase ≡ keeper.free }
        ensures no { result ≡ false → self.now.phase ≡ keeper.free → ⊥ }
    {
        self.holder.is_none()
    }

    /// The holder of the lock of the world's keeper.
    pub(crate) fn holder(&self) -> Option<&Holder>
        ensures { option_copied result ≡ holder_in self.now.phase }
    {
        self.holder.as_ref()
    }

    /// Whether the gate of the holder in the world's keeper is open.
    pub(crate) fn is_opened(&self) -> bool
        ensures yes { IsTrue result → IsOpened self.now.phase }
        ensures no { result ≡ false → IsOpened self.now.phase → ⊥ }
    {
        let held = self.holder.is_some();
        is_opened(held, self.stage)
    }

    /// Whether the holder in the world's keeper may make the step.
    pub(crate) fn may(&self, step: Step) -> bool
        ensures yes { IsTrue result → MayStep self.now step }
        ensures no { result ≡ false → MayStep self.now step → ⊥ }
    {
        let held = self.holder.is_some();
        let doubtful = self.doubt.is_some();
        may_now(held, self.stage, doubtful, step)
    }

    /// Gives the lock of the world's keeper to a change.
    pub(crate) fn hold(&mut self, holder: Holder)
        requires is_free { self.old.phase ≡ keeper.free }
        requires applies { AppliesAtEnd self.old.history holder }
        ensures { self.new ≡ record self.old { phase = keeper.taken holder } }
    {
        self.holder = Some(holder);
        self.stage = Stage::Taken;
    }

    /// Takes the lock of the world's keeper from its holder.
    pub(crate) fn release(&mut self)
        ensures { self.new ≡ record self.old { phase = keeper.free } }
    {
        self.holder = None;
    }

    /// Closes the gate of the world's keeper: nothing is in doubt any more.
    fn close_gate(&mut self)
        ensures { self.new ≡ record self.old { doubt = None } }
    {
        self.doubt = None;
    }

    /// Writes the record of the holder's entry in the world's keeper.
    fn write(&mut self)
        requires { MayStep self.old Step.Body }
        ensures { keeper.KeeperStep self.old (keeper.body true) self.new }
    {
        self.stage = Stage::Written;
    }

    /// The holder in the world's keeper gives up, and its entry is in doubt.
    fn doubt_entry(&mut self)
        requires { MayStep self.old Step.Gate }
        ensures { keeper.KeeperStep self.old (keeper.gate false) self.new }
    {
        self.doubt = entry_of(mem::replace(&mut self.holder, None));
    }

    /// What the world's keeper gets by opening the gate of this holder.
    fn opening(&self, alloc: Global, holder: &Holder) -> Mem<Opening>
        requires { self.now.phase ≡ keeper.written holder.now }
        ensures { IfOk result (Opens self.now) }
    {
        let before = self.journal.as_slice();
        let recorded = holder.entry();
        let entry = recorded.copy_entry(alloc)?;
        let last = self.version(self.end());
        let version = last.after_entry(alloc, &entry)?;
        let journal = with_record(alloc, before, recorded.body())?;
        Ok(Opening {
            entry,
            version,
            journal,
        })
    }

    /// Opens the gate of the world's keeper: its history has the entry of the holder of the lock.
    fn open_gate(&mut self, alloc: Global, opening: Opening) -> Mem<()>
        requires { Opens self.old opening }
        ensures step { OnOk result (keeper.KeeperStep self.old (keeper.gate true) self.new) }
        ensures unchanged { OnErr result (self.new ≡ self.old) }
    {
        match append(alloc, &mut self.entries, &mut self.later, opening) {
            Ok(journal) => {
                self.journal = journal;
                self.stage = Stage::Opened;
                Ok(())
            }
            Err(NoMemory) => Err(NoMemory),
        }
    }

    /// What the world's keeper gets by opening the gate of the holder of its lock.
    fn opened(&self, alloc: Global) -> Mem<Opening>
        requires { MayStep self.now Step.Gate }
        ensures { IfOk result (Opens self.now) }
    {
        match self.holder() {
            Some(holder) => self.opening(alloc, holder),
            None => Err(NoMemory),
        }
    }

    /// Opens the gate of the holder in the world's keeper.
    fn open(&mut self, alloc: Global) -> Mem<()>
        requires { MayStep self.old Step.Gate }
        ensures step { OnOk result (keeper.KeeperStep self.old (keeper.gate true) self.new) }
        ensures unchanged { OnErr result (self.new ≡ self.old) }
    {
        match self.opened(alloc) {
            Ok(opening) => self.open_gate(alloc, opening),
            Err(NoMemory) => Err(NoMemory),
        }
    }

    /// The holder in the world's keeper makes a step, which succeeds.
    pub(crate) fn proceed(&mut self, alloc: Global, step: Step) -> Mem<()>
        requires { MayStep self.old step }
        ensures step { OnOk result (keeper.KeeperStep self.old (step_event step true) self.new) }
        ensures unchanged { OnErr result (self.new ≡ self.old) }
    {
        match step {
            Step::Repair => {
                self.close_gate();
                Ok(())
            }
            Step::Body => {
                self.write();
                Ok(())
            }
            Step::Gate => self.open(alloc),
        }
    }

    /// The holder in the world's keeper gives up, since a disk failed in a step.
    pub(crate) fn give_up(&mut self, step: Step)
        requires { MayStep self.old step }
        ensures { keeper.KeeperStep self.old (step_event step false) self.new }
    {
        match step {
            Step::Repair => self.release(),
            Step::Body => self.release(),
            Step::Gate => self.doubt_entry(),
        }
    }

    /// Whether a crash may leave the image of the journal of the world's keeper.
    pub(crate) fn allows(&self, image: &[u8]) -> bool
        ensures yes { IsTrue result → IsAllowedImage self.now image.now }
        ensures no { result ≡ false → IsAllowedImage self.now image.now → ⊥ }
    {
        let journal = self.journal.as_slice();
        let closed = is_closed(journal, image);
        let doubted = doubts(journal, &self.doubt, image);
        let written = writes(journal, &self.holder, self.stage, image);
        any_of(closed, doubted, written)
    }
}
