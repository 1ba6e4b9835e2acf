//! Opening a store: which of its disks is taken, and the records of its journal.

ghost use Rattle.std.specs.Prelude.{◌≡◌, ◌≤◌, ◌⊎◌, [], length, IfOk, IfErr, IfSome, IfNone, false};
ghost use Rattle.pod_io.specs.Visible.{IfVisible};
ghost use Rattle.pod_disk.specs.Disk.{LeavesOnly};
ghost use Rattle.journal_log.specs.Frames.{framed_of};
ghost use Rattle.journal_log.specs.Images.{Stands};
ghost use Rattle.journal_log.specs.CleanJournal.{IsClean};
ghost use Rattle.journal_log.specs.Opening.{IsWhileOpened};
ghost use Rattle.journal_log.specs.Causes.{HasCause};
ghost use Rattle.journal_pair.specs.Sides.{active_of, other_of};
ghost use Rattle.journal_pair.specs.Stores.{StoreStands};
ghost use Rattle.journal_pair.specs.PairJournal.{HasSnapshot, IsPairClean, IsPassedBeside};
ghost use Rattle.journal_pair.specs.PairMoments.{LeavesPairs, IsWhileStoreOpened};
ghost use Rattle.journal_pair.specs.Choices.{IsChosenBy};
ghost use Rattle.journal_pair.specs.Causes.{IfBothVisible, HasStoreCause};

use crate::disk_choice::{Choice, choose_disk};
use crate::pair::Pair;
use journal_log::{Journal, OpenFault, Side};
use pod_base::{Bytes, List};
use pod_disk::Disk;
use std::alloc::Global;

/// How many bytes a record has beside its body: its length before it, and the gate after it.
const FRAME_LEN: u64 = 9;

impl Pair {
    /// Opens the pair of a store's disks, and returns the records of its active journal, the
    /// snapshot first. It classifies each disk, takes the open one with the greatest epoch, the
    /// first of equals, and opens its journal, which mends a torn last gate there. The other disk
    /// is synced and stays as it is.
    ///
    /// `Empty` comes where both disks are empty. `Damaged` comes at 0 where a disk is wrong, the
    /// first before the second; at the damage of the journal that was taken; and where no disk is
    /// open, for the first that isn't empty, at 16 where it is closed and else at 0.
    pub fn open<D: Disk>(
        alloc: Global,
        first: &mut D,
        second: &mut D,
    ) -> Result<(Pair, List<Bytes>), OpenFault>
        ensures first { LeavesOnly D.moment D.left_since first.old first.new
            (IsWhileOpened (D.image first.old)) }
        ensures second { LeavesOnly D.moment D.left_since second.old second.new
            (IsWhileOpened (D.image second.old)) }
        ensures pairs { LeavesPairs D.moment D.left_since first.old second.old first.new second.new
            (IsWhileStoreOpened D.image first.old second.old) }
        ensures other { IfOk result (λ opened. LeavesOnly D.moment D.left_since
            (other_of opened.0.active first.old second.old)
            (other_of opened.0.active first.new second.new)
            (D.image (other_of opened.0.active first.old second.old))) }
        ensures clean { IfOk result
            (λ opened. IsPairClean D.image first.new second.new opened.0 opened.1.items) }
        ensures passed { IfOk result
            (λ opened. IsPassedBeside D.image first.new second.new opened.0) }
        ensures records { IfOk result
            (λ opened. IfBothVisible (D.content first.old) (D.content second.old)
            (StoreStands opened.0.active opened.0.journal.format opened.0.journal.epoch
            opened.1.items)) }
        ensures no_fewer_first { D.faults first.old ≤ D.faults first.new }
        ensures no_fewer_second { D.faults second.old ≤ D.faults second.new }
        ensures cause { IfErr result (HasStoreCause (D.content first.old) (D.content second.old)
            (D.faults first.old) (D.faults first.new)
            (D.faults second.old) (D.faults second.new)) }
    {
        match choose_disk(first, second) {
            Ok(choice) => match choice {
                Choice::Take { side, epoch } => open_on(alloc, side, epoch, first, second),
                Choice::Damaged { side, at } => Err(OpenFault::Damaged { side, at }),
                Choice::Empty => Err(OpenFault::Empty),
            },
            Err(_fault) => Err(OpenFault::DiskFault),
        }
    }
}

/// Opens the pair whose journal on this side was chosen, where the classes of the disks say that it
/// has this epoch.
fn open_on<D: Disk>(
    alloc: Global,
    side: Side,
    epoch: u64,
    first: &mut D,
    second: &mut D,
) -> Result<(Pair, List<Bytes>), OpenFault>
    requires { IsChosenBy (D.content first.old) (D.content second.old)
        (D.image first.old) (D.image second.old) (Choice.Take side epoch) }
    ensures moments { LeavesOnly D.moment D.left_since
        (active_of side first.old second.old) (active_of side first.new second.new)
        (IsWhileOpened (D.image (active_of side first.old second.old))) }
    ensures other { other_of side first.new second.new ≡ other_of side first.old second.old }
    ensures side { IfOk result (λ opened. opened.0.active ≡ side) }
    ensures clean { IfOk result
        (λ opened. IsPairClean D.image first.new second.new opened.0 opened.1.items) }
    ensures passed { IfOk result
        (λ opened. IsPassedBeside D.image first.new second.new opened.0) }
    ensures records { IfOk result
        (λ opened. IfBothVisible (D.content first.old) (D.content second.old)
        (StoreStands opened.0.active opened.0.journal.format opened.0.journal.epoch
        opened.1.items)) }
    ensures no_fewer_first { D.faults first.old ≤ D.faults first.new }
    ensures no_fewer_second { D.faults second.old ≤ D.faults second.new }
    ensures cause { IfErr result (HasStoreCause (D.content first.old) (D.content second.old)
        (D.faults first.old) (D.faults first.new)
        (D.faults second.old) (D.faults second.new)) }
{
    match open_journal(alloc, side, first, second) {
        Ok((journal, records)) => match pair_of(side, epoch, journal, &records) {
            Some(pair) => Ok((pair, records)),
            None => Err(OpenFault::Damaged { side, at: 0 }),
        },
        Err(fault) => Err(fault),
    }
}

/// Opens the journal of the pair to be opened, which is on this side.
fn open_journal<D: Disk>(
    alloc: Global,
    side: Side,
    first: &mut D,
    second: &mut D,
) -> Result<(Journal, List<Bytes>), OpenFault>
    ensures moments { LeavesOnly D.moment D.left_since
        (active_of side first.old second.old) (active_of side first.new second.new)
        (IsWhileOpened (D.image (active_of side first.old second.old))) }
    ensures other { other_of side first.new second.new ≡ other_of side first.old second.old }
    ensures clean { IfOk result (λ opened.
        IsClean (D.image (active_of side first.new second.new)) opened.0 opened.1.items) }
    ensures records { IfOk result (λ opened.
        IfVisible (D.content (active_of side first.old second.old))
        (Stands opened.0.format opened.0.epoch opened.1.items)) }
    ensures no_fewer_first { D.faults first.old ≤ D.faults first.new }
    ensures no_fewer_second { D.faults second.old ≤ D.faults second.new }
    ensures cause { IfErr result (HasCause (D.content (active_of side first.old second.old)) side
        (D.faults (active_of side first.old second.old))
        (D.faults (active_of side first.new second.new))) }
{
    match side {
        Side::First => Journal::open(alloc, first, side),
        Side::Second => Journal::open(alloc, second, side),
    }
}

/// The opened pair of a clean journal with these records. None where they have no snapshot or the
/// journal is of another epoch: the disk then gave other bytes than when it was classified.
fn pair_of(side: Side, epoch: u64, journal: Journal, records: &List<Bytes>) -> Option<Pair>
    ensures some { IfSome result (λ pair. (pair.active ≡ side) × (pair.journal ≡ journal)
        × HasSnapshot pair.snapshot records.now.items × (pair.checkpoint ≡ false)
        × (journal.epoch ≡ epoch)) }
    ensures none { IfNone result ((journal.epoch ≡ epoch → ⊥) ⊎ (records.now.items ≡ [])) }
{
    if journal.epoch() != epoch {
        return None;
    }
    match records.as_slice().split_first() {
        Some((snapshot, _entries)) => Some(Pair {
            active: side,
            journal,
            snapshot: record_len(snapshot.as_slice()),
            checkpoint: false,
        }),
        None => None,
    }
}

/// How many bytes a record of an opened pair has as it is written.
fn record_len(body: &[u8]) -> u64
    ensures { result ≡ length (framed_of body.now) }
{
    body.len() as u64 + FRAME_LEN
}
