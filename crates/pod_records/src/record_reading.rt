//! Reading the records of a journal: each is decoded and applied once.
ghost use Rattle.std.specs.Prelude.{◌≡◌, ◌+◌, ◌<◌, ◌^◌, ◌++◌, ◌∷◌, [], ◌⊎◌, List, ℕ, Option};
ghost use Rattle.std.specs.Prelude.{Some, None, IfOk, IfErr, IfSome};
ghost use Rattle.pod_base.specs.declared.moment.Moment.{Moment as MomentValue};
ghost use Rattle.journal_log.specs.Frames.{frame_len};
ghost use Rattle.stored_forms.specs.Storable.{IsStorable};
ghost use Rattle.stored_forms.specs.StoredForms.{entry_bytes, entry_1_bytes};
ghost use Rattle.pod_command.specs.declared.entry.Entry.{Entry as EntryValue};
ghost use Rattle.pod_command.specs.declared.snapshot.Snapshot.{Snapshot as SnapshotValue};
ghost use Rattle.pod_pages.specs.State.{first_state, state_after};
ghost use Rattle.pod_records.specs.PodStores.{gate_after};
ghost use Rattle.pod_records.specs.Readings.{AreRecordsRead, IsSnapshotOf, IsSnapshotRead};
ghost use Rattle.pod_records.specs.Readings.{IsEntryOf, IsEntryRead, HasNoEntry, HasRecordCause};
ghost use Rattle.pod_records.specs.Records.{IsEntryIn, IsReadable};
ghost use Rattle.pod_records.specs.declared.record_reading.RecordFault.TheVariants.{NoMemory as OutOfMemory};
ghost use Rattle.pod_rows.specs.Apply.{Applies};
ghost use Rattle.pod_rows.specs.WellFormed.{IsWellFormedSnapshot};

use crate::fits;
use pod_base::{Bytes, Mem, Moment, NoMemory};
use pod_command::{Entry, Snapshot};
use pod_pages::{Replay, Version};
use pod_rows::StateFault;
use std::alloc::Global;
use stored_forms::{ReadBack, decode_entry, decode_entry_1, decode_snapshot};

/// The offset of a journal's first gate.
const FIRST_GATE: u64 = 16;

/// How many bytes a record has besides its body: the gate before it, and its length.
const FRAME_LEN: u64 = 9;

/// The format whose entries have no bases.
const OLD_FORMAT: u8 = 1;

/// Why records could not be read.
#[derive(Clone, Copy, Debug, PartialEq, Eq)]
pub enum RecordFault {
    /// The record after the gate at this offset is the first that doesn't hold what it should.
    Damaged { at: u64 },
    NoMemory,
}

impl From<NoMemory> for RecordFault {
    ghost from_gives = { λ _ fault. fault ≡ OutOfMemory };

    /// Reading of records ends where memory ran out.
    fn from(_error: NoMemory) -> RecordFault {
        RecordFault::NoMemory
    }
}

/// What records hold: the pod after their entries, and the moment of the last entry.
#[derive(Drop)]
pub struct Reading {
    pub version: Version,
    pub last: Option<Moment>,
}

/// What the records before the gate at an offset hold: entries are applied in place.
#[derive(Drop)]
struct Progress {
    replay: Replay,
    last: Option<Moment>,
    at: u64,
}

/// Reads the record of a pod's snapshot, from which a replay begins. None where the record isn't
/// the text of a well-formed one.
fn read_snapshot(alloc: Global, text: &[u8]) -> Mem<Option<Replay>>
    ensures some { IfOk result (λ found. IfSome found
        (IsSnapshotRead text.now)) }
    ensures none { IfOk result (λ found. found ≡ None
        → (snapshot : SnapshotValue) → IsSnapshotOf text.now snapshot → ⊥) }
{
    match decode_snapshot(alloc, text) {
        Ok(snapshot) => replay_of(alloc, snapshot),
        Err(ReadBack::NotCanonical) => Ok(None),
        Err(ReadBack::NoMemory) => Err(NoMemory),
    }
}

/// The start of the reading of records: the replay of their snapshot. None where it isn't
/// well-formed.
fn replay_of(alloc: Global, snapshot: Snapshot) -> Mem<Option<Replay>>
    ensures replay { IfOk result
        (λ found. IfSome found (λ replay. replay ≡ first_state snapshot)) }
    ensures well_formed { IfOk result
        (λ found. IfSome found (λ _. IsWellFormedSnapshot snapshot)) }
    ensures none { IfOk result (λ found. found ≡ None → IsWellFormedSnapshot snapshot → ⊥) }
{
    match Replay::of(alloc, snapshot) {
        Ok(replay) => Ok(Some(replay)),
        Err(StateFault::NotWellFormed) => Ok(None),
        Err(StateFault::NoMemory) => Err(NoMemory),
    }
}

/// Reads the entry of a record of format 1 in a pod's journal. None where the record isn't the text
/// of one.
fn read_old(alloc: Global, text: &[u8]) -> Mem<Option<Entry>>
    ensures some { IfOk result (λ found. IfSome found (IsEntryRead 1 text.now)) }
    ensures none { IfOk result (λ found. found ≡ None
        → (entry : EntryValue) → IsEntryOf 1 text.now entry → ⊥) }
{
    match decode_entry_1(alloc, text) {
        Ok(entry) => Ok(Some(entry)),
        Err(ReadBack::NotCanonical) => Ok(None),
        Err(ReadBack::NoMemory) => Err(NoMemory),
    }
}

/// Reads the entry of a record of format 2 in a pod's journal. None where the record isn't the text
/// of one.
fn read_new(alloc: Global, text: &[u8]) -> Mem<Option<Entry>>
    ensures some { IfOk result (λ found. IfSome found (IsEntryRead 2 text.now)) }
    ensures none { IfOk result (λ found. found ≡ None
        → (entry : EntryValue) → IsEntryOf 2 text.now entry → ⊥) }
{
    match decode_entry(alloc, text) {
        Ok(entry) => Ok(Some(entry)),
        Err(ReadBack::NotCanonical) => Ok(None),
        Err(ReadBack::NoMemory) => Err(NoMemory),
    }
}

/// Reads the entry of a record in a pod's journal of this format. None where the record isn't the
/// text of one.
pub fn read_entry(alloc: Global, format: u8, text: &[u8]) -> Mem<Option<Entry>>
    requires { (format ≡ 1) ⊎ (format ≡ 2) }
    ensures some { IfOk result (λ found. IfSome found (IsEntryRead format text.now)) }
    ensures none { IfOk result (λ found. found ≡ None
        → (entry : EntryValue) → IsEntryOf format text.now entry → ⊥) }
{
    if format == OLD_FORMAT {
        read_old(alloc, text)
    } else {
        read_new(alloc, text)
    }
}

/// What is read of records with an entry more: the replay after it. None where the entry doesn't
/// apply.
fn replay_after(alloc: Global, replay: Replay, entry: &Entry) -> Mem<Option<Replay>>
    ensures applies { IfOk result (λ found. IfSome found
        (λ _. Applies replay.pod replay.next entry.now)) }
    ensures after { IfOk result
        (λ found. IfSome found (λ after. after ≡ state_after replay entry.now)) }
    ensures none { IfOk result (λ found. found ≡ None
        → Applies replay.pod replay.next entry.now → ⊥) }
{
    if fits(alloc, replay.version(), entry)? {
        let after = replay.after(alloc, entry)?;
        Ok(Some(after))
    } else {
        Ok(None)
    }
}

/// Reads the next record of a pod's journal: the replay after its entry, and the entry's moment.
/// None where the record isn't the text of an entry that applies.
fn read_next(
    alloc: Global,
    format: u8,
    replay: Replay,
    text: &[u8],
) -> Mem<Option<(Replay, Moment)>>
    requires { (format ≡ 1) ⊎ (format ≡ 2) }
    ensures some { IfOk result (λ found. IfSome found (λ next.
        (bodies : List (List ℕ)) (last : Option MomentValue)
        → AreRecordsRead format bodies replay last
        → AreRecordsRead format (bodies ++ text.now ∷ []) next.0 (Some next.1))) }
    ensures none { IfOk result (λ found. found ≡ None
        → HasNoEntry format text.now replay.pod replay.next) }
{
    match read_entry(alloc, format, text)? {
        Some(entry) => match replay_after(alloc, replay, &entry)? {
            Some(after) => Ok(Some((after, entry.moment))),
            None => Ok(None),
        },
        None => Ok(None),
    }
}

impl Progress {
    /// Reads the first record of a pod's journal, a snapshot.
    fn begin(alloc: Global, text: &[u8]) -> Result<Progress, RecordFault>
        requires { frame_len text.now + 16 < 2 ^ 64 }
        ensures read { IfOk result (λ progress. (format : ℕ)
            → AreRecordsRead format (text.now ∷ []) progress.replay progress.last) }
        ensures at { IfOk result (λ progress. progress.at ≡ gate_after (text.now ∷ [])) }
        ensures cause { IfErr result (λ fault. (format : ℕ) (rest : List (List ℕ))
            → HasRecordCause format (text.now ∷ rest) fault) }
    {
        match read_snapshot(alloc, text)? {
            Some(replay) => Ok(Progress {
                replay,
                last: None,
                at: FIRST_GATE + FRAME_LEN + text.len() as u64,
            }),
            None => Err(RecordFault::Damaged { at: FIRST_GATE }),
        }
    }

    /// Reads one record more of a pod's journal, an entry.
    fn after(self, alloc: Global, format: u8, text: &[u8]) -> Result<Progress, RecordFault>
        requires format { (format ≡ 1) ⊎ (format ≡ 2) }
        requires room { self.at + frame_len text.now < 2 ^ 64 }
        ensures read { IfOk result (λ next. (bodies : List (List ℕ))
            → AreRecordsRead format bodies self.replay self.last
            → AreRecordsRead format (bodies ++ text.now ∷ []) next.replay next.last) }
        ensures at { IfOk result (λ next. next.at ≡ self.at + frame_len text.now) }
        ensures cause { IfErr result (λ fault. (bodies rest : List (List ℕ))
            → AreRecordsRead format bodies self.replay self.last
            → self.at ≡ gate_after bodies
            → HasRecordCause format (bodies ++ text.now ∷ rest) fault) }
    {
        let at = self.at;
        match read_next(alloc, format, self.replay, text)? {
            Some((replay, moment)) => Ok(Progress {
                replay,
                last: Some(moment),
                at: at + FRAME_LEN + text.len() as u64,
            }),
            None => Err(RecordFault::Damaged { at }),
        }
    }
}

/// Reads what the records of a pod's journal of this format hold: `snapshot`, and then `entries`.
///
/// # Errors
///
/// `Damaged` comes at the gate of the first record that isn't the text of what it should be: a
/// well-formed snapshot, or an entry that applies after those before it.
pub fn read_records(
    alloc: Global,
    format: u8,
    snapshot: &[u8],
    entries: &[Bytes],
) -> Result<Reading, RecordFault>
    requires format { (format ≡ 1) ⊎ (format ≡ 2) }
    requires room { gate_after (snapshot.now ∷ entries.now) < 2 ^ 64 }
    ensures read { IfOk result (λ reading. AreRecordsRead format (snapshot.now ∷ entries.now)
        reading.version reading.last) }
    ensures cause { IfErr result (HasRecordCause format (snapshot.now ∷ entries.now)) }
{
    let mut progress = Progress::begin(alloc, snapshot)?;
    for record in entries {
        let next = progress.after(alloc, format, record.as_slice())?;
        progress = next;
    }
    Ok(Reading {
        version: progress.replay.into_version(),
        last: progress.last,
    })
}
