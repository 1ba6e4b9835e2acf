//! Opening a store, and reading the records of its active journal.
ghost use Rattle.std.specs.Prelude.{◌≡◌, ◌≤◌, ◌<◌, ◌^◌, ◌⊎◌, length, IfOk, IfErr};
ghost use Rattle.journal_pair.specs.Causes.{IfBothVisible};
ghost use Rattle.journal_pair.specs.PairJournal.{HasSnapshot, IsPairClean, IsPassedBeside};
ghost use Rattle.journal_pair.specs.PairMoments.{LeavesPairs, IsWhileStoreOpened};
ghost use Rattle.journal_pair.specs.Stores.{StoreStands};
ghost use Rattle.pod_records.specs.OpenedStores.{HasPodCause, HasContentCause};
ghost use Rattle.pod_records.specs.PodStores.{gate_after};
ghost use Rattle.pod_records.specs.Readings.{AreRecordsRead, HasRecordCause};

use crate::record_reading::{Reading, RecordFault, read_records};
use journal_log::{OpenFault, Side};
use journal_pair::Pair;
use pod_base::{Bytes, List};
use pod_disk::Disk;
use std::alloc::Global;

/// A store that was opened: its pair, the records of its active journal, the snapshot first, and
/// what they hold.
#[derive(Drop)]
pub struct OpenedStore {
    pub pair: Pair,
    pub records: List<Bytes>,
    pub reading: Reading,
}

/// Opens a store and reads its records: each entry of its active journal is decoded and applied
/// once.
///
/// # Errors
///
/// `Empty` comes where both disks are empty. `Damaged` comes at the first gate whose frame isn't
/// whole, and where all frames are whole, at the first gate whose record isn't what it should be.
/// `DiskFault` comes only where a count of faults increased.
pub fn open_store<D: Disk>(
    alloc: Global,
    first: &mut D,
    second: &mut D,
) -> Result<OpenedStore, OpenFault>
    ensures pairs { LeavesPairs D.moment D.left_since first.old second.old first.new second.new
        (IsWhileStoreOpened D.image first.old second.old) }
    ensures clean { IfOk result
        (λ opened. IsPairClean D.image first.new second.new opened.pair opened.records.items) }
    ensures passed { IfOk result
        (λ opened. IsPassedBeside D.image first.new second.new opened.pair) }
    ensures stands { IfOk result
        (λ opened. IfBothVisible (D.content first.old) (D.content second.old)
        (StoreStands opened.pair.active opened.pair.journal.format opened.pair.journal.epoch
        opened.records.items)) }
    ensures read { IfOk result (λ opened. AreRecordsRead opened.pair.journal.format opened.records.items
        opened.reading.version opened.reading.last) }
    ensures later_first { D.moment first.old ≤ D.moment first.new }
    ensures later_second { D.moment second.old ≤ D.moment second.new }
    ensures no_fewer_first { D.faults first.old ≤ D.faults first.new }
    ensures no_fewer_second { D.faults second.old ≤ D.faults second.new }
    ensures cause { IfErr result (HasPodCause (D.content first.old) (D.content second.old)
        (D.faults first.old) (D.faults first.new) (D.faults second.old) (D.faults second.new)) }
{
    match Pair::open(alloc, first, second) {
        Ok((pair, records)) => {
            let _len = pair.len();
            read_pair(alloc, pair, records)
        }
        Err(fault) => Err(fault),
    }
}

/// Reads the records of the pair of a store that is opened.
fn read_pair(alloc: Global, pair: Pair, records: List<Bytes>) -> Result<OpenedStore, OpenFault>
    requires some { HasSnapshot pair.snapshot records.items }
    requires room { gate_after records.items < 2 ^ 64 }
    ensures pair { IfOk result (λ opened. opened.pair ≡ pair) }
    ensures records { IfOk result (λ opened. opened.records.items ≡ records.items) }
    ensures read { IfOk result (λ opened. AreRecordsRead pair.journal.format records.items
        opened.reading.version opened.reading.last) }
    ensures cause { IfErr result
        (HasContentCause pair.active pair.journal.format records.items) }
{
    match read_all(alloc, pair.format(), records.as_slice()) {
        Ok(reading) => Ok(OpenedStore {
            pair,
            records,
            reading,
        }),
        Err(RecordFault::Damaged { at }) => Err(OpenFault::Damaged {
            side: pair.active(),
            at,
        }),
        Err(RecordFault::NoMemory) => Err(OpenFault::NoMemory),
    }
}

/// Reads all records of a store that is opened, of which there is one at least.
fn read_all(alloc: Global, format: u8, records: &[Bytes]) -> Result<Reading, RecordFault>
    requires format { (format ≡ 1) ⊎ (format ≡ 2) }
    requires some { 0 < length records.now }
    requires room { gate_after records.now < 2 ^ 64 }
    ensures read { IfOk result (λ reading. AreRecordsRead format records.now
        reading.version reading.last) }
    ensures cause { IfErr result (HasRecordCause format records.now) }
{
    match records.split_first() {
        Some((snapshot, entries)) => read_records(alloc, format, snapshot.as_slice(), entries),
        None => unreachable!(),
    }
}
