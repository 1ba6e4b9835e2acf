//! What is done before a record is added: a repair and a checkpoint.
ghost use Rattle.std.specs.Prelude.{◌≡◌, ◌<◌, ◌^◌, List, ℕ, Some, None, IsSome};
ghost use Rattle.journal_pair.specs.Causes.{PairCounts};
ghost use Rattle.journal_pair.specs.Doubts.{RecordDoubt, HasRecords};
ghost use Rattle.journal_pair.specs.Writes.{Readies};

use crate::Pair;
use journal_log::{DiskFault, Framed};
use pod_disk::{Disk, Disks};

/// Closes the pair's gate that is in doubt before a record is appended, where there is one.
pub fn repair<D: Disk>(pair: &mut Pair, disks: &mut Disks<D>) -> Result<(), DiskFault>
    requires { (bodies : List (List ℕ)) × (doubt : RecordDoubt)
        × HasRecords D.image disks.old.first disks.old.second pair.old bodies doubt }
    ensures readies { Readies D.image D.moment D.left_since disks.old.first disks.old.second
        disks.new.first disks.new.second pair.old pair.new result None }
    ensures faults { PairCounts result (D.faults disks.old.first) (D.faults disks.new.first)
        (D.faults disks.old.second) (D.faults disks.new.second) }
{
    if !pair.needs_repair() {
        return Ok(());
    }
    pair.repair(&mut disks.first, &mut disks.second)
}

/// Makes a checkpoint of the pair with this snapshot before a record is appended, after the gate in
/// doubt is closed, where there is one.
pub fn checkpoint<D: Disk>(
    pair: &mut Pair,
    disks: &mut Disks<D>,
    snapshot: &Framed,
) -> Result<(), DiskFault>
    requires below { pair.old.journal.epoch < 2 ^ 63 }
    requires known { (bodies : List (List ℕ)) × (doubt : RecordDoubt)
        × HasRecords D.image disks.old.first disks.old.second pair.old bodies doubt }
    ensures readies { Readies D.image D.moment D.left_since disks.old.first disks.old.second
        disks.new.first disks.new.second pair.old pair.new result (Some snapshot.now) }
    ensures faults { PairCounts result (D.faults disks.old.first) (D.faults disks.new.first)
        (D.faults disks.old.second) (D.faults disks.new.second) }
{
    match repair(pair, disks) {
        Ok(()) => {
            let _len = snapshot.len();
            pair.checkpoint(&mut disks.first, &mut disks.second, snapshot)
        }
        Err(fault) => Err(fault),
    }
}

/// Makes the pair ready before a record is appended: closes the gate in doubt, where there is one,
/// and makes a checkpoint, where there is a snapshot.
pub fn make_ready<D: Disk>(
    pair: &mut Pair,
    disks: &mut Disks<D>,
    snapshot: &Option<Framed>,
) -> Result<(), DiskFault>
    requires below { IsSome snapshot.now → pair.old.journal.epoch < 2 ^ 63 }
    requires known { (bodies : List (List ℕ)) × (doubt : RecordDoubt)
        × HasRecords D.image disks.old.first disks.old.second pair.old bodies doubt }
    ensures readies { Readies D.image D.moment D.left_since disks.old.first disks.old.second
        disks.new.first disks.new.second pair.old pair.new result snapshot.now }
    ensures faults { PairCounts result (D.faults disks.old.first) (D.faults disks.new.first)
        (D.faults disks.old.second) (D.faults disks.new.second) }
{
    match snapshot {
        Some(snapshot) => checkpoint(pair, disks, snapshot),
        None => repair(pair, disks),
    }
}
