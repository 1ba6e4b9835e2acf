//! [`write`]: one more record.
ghost use Rattle.std.specs.Prelude.{◌≡◌, ◌<◌, ◌^◌, List, ℕ, IsSome};
ghost use Rattle.journal_pair.specs.Causes.{PairCounts};
ghost use Rattle.journal_pair.specs.Doubts.{RecordDoubt, HasRecords};
ghost use Rattle.journal_pair.specs.Writes.{Writes};

use crate::Pair;
use crate::before_append::make_ready;
use journal_log::{DiskFault, Framed};
use pod_disk::{Disk, Disks};

/// Appends one more record to the active journal of a pair, after the gate in doubt is closed,
/// where there is one, and after a checkpoint, where there is a snapshot. It takes no memory.
pub fn write<D: Disk>(
    pair: &mut Pair,
    disks: &mut Disks<D>,
    snapshot: &Option<Framed>,
    body: &Framed,
) -> Result<(), DiskFault>
    requires below { IsSome snapshot.now → pair.old.journal.epoch < 2 ^ 63 }
    requires known { (bodies : List (List ℕ)) × (doubt : RecordDoubt)
        × HasRecords D.image disks.old.first disks.old.second pair.old bodies doubt }
    ensures writes { Writes D.image D.moment D.left_since disks.old.first disks.old.second
        disks.new.first disks.new.second pair.old pair.new result snapshot.now body.now }
    ensures faults { PairCounts result (D.faults disks.old.first) (D.faults disks.new.first)
        (D.faults disks.old.second) (D.faults disks.new.second) }
{
    match make_ready(pair, disks, snapshot) {
        Ok(()) => {
            let _len = body.len();
            pair.append(&mut disks.first, &mut disks.second, body)
        }
        Err(fault) => Err(fault),
    }
}
