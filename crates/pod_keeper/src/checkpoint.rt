//! Checkpoints of a keeper.

ghost use Rattle.std.specs.Prelude.{◌≡◌, ◌≤◌, ◌<◌, ◌^◌, IsOk, OnOk, IsErrOf};
ghost use Rattle.pod_keeper.specs.Commits.{IsCheckpointed, IsCheckpointFaulted, LeavesPodsOf};
ghost use Rattle.pod_keeper.specs.KeeperDisks.{HasLongDisks, HasSureDisks, IncreasesFaults};
ghost use Rattle.pod_keeper.specs.KeeperDisks.{StaysLong};
ghost use Rattle.pod_keeper.specs.Kept.{entries_in, ForEachHistory, StandsForSome};

use crate::fault::CommitFault;
use crate::keeper::Keeper;
use journal_log::{DiskFault, EPOCH_LIMIT};
use journal_pair::checkpoint;
use pod_base::NoMemory;
use pod_disk::Disk;
use pod_records::snapshot_record;
use std::alloc::Global;

impl<D: Disk> Keeper<D> {
    /// Makes a checkpoint of the keeper's store: from `Ok` on, below epoch 2^63, the active journal
    /// is on the other disk, and holds the current pod and no entry. The gate in doubt is closed
    /// before, where there is one. At epoch 2^63 it changes nothing.
    ///
    /// # Errors
    ///
    /// `NoMemory` comes before the first call of a disk. After `DiskFault` the active journal is
    /// the one from before, and the checkpoint may be in doubt.
    pub fn checkpoint(&mut self, alloc: Global) -> Result<(), CommitFault>
        requires stands { StandsForSome D.image self.old }

        // For each history that the keeper represented.
        ensures done { OnOk result (self.old.pair.journal.epoch < 2 ^ 63
            → ForEachHistory D.image self.old (λ history place doubt.
            IsCheckpointed D.image self.old self.new history place)) }
        ensures last { self.old.pair.journal.epoch ≡ 2 ^ 63 → IsOk result × (self.new ≡ self.old) }
        ensures fault { IsErrOf result CommitFault.DiskFault
            → ForEachHistory D.image self.old (λ history place doubt.
            IsCheckpointFaulted D.image self.old self.new history place doubt) }
        ensures memory { IsErrOf result CommitFault.NoMemory → self.new ≡ self.old }
        ensures stands { StandsForSome D.image self.new }

        // At each moment.
        ensures pairs { ForEachHistory D.image self.old (λ history place doubt.
            HasSureDisks D.image self.old → HasLongDisks D.image self.old
            → LeavesPodsOf D.moment D.left_since self.old self.new history (entries_in doubt)) }
        ensures sure { HasSureDisks D.image self.old → HasLongDisks D.image self.old
            → HasSureDisks D.image self.new }
        ensures long { StaysLong D.image self.old self.new }
        ensures no_fewer_first { D.faults self.old.first ≤ D.faults self.new.first }
        ensures no_fewer_second { D.faults self.old.second ≤ D.faults self.new.second }
        ensures counted { IsErrOf result CommitFault.DiskFault
            → IncreasesFaults D.faults self.old self.new }
    {
        if self.pair.epoch() < EPOCH_LIMIT {
            self.renew(alloc)
        } else {
            Ok(())
        }
    }

    /// Makes a checkpoint of the keeper's store below epoch 2^63.
    fn renew(&mut self, alloc: Global) -> Result<(), CommitFault>
        requires below { self.old.pair.journal.epoch < 2 ^ 63 }
        requires stands { StandsForSome D.image self.old }
        ensures done { OnOk result (ForEachHistory D.image self.old (λ history place doubt.
            IsCheckpointed D.image self.old self.new history place)) }
        ensures fault { IsErrOf result CommitFault.DiskFault
            → ForEachHistory D.image self.old (λ history place doubt.
            IsCheckpointFaulted D.image self.old self.new history place doubt) }
        ensures memory { IsErrOf result CommitFault.NoMemory → self.new ≡ self.old }
        ensures stands { StandsForSome D.image self.new }
        ensures pairs { ForEachHistory D.image self.old (λ history place doubt.
            HasSureDisks D.image self.old → HasLongDisks D.image self.old
            → LeavesPodsOf D.moment D.left_since self.old self.new history (entries_in doubt)) }
        ensures sure { HasSureDisks D.image self.old → HasLongDisks D.image self.old
            → HasSureDisks D.image self.new }
        ensures long { StaysLong D.image self.old self.new }
        ensures no_fewer_first { D.faults self.old.first ≤ D.faults self.new.first }
        ensures no_fewer_second { D.faults self.old.second ≤ D.faults self.new.second }
        ensures counted { IsErrOf result CommitFault.DiskFault
            → IncreasesFaults D.faults self.old self.new }
    {
        match snapshot_record(alloc, &*self.version) {
            Ok(snapshot) => match checkpoint(&mut self.pair, &mut self.disks, &snapshot) {
                Ok(()) => Ok(()),
                Err(DiskFault) => Err(CommitFault::DiskFault),
            },
            Err(NoMemory) => Err(CommitFault::NoMemory),
        }
    }
}
