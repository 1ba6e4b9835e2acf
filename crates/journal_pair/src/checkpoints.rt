//! Checkpoints: a new journal with one snapshot on the other disk.

ghost use Rattle.std.specs.Prelude.{◌≡◌, ◌⊎◌, ◌<◌, ◌^◌, List, ℕ, IsOk, OnOk, OnErr};
ghost use Rattle.std.specs.Prelude.{false};
ghost use Rattle.pod_disk.specs.Disk.{LeavesOnly};
ghost use Rattle.journal_pair.specs.Sides.{active_of, other_of};
ghost use Rattle.journal_pair.specs.Checkpointed.{IsCheckpointed};
ghost use Rattle.journal_pair.specs.Stores.{StoreStandsBoth};
ghost use Rattle.journal_pair.specs.PairJournal.{IsPairClean, IsCheckpointInDoubt, IsPassedBeside};
ghost use Rattle.journal_pair.specs.PairJournal.{IsLongBeside};
ghost use Rattle.journal_pair.specs.PairMoments.{LeavesPairs, IsWhileCheckpointed};
ghost use Rattle.journal_pair.specs.Causes.{PairCounts};

use crate::on_side::{opposite, renew_beside};
use crate::pair::Pair;
use journal_log::{DiskFault, EPOCH_LIMIT, Framed, RenewFault};
use pod_disk::Disk;

impl Pair {
    /// Makes a checkpoint of a pair: a journal of format 2 and the next epoch with this snapshot
    /// alone on the other disk, which is the active one from then on. At epoch 2^63 there is no
    /// next one, and nothing changes. The pair is clean before the call.
    ///
    /// Where the other disk has at least 17 bytes, every pair of crash images at each moment stands
    /// for the records from before the call or for this snapshot alone. On a shorter one a crash
    /// before its first gate is opened may leave any bytes there.
    ///
    /// After an `Err` the pair is as before, or the first gate of the new journal is in doubt;
    /// [`needs_repair`](Pair::needs_repair) says which.
    pub fn checkpoint<D: Disk>(
        &mut self,
        first: &mut D,
        second: &mut D,
        snapshot: &Framed,
    ) -> Result<(), DiskFault>
        requires { (bodies : List (List ℕ))
            × IsPairClean D.image first.old second.old self.old bodies }
        ensures moments { IsPassedBeside D.image first.old second.old self.old
            → IsLongBeside D.image first.old second.old self.old
            → LeavesOnly D.moment D.left_since
            (other_of self.old.active first.old second.old)
            (other_of self.old.active first.new second.new)
            (IsWhileCheckpointed self.old.active self.old.journal.epoch snapshot.now) }
        ensures pairs { (bodies : List (List ℕ))
            → IsPairClean D.image first.old second.old self.old bodies
            → IsPassedBeside D.image first.old second.old self.old
            → IsLongBeside D.image first.old second.old self.old
            → LeavesPairs D.moment D.left_since first.old second.old first.new second.new
            (StoreStandsBoth self.old.active self.old.journal.format self.old.journal.epoch
            bodies snapshot.now) }
        ensures kept { active_of self.old.active first.new second.new
            ≡ active_of self.old.active first.old second.old }
        ensures done { OnOk result (self.old.journal.epoch < 2 ^ 63
            → IsCheckpointed D.image first.new second.new self.old self.new snapshot.now) }
        ensures last { self.old.journal.epoch ≡ 2 ^ 63
            → IsOk result × (self.new ≡ self.old)
            × (first.new ≡ first.old) × (second.new ≡ second.old) }
        ensures fault { OnErr result ((bodies : List (List ℕ))
            → IsPairClean D.image first.old second.old self.old bodies
            → IsPairClean D.image first.new second.new self.new bodies
            ⊎ IsCheckpointInDoubt D.image first.new second.new self.new bodies snapshot.now) }
        ensures fault_active { OnErr result (self.new.active ≡ self.old.active) }
        ensures fault_journal { OnErr result (self.new.journal ≡ self.old.journal) }
        ensures fault_passed { OnErr result (self.new.checkpoint ≡ false
            → IsPassedBeside D.image first.old second.old self.old
            → IsLongBeside D.image first.old second.old self.old
            → IsPassedBeside D.image first.new second.new self.new) }
        ensures fault_long { OnErr result (self.new.checkpoint ≡ false
            → IsPassedBeside D.image first.old second.old self.old
            → IsLongBeside D.image first.old second.old self.old
            → IsLongBeside D.image first.new second.new self.new) }
        ensures faults { PairCounts result (D.faults first.old) (D.faults first.new)
            (D.faults second.old) (D.faults second.new) }
    {
        let epoch = self.journal.epoch();
        if epoch == EPOCH_LIMIT {
            return Ok(());
        }
        let len = snapshot.len();
        match renew_beside(self.active, first, second, epoch + 1, snapshot) {
            Ok(journal) => {
                self.active = opposite(self.active);
                self.journal = journal;
                self.snapshot = len;
                Ok(())
            }
            Err(RenewFault::Closed) => Err(DiskFault),
            Err(RenewFault::InDoubt) => {
                self.checkpoint = true;
                Err(DiskFault)
            }
        }
    }
}
