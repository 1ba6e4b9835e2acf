//! What the crash images of a keeper's disks represent, between its calls and in a run of them. The
//! contract of each of these functions is a law, and it does nothing.
ghost use Rattle.std.specs.Prelude.{ℕ, List};
ghost use Rattle.journal_pair.specs.PairMoments.{EachPair, ThroughOpenings};
ghost use Rattle.pod_keeper.specs.CrashedPods.{StandsForOneOf};
ghost use Rattle.pod_keeper.specs.KeeperDisks.{HasSureDisks};
ghost use Rattle.pod_keeper.specs.Kept.{entries_in, ForEachHistory};
ghost use Rattle.pod_keeper.specs.RunMoments.{MomentsAreOfSteps};

use crate::keeper::Keeper;
use pod_disk::Disk;
use pod_io::Clock;

/// In a run of a keeper's requests each moment is one of a step: whatever a crash since then leaves
/// of a disk represents, with whatever it leaves of the other in that step, the history with the
/// entries of the requests before, or that with the entry in doubt or the step's own.
pub fn moments_are_of_steps<D: Disk, C: Clock>(disk: &D, clock: &C)
    ensures { MomentsAreOfSteps D.image D.moment D.left_since (C.may_give clock.now) }
{
    let _disk = disk;
    let _clock = clock;
}

impl<D: Disk> Keeper<D> {
    /// Every pair of crash images of a keeper's disks represents its history, or it with the entry
    /// in doubt, and so do those that crashes leave of it while it is opened, however often.
    pub fn crash_images_stand(&self)
        ensures { ForEachHistory D.image self.now (λ history place doubt.
            HasSureDisks D.image self.now
            → EachPair (D.image self.now.first) (D.image self.now.second)
            (ThroughOpenings (StandsForOneOf history (entries_in doubt)))) }
    {
        let _disks = &self.disks;
    }
}
