//! What the changes of a store leave on its disks at each moment. The contract is a law, and the
//! function does nothing.
ghost use Rattle.pod_live.specs.Takes.{MomentsAreOfChanges};

use pod_disk::Disk;

/// Of the changes that were carried to a live store's disks, one after the other, each moment is
/// one of a change: whatever a crash since then leaves of a disk represents, with whatever it
/// leaves of the other in that change, the history with the entries of the changes before, or that
/// with the entry in doubt or the change's own.
pub fn moments_are_of_changes<D: Disk>(disk: &D)
    ensures { MomentsAreOfChanges D.image D.moment D.left_since }
{
    let _disk = disk;
}
