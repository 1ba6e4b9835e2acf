//! What holds of a store that is opened after a crash, as laws over the clauses of its keeper.
//!
//! ```ignore
//! pod_keeper::openings_give_what_stands(&disk);    // the opened records hold what the images hold
//! pod_keeper::opens_after(&keeper);                // a crash between calls, and more while it opens
//! pod_keeper::opens_after_a_crash(&disk);          // a crash inside a call, and more while it opens
//! ```
//!
//! The clauses of a keeper say what a crash leaves at each moment of its calls and between them.
//! [`openings_give_what_stands`] goes on from there: whatever the moment was, the records that the
//! next opening takes hold the history that the images represent, or that with the one entry.
//! [`opens_after`] and [`opens_after_a_crash`] are of openings that crashes cut short, one after the
//! other, however many there are: at each moment of each of them the images represent just that, and
//! an opening that returns a keeper gives it. The first is of a keeper that was closed or stopped
//! between two calls, the second of one that stopped inside a call.
//!
//! The functions do nothing: their contracts are the laws.

ghost use Rattle.pod_keeper.specs.Reopened.{OpeningsGiveWhatStands, OpensAfter, OpensAfterCrash};

use crate::Keeper;
use pod_disk::Disk;

/// Where a crash left disks that represent a history, or it with one of some entries, the records
/// that an opening takes hold just that.
pub fn openings_give_what_stands<D: Disk>(disk: &D)
    ensures { OpeningsGiveWhatStands D.image }
{
    let _disk = disk;
    journal_pair::store_stands_once();
}

/// The disks of a keeper that was closed or stopped between two calls are opened, and crashes cut the
/// openings short, one after the other: each of them leaves and gives its history, or that with the
/// entry in doubt.
pub fn opens_after<D: Disk>(keeper: &Keeper<D>)
    ensures { OpensAfter D.content D.image D.moment D.left_since D.faults keeper.now }
{
    keeper.crash_images_stand();
    journal_pair::store_stands_once();
}

/// Openings of a store after a crash at a moment of a call, which crashes cut short, one after the
/// other, leave and give the history, or that with one of the entries that the call says may follow
/// it.
pub fn opens_after_a_crash<D: Disk>(disk: &D)
    ensures { OpensAfterCrash D.content D.image D.moment D.left_since D.faults }
{
    let _disk = disk;
    journal_pair::store_stands_once();
}
