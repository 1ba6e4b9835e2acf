//! A journal on one disk: records after gates. What the records hold is judged above; here they are
//! bytes.
//!
//! A crash at any moment leaves a disk that stands for the records from before a call, or for those
//! with the one that the call adds. Contracts say so of every image of the disk, at each moment
//! inside each call.
//!
//! [`open_status`] and [`report_refusal`] report a journal that isn't opened: the status of the run is
//! that of the fault, and the sink has the line of a damage, or a part of it where its count of
//! faults increased, and for another fault nothing (`told`).
#![tactic(auto)]

mod disk_class;
mod fault;
mod frame_scan;
mod framed_record;
mod head;
mod journal;
mod laws;
mod new_journal;
mod opening;
mod opening_refusals;
mod record_walk;
mod window;
mod window_reads;
mod writes;

pub use disk_class::DiskClass;
pub use fault::{DiskFault, OpenFault, RenewFault, Side};
pub use framed_record::{Framed, frame};
pub use head::EPOCH_LIMIT;
pub use journal::Journal;
pub use laws::{
    damaged_once, new_is_closed_or_open, one_class, opened_again, some_class, stands_once,
    stands_or_damaged,
};
pub use opening_refusals::{open_status, report_refusal};
