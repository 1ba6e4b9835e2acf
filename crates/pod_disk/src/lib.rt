//! The disks of a store: what their calls do, and what a crash may leave at each moment.
//!
//! A disk in memory tells its content and all that a crash may leave of it. One over a real file
//! tells nothing; it is thin, and trusted.
#![tactic(auto)]

mod call;
mod call_effects;
mod crash_image;
mod disk;
mod file_disk;
mod lazy_file;
mod mem_disk;
mod place;
mod torn_call;

pub use call::{Call, NotedCall};
pub use disk::{Disk, LENGTH_LIMIT};
pub use file_disk::FileDisk;
pub use mem_disk::MemDisk;
pub use place::{Disks, Place};
pub use torn_call::Tear;
