//! The disks of a store, and the place where a command finds them.

use crate::disk::Disk;
use pod_io::Source;

/// The two disks of a store. One has the journal; a checkpoint is made on the other.
#[derive(Drop)]
pub struct Disks<D: Disk> {
    pub first: D,
    pub second: D,
}

/// What a command finds in the place where it runs: the disks of the store, and where the table of
/// tokens is read from. The disks are taken out and put back.
#[derive(Drop)]
pub struct Place<D: Disk, T: Source> {
    pub disks: Option<Disks<D>>,
    pub tokens: T,
}
