//! How a command of a store ends.
ghost use Rattle.std.specs.Prelude.{◌≡◌};
ghost use Rattle.podctl_commands.specs.Ends.{status_of_store_end};

use journal_log::{OpenFault, Side, open_status};
use pod_disk::{Disk, Disks};

/// How a command of a store ended.
#[derive(Clone, Copy, Debug, PartialEq, Eq)]
pub enum StoreEnd {
    /// The work was done.
    Done,
    /// A write to the output failed.
    WriteFault,
    /// The store is damaged on this side, at this offset.
    Damaged { side: Side, at: u64 },
    /// A call of a disk failed.
    DiskFault,
    /// Out of memory.
    NoMemory,
    /// A store was to be made, and a disk isn't empty.
    NotEmpty,
    /// A store was to be opened, and both disks are empty.
    Empty,
}

impl StoreEnd {
    /// The status of a command of a store that ended so.
    pub fn status(self) -> u8
        ensures { result ≡ status_of_store_end self }
    {
        match self {
            StoreEnd::Done => 0,
            StoreEnd::WriteFault => 4,
            StoreEnd::Damaged { side, at } => open_status(OpenFault::Damaged { side, at }),
            StoreEnd::DiskFault => open_status(OpenFault::DiskFault),
            StoreEnd::NoMemory => open_status(OpenFault::NoMemory),
            StoreEnd::NotEmpty => 10,
            StoreEnd::Empty => open_status(OpenFault::Empty),
        }
    }
}

/// How a command ended, and the disks, which it returns.
#[derive(Drop)]
pub struct Ended<D: Disk> {
    pub end: StoreEnd,
    pub disks: Disks<D>,
}
