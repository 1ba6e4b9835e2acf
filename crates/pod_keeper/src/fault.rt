//! What the calls of a keeper return.
ghost use Rattle.std.specs.Prelude.{◌≡◌};
ghost use Rattle.pod_keeper.specs.declared.fault.CommitFault.TheVariants as faults;

use journal_log::{DiskFault, OpenFault};
use pod_base::NoMemory;
use pod_disk::{Disk, Disks};
use std::alloc::AllocError;
use thiserror::Error;

/// Why a change or a checkpoint wasn't made.
#[derive(Clone, Copy, Debug, PartialEq, Eq, Error)]
pub enum CommitFault {
    /// A call of a disk failed.
    #[error("the disk failed")]
    DiskFault,
    #[error("out of memory")]
    NoMemory,
}

impl From<DiskFault> for CommitFault {
    ghost from_gives = { λ _ fault. fault ≡ faults.DiskFault };

    fn from(_fault: DiskFault) -> CommitFault {
        CommitFault::DiskFault
    }
}

impl From<NoMemory> for CommitFault {
    ghost from_gives = { λ _ fault. fault ≡ faults.NoMemory };

    fn from(_error: NoMemory) -> CommitFault {
        CommitFault::NoMemory
    }
}

impl From<AllocError> for CommitFault {
    ghost from_gives = { λ _ fault. fault ≡ faults.NoMemory };

    fn from(_error: AllocError) -> CommitFault {
        CommitFault::NoMemory
    }
}

/// Why a store wasn't opened. It returns the disks.
#[derive(Drop)]
pub struct NotOpened<D: Disk> {
    pub fault: OpenFault,
    pub disks: Disks<D>,
}
