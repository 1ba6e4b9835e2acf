//! Why a call of a journal failed.

ghost use Rattle.std.specs.Prelude.{◌≡◌, Some};
ghost use Rattle.journal_log.specs.Sides.{side_text};
ghost use Rattle.journal_log.specs.declared.fault.OpenFault.TheVariants as open_fault;

use pod_base::NoMemory;
use pod_io::Failed;
use std::alloc::AllocError;
use std::fmt;
use std::fmt::Formatter;
use thiserror::Error;

/// Which of two disks a journal lies on. It prints as `first` or `second`.
#[derive(Clone, Copy, Debug, PartialEq, Eq)]
pub enum Side {
    First,
    Second,
}

impl fmt::Display for Side {
    ghost output = { λ side. Some (side_text side) };

    fn fmt<W: fmt::Write>(&self, f: &mut Formatter<W>) -> fmt::Result {
        match self {
            Side::First => f.write_str("first"),
            Side::Second => f.write_str("second"),
        }
    }
}

/// Why a journal wasn't opened.
#[derive(Clone, Copy, Debug, PartialEq, Eq, Error)]
pub enum OpenFault {
    /// The disk holds nothing.
    #[error("the disk is empty")]
    Empty,
    /// The disk has no right head, and the offset is 0, or the gate at this offset is the first
    /// whose frame isn't whole.
    #[error("damaged {side} {at}")]
    Damaged { side: Side, at: u64 },
    /// A call of the disk failed.
    #[error("the disk failed")]
    DiskFault,
    #[error("out of memory")]
    NoMemory,
}

/// A call of the disk failed.
#[derive(Clone, Copy, Debug, PartialEq, Eq, Error)]
#[error("the disk failed")]
pub struct DiskFault;

/// Why a journal wasn't begun anew: a call of the disk failed.
#[derive(Clone, Copy, Debug, PartialEq, Eq, Error)]
pub enum RenewFault {
    /// The new journal isn't open.
    #[error("the disk failed before the first gate was opened")]
    Closed,
    /// The first gate may hold any byte, and the whole record is after it.
    #[error("the disk failed while the first gate was opened")]
    InDoubt,
}

impl From<Failed> for DiskFault {
    fn from(_failed: Failed) -> DiskFault {
        DiskFault
    }
}

impl From<Failed> for OpenFault {
    ghost from_gives = { λ _ fault. fault ≡ open_fault.DiskFault };

    fn from(_failed: Failed) -> OpenFault {
        OpenFault::DiskFault
    }
}

impl From<NoMemory> for OpenFault {
    ghost from_gives = { λ _ fault. fault ≡ open_fault.NoMemory };

    fn from(_error: NoMemory) -> OpenFault {
        OpenFault::NoMemory
    }
}

impl From<AllocError> for OpenFault {
    ghost from_gives = { λ _ fault. fault ≡ open_fault.NoMemory };

    fn from(_error: AllocError) -> OpenFault {
        OpenFault::NoMemory
    }
}
