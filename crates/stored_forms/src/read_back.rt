//! [`ReadBack`]: why bytes could not be decoded.
ghost use Rattle.std.specs.Prelude.{◌≡◌};
ghost use Rattle.stored_forms.specs.declared.read_back.ReadBack.TheVariants as faults;

use pod_base::NoMemory;
use std::alloc::{AllocError, AllocFailed};
use thiserror::Error;

/// Why bytes could not be decoded.
#[derive(Clone, Copy, Debug, PartialEq, Eq, Error)]
pub enum ReadBack {
    /// The bytes are those of no value.
    #[error("the bytes are those of no value")]
    NotCanonical,
    /// Out of memory.
    #[error("out of memory")]
    NoMemory,
}

impl From<AllocError> for ReadBack {
    ghost from_gives = { λ _ fault. fault ≡ faults.NoMemory };

    fn from(_: AllocError) -> ReadBack {
        ReadBack::NoMemory
    }
}

impl<T: Drop> From<AllocFailed<T>> for ReadBack {
    ghost from_gives = { λ _ fault. fault ≡ faults.NoMemory };

    fn from(_: AllocFailed<T>) -> ReadBack {
        ReadBack::NoMemory
    }
}

impl From<NoMemory> for ReadBack {
    ghost from_gives = { λ _ fault. fault ≡ faults.NoMemory };

    fn from(_: NoMemory) -> ReadBack {
        ReadBack::NoMemory
    }
}
