//! [`PathFault`]: why a text is no path.

ghost use Rattle.std.specs.Prelude.{◌≡◌};
ghost use Rattle.pod_path.specs.declared.fault.PathFault.TheVariants as variants;

use pod_base::NoMemory;
use std::alloc::{AllocError, AllocFailed};
use thiserror::Error;

/// Why a text is no path: the first step of parsing that fails.
#[derive(Clone, Copy, Debug, PartialEq, Eq, Error)]
pub enum PathFault {
    /// A `%` without two hexadecimal digits.
    #[error("a `%` without two hexadecimal digits")]
    BadEscape,
    /// A first character that isn't `/`, a character that no path has, an empty segment before the
    /// last slash, or a segment `.` or `..`.
    #[error("no normal path")]
    NotNormal,
    /// The name of an auxiliary before the last slash, or that of an auxiliary's auxiliary.
    #[error("a name of an auxiliary in a place that has none")]
    Reserved,
    /// More than [`crate::PATH_BYTES_LIMIT`] bytes.
    #[error("more than 1,024 bytes")]
    TooLong,
    /// More than [`crate::PATH_SEGMENTS_LIMIT`] segments.
    #[error("more than 32 segments")]
    TooDeep,
    /// Memory ran out.
    #[error("out of memory")]
    NoMemory,
}

impl From<AllocError> for PathFault {
    ghost from_gives = { λ _ fault. fault ≡ variants.NoMemory };

    fn from(_: AllocError) -> PathFault {
        PathFault::NoMemory
    }
}

impl<T: Drop> From<AllocFailed<T>> for PathFault {
    ghost from_gives = { λ _ fault. fault ≡ variants.NoMemory };

    fn from(_: AllocFailed<T>) -> PathFault {
        PathFault::NoMemory
    }
}

impl From<NoMemory> for PathFault {
    ghost from_gives = { λ _ fault. fault ≡ variants.NoMemory };

    fn from(_: NoMemory) -> PathFault {
        PathFault::NoMemory
    }
}
