//! [`TokenFault`]: why a text is no token table.

ghost use Rattle.std.specs.Prelude.{◌≡◌};
ghost use Rattle.token_table.specs.declared.fault.TokenFault.TheVariants as variants;

use pod_base::NoMemory;
use std::alloc::{AllocError, AllocFailed};
use thiserror::Error;

/// Why a text is no token table.
#[derive(Clone, Copy, Debug, PartialEq, Eq, Error)]
pub enum TokenFault {
    /// The line with that number, from 1, is malformed, repeats the token of an earlier one, or
    /// ends past [`crate::TABLE_LIMIT`]. No earlier line does.
    #[error("line {line}")]
    Line { line: u64 },
    /// Memory ran out.
    #[error("out of memory")]
    NoMemory,
}

impl From<AllocError> for TokenFault {
    ghost from_gives = { λ _ fault. fault ≡ variants.NoMemory };

    fn from(_: AllocError) -> TokenFault {
        TokenFault::NoMemory
    }
}

impl<T: Drop> From<AllocFailed<T>> for TokenFault {
    ghost from_gives = { λ _ fault. fault ≡ variants.NoMemory };

    fn from(_: AllocFailed<T>) -> TokenFault {
        TokenFault::NoMemory
    }
}

impl From<NoMemory> for TokenFault {
    ghost from_gives = { λ _ fault. fault ≡ variants.NoMemory };

    fn from(_: NoMemory) -> TokenFault {
        TokenFault::NoMemory
    }
}
