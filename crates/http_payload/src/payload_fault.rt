//! Why a text is no body.

ghost use Rattle.std.specs.Prelude.{◌≡◌};
ghost use Rattle.http_payload.specs.declared.payload_fault.PayloadFault.TheVariants.{NoMemory};

use std::alloc::AllocError;
use thiserror::Error;

/// Why a text is no body.
#[derive(Clone, Copy, Debug, PartialEq, Eq, Error)]
pub enum PayloadFault {
    /// Whatever follows, the text is no body.
    #[error("malformed body")]
    Malformed,
    /// A chunk line has a size by which the body passes
    /// [`BODY_LIMIT`](http_head::BODY_LIMIT).
    #[error("body too large")]
    TooLarge,
    /// Out of memory.
    #[error("out of memory")]
    NoMemory,
}

impl From<AllocError> for PayloadFault {
    ghost from_gives = { λ _ fault. fault ≡ NoMemory };

    fn from(_: AllocError) -> PayloadFault {
        PayloadFault::NoMemory
    }
}
