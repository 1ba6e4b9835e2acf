//! Why no version was given.

use pod_base::NoMemory;
use thiserror::Error;

/// Why a view was not opened, or why a look gave no version.
#[derive(Clone, Copy, Debug, PartialEq, Eq, Error)]
pub enum ViewFault {
    /// No memory was left.
    #[error("out of memory")]
    NoMemory,
    /// `left_right` refused a place to read, and the count of such refusals rose.
    #[error("no place to read")]
    NoPlace,
}

impl From<NoMemory> for ViewFault {
    ghost use Rattle.std.specs.Prelude.{◌≡◌};
    ghost use Rattle.published_view.specs.declared.fault.ViewFault.TheVariants as fault_is;

    ghost from_gives = { λ _ fault. fault ≡ fault_is.NoMemory };

    fn from(_: NoMemory) -> ViewFault {
        ViewFault::NoMemory
    }
}
