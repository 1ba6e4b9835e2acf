//! Why a document has no graph.

ghost use Rattle.std.specs.Prelude.{◌≡◌};
ghost use Rattle.turtle_terms.specs.declared.fault.TurtleFault.TheVariants.{NoMemory as NoMemoryFault};

use pod_base::NoMemory;
use thiserror::Error;

/// What is wrong at a position of a document.
#[derive(Clone, Copy, Debug, PartialEq, Eq)]
pub enum TurtleKind {
    /// The bytes from there on are not UTF-8.
    NotText,
    /// No token begins there.
    BadToken,
    /// No document continues with the token there, or ends there.
    Grammar,
    /// A name whose prefix is not declared.
    Prefix,
    /// An IRI with a forbidden character.
    BadIri,
    /// A bracket inside of as many open ones as are allowed.
    Depth,
}

/// Why a text has no graph, with the byte position of the fault.
#[derive(Clone, Copy, Debug, PartialEq, Eq, Error)]
pub enum TurtleFault {
    #[error("{kind:?} at byte {at}")]
    Bad { at: usize, kind: TurtleKind },
    /// The token with which the triples become too large.
    #[error("too large at byte {at}")]
    TooLarge { at: usize },
    #[error("out of memory")]
    NoMemory,
}

impl From<NoMemory> for TurtleFault {
    ghost from_gives = { λ _ fault. fault ≡ NoMemoryFault };

    fn from(_: NoMemory) -> TurtleFault {
        TurtleFault::NoMemory
    }
}
