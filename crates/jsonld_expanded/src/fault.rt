//! Why a document has no graph.

ghost use Rattle.std.specs.Prelude.{◌≡◌};
ghost use Rattle.jsonld_expanded.specs.declared.fault.JsonLdFault.TheVariants as JsonLdFault;
ghost use Rattle.jsonld_expanded.specs.declared.fault.Refusal.TheVariants as Refusal;
ghost use Rattle.iri_ref.specs.declared.iri.IriFault.TheVariants as IriFault;

use iri_ref::IriFault;
use pod_base::NoMemory;
use std::alloc::AllocError;
use thiserror::Error;

/// Why [`read`](crate::read) returns no graph.
#[derive(Clone, Copy, Debug, PartialEq, Eq, Error)]
pub enum JsonLdFault {
    /// The bytes are no JSON, or nest too deep for `serde_json`.
    #[error("no JSON")]
    NotJson,
    /// The JSON stands for no graph.
    #[error("not in the profile of expanded JSON-LD")]
    OutOfProfile,
    /// The encoded triples are longer than [`TRIPLES_LIMIT`](rdf_graph::TRIPLES_LIMIT).
    #[error("too many triples")]
    TooLarge,
    /// Memory ran out.
    #[error("out of memory")]
    NoMemory,
}

/// Why a walk over a value ends early.
#[derive(Clone, Copy, Debug, PartialEq, Eq)]
pub(crate) enum Refusal {
    OutOfProfile,
    NoMemory,
}

impl From<NoMemory> for Refusal {
    ghost from_gives = { λ _ refusal. refusal ≡ Refusal.NoMemory };

    fn from(_: NoMemory) -> Refusal {
        Refusal::NoMemory
    }
}

impl From<AllocError> for Refusal {
    ghost from_gives = { λ _ refusal. refusal ≡ Refusal.NoMemory };

    fn from(_: AllocError) -> Refusal {
        Refusal::NoMemory
    }
}

/// The refusal of a document where an IRI was wanted and there is none.
pub(crate) fn refusal_of(fault: IriFault) -> Refusal
    ensures { result ≡ Refusal.OutOfProfile → fault ≡ IriFault.BadReference }
{
    match fault {
        IriFault::BadReference => Refusal::OutOfProfile,
        IriFault::NoMemory => Refusal::NoMemory,
    }
}

/// The fault of a document whose walk ends early.
pub(crate) fn fault_of(refusal: Refusal) -> JsonLdFault
    ensures out { result ≡ JsonLdFault.OutOfProfile → refusal ≡ Refusal.OutOfProfile }
    ensures json { result ≡ JsonLdFault.NotJson → ⊥ }
    ensures small { result ≡ JsonLdFault.TooLarge → ⊥ }
{
    match refusal {
        Refusal::OutOfProfile => JsonLdFault::OutOfProfile,
        Refusal::NoMemory => JsonLdFault::NoMemory,
    }
}
