//! [`PatchRefusal`]: why a patch is refused.

ghost use Rattle.std.specs.Prelude.{◌≡◌, Some, IfOk};
ghost use Rattle.patch_outcome.specs.Outcomes as spec;

use graph_patch::PatchFault;
use pod_base::{Mem, NoMemory};

/// Why a patch, or an update, is refused. It is answered by 409 with this word.
#[derive(Clone, Copy, Debug, PartialEq, Eq)]
pub enum PatchRefusal {
    /// It is about the children of a container, which are no triples of its own.
    Contains,
    /// No mapping satisfies the conditions.
    NoMatch,
    /// More than one mapping satisfies the conditions.
    ManyMatches,
    /// A deletion isn't in the graph.
    MissingDeletion,
    /// An insertion is no triple of RDF.
    NotTriple,
}

impl PatchRefusal {
    /// The word of a patch's refusal in the response.
    pub fn word(self) -> &'static str
        ensures { result.now ≡ spec.word_of self }
    {
        match self {
            PatchRefusal::Contains => "contains",
            PatchRefusal::NoMatch => "no-match",
            PatchRefusal::ManyMatches => "many-matches",
            PatchRefusal::MissingDeletion => "missing-deletion",
            PatchRefusal::NotTriple => "not-triple",
        }
    }
}

/// The refusal of a patch for its fault.
pub(crate) fn refusal_of(fault: PatchFault) -> Mem<PatchRefusal>
    ensures { IfOk result (λ refusal. spec.fault_of refusal ≡ Some fault) }
{
    match fault {
        PatchFault::NoMatch => Ok(PatchRefusal::NoMatch),
        PatchFault::ManyMatches => Ok(PatchRefusal::ManyMatches),
        PatchFault::MissingDeletion => Ok(PatchRefusal::MissingDeletion),
        PatchFault::NotTriple => Ok(PatchRefusal::NotTriple),
        PatchFault::NoMemory => Err(NoMemory),
    }
}
