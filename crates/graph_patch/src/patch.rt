//! Patches, and the changes that they make.
ghost use Rattle.std.specs.Prelude.{◌≡◌, IfErr, IfOk};
ghost use Rattle.graph_patch.specs.Patch.{IsBound, IsChangeOf, IsFaultOf, IsMappingFault};
ghost use Rattle.graph_patch.specs.Solutions.{IsOnlySolution};
ghost use Rattle.graph_patch.specs.declared.patch.PatchFault.TheVariants.{NoMemory as OutOfMemory};

use crate::pattern::{Found, Mapping, Pattern};
use crate::solution_mappings::solutions;
use pod_base::{List, NoMemory};
use rdf_graph::{Change, Graph};
use std::alloc::Global;
use thiserror::Error;

/// A change that depends on the graph: where the conditions have one solution, the instances of the
/// deletions are removed and those of the insertions are added.
#[derive(Debug, Drop)]
pub struct Patch {
    pub conditions: List<Pattern>,
    pub deletions: List<Pattern>,
    pub insertions: List<Pattern>,
}

/// Why a patch fails.
#[derive(Clone, Copy, Debug, PartialEq, Eq, Error)]
pub enum PatchFault {
    /// No mapping makes the conditions triples of the graph.
    #[error("no mapping satisfies the conditions")]
    NoMatch,
    /// More than one does.
    #[error("more than one mapping satisfies the conditions")]
    ManyMatches,
    /// A deletion isn't in the graph.
    #[error("a deletion is not in the graph")]
    MissingDeletion,
    /// An insertion has a literal as its subject, or another term than an IRI as its predicate.
    #[error("an insertion is no triple of RDF")]
    NotTriple,
    /// No memory was left.
    #[error("out of memory")]
    NoMemory,
}

impl From<NoMemory> for PatchFault {
    ghost from_gives = { λ _ fault. fault ≡ OutOfMemory };

    fn from(_error: NoMemory) -> PatchFault {
        PatchFault::NoMemory
    }
}

/// The change that a patch makes in a graph. Each variable of its deletions and insertions is one
/// of its conditions.
///
/// The faults come in the order in which `PatchFault` has them: `NoMatch` and `ManyMatches` as
/// `solutions` says, then `MissingDeletion`, then `NotTriple`.
pub fn instantiate(alloc: Global, graph: &Graph, patch: &Patch) -> Result<Change, PatchFault>
    requires { IsBound patch.now }
    ensures change { IfOk result (IsChangeOf graph.now patch.now) }
    ensures fault { IfErr result (IsFaultOf graph.now patch.now) }
{
    match the_mapping(alloc, graph, &patch.conditions) {
        Err(fault) => Err(fault),
        Ok(mapping) => change_of(alloc, graph, patch, &mapping),
    }
}

/// The one mapping under which the conditions of a patch hold. `NoMatch` and `ManyMatches` come as
/// `solutions` says, and no other fault but `NoMemory`.
pub fn the_mapping(
    alloc: Global,
    graph: &Graph,
    conditions: &List<Pattern>,
) -> Result<Mapping, PatchFault>
    ensures mapping { IfOk result
        (λ mapping. IsOnlySolution graph.now conditions.now.items mapping.pairs.items) }
    ensures fault { IfErr result (IsMappingFault graph.now conditions.now.items) }
{
    match solutions(alloc, graph, conditions)? {
        Found::Nothing => Err(PatchFault::NoMatch),
        Found::One(mapping) => Ok(mapping),
        Found::Many => Err(PatchFault::ManyMatches),
    }
}

/// The change that the patch makes under the one mapping of its conditions.
fn change_of(
    alloc: Global,
    graph: &Graph,
    patch: &Patch,
    mapping: &Mapping,
) -> Result<Change, PatchFault>
    requires bound { IsBound patch.now }
    requires only { IsOnlySolution graph.now patch.now.conditions.items mapping.now.pairs.items }
    ensures change { IfOk result (IsChangeOf graph.now patch.now) }
    ensures fault { IfErr result (IsFaultOf graph.now patch.now) }
{
    match patch.check(graph, mapping) {
        Err(fault) => Err(fault),
        Ok(()) => match patch.change(alloc, mapping) {
            Err(NoMemory) => Err(PatchFault::NoMemory),
            Ok(change) => Ok(change),
        },
    }
}
