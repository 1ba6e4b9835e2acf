//! [`outcome`]: what a patch does to a graph.

ghost use Rattle.std.specs.Prelude.{IfOk, IfErr, IsTrue};
ghost use Rattle.graph_patch.specs.Patch.{IsBound, IsChangeOf, IsFaultOf};
ghost use Rattle.graph_patch.specs.Pattern.{value_of};
ghost use Rattle.graph_patch.specs.Solutions.{IsOnlySolution};
ghost use Rattle.patch_outcome.specs.Outcomes as spec;

use crate::patch_refusals::{PatchRefusal, refusal_of};
use graph_patch::{Mapping, Patch, PatchFault, the_mapping};
use pod_base::Mem;
use pod_rows::vocabulary::LDP_CONTAINS;
use rdf_graph::{Change, Graph};
use std::alloc::Global;

/// The change that a patch's outcome is, under the one mapping of its conditions.
fn change_under(
    alloc: Global,
    graph: &Graph,
    patch: &Patch,
    mapping: &Mapping,
) -> Result<Change, PatchFault>
    requires bound { IsBound patch.now }
    requires only { IsOnlySolution graph.now patch.now.conditions.items mapping.now.pairs.items }
    ensures change { IfOk result (IsChangeOf graph.now patch.now) }
    ensures fault { IfErr result (IsFaultOf graph.now patch.now) }
{
    patch.check(graph, mapping)?;
    Ok(patch.change(alloc, mapping)?)
}

/// Whether a patch of a container names `ldp:contains` whatever the graph, so that its outcome is a
/// refusal.
#[tactic(auto, unfolding(pod_rows::specs::Vocabulary::ldp_contains))]
fn names_fixed(container: bool, patch: &Patch) -> bool
    ensures sound { IsTrue result → IsTrue container × spec.HasFixedContainment patch.now }
    ensures complete { IsTrue container → spec.HasFixedContainment patch.now → IsTrue result }
{
    container && patch.has_fixed_predicate(LDP_CONTAINS)
}

/// Whether a patch of a container names `ldp:contains` under a mapping, so that its outcome is a
/// refusal.
#[tactic(auto, unfolding(pod_rows::specs::Vocabulary::ldp_contains))]
fn names_under(container: bool, patch: &Patch, mapping: &Mapping) -> bool
    ensures sound { IsTrue result
        → IsTrue container × spec.NamesContainment (value_of mapping.now.pairs.items) patch.now }
    ensures complete { IsTrue container
        → spec.NamesContainment (value_of mapping.now.pairs.items) patch.now → IsTrue result }
{
    container && patch.has_predicate(mapping, LDP_CONTAINS)
}

/// The outcome of a patch under the one mapping of its conditions.
fn outcome_under(
    alloc: Global,
    container: bool,
    graph: &Graph,
    patch: &Patch,
    mapping: &Mapping,
) -> Mem<Result<Change, PatchRefusal>>
    requires bound { IsBound patch.now }
    requires only { IsOnlySolution graph.now patch.now.conditions.items mapping.now.pairs.items }
    requires fixed { IsTrue container → spec.HasFixedContainment patch.now → ⊥ }
    ensures { IfOk result (spec.IsOutcome container graph.now patch.now) }
{
    if names_under(container, patch, mapping) {
        return Ok(Err(PatchRefusal::Contains));
    }
    match change_under(alloc, graph, patch, mapping) {
        Ok(change) => Ok(Ok(change)),
        Err(fault) => Ok(Err(refusal_of(fault)?)),
    }
}

/// The outcome of a patch of a row with this graph: the change, or the first refusal, in the order
/// of [`PatchRefusal`]. Where the row is a container, a patch is refused that names `ldp:contains`
/// as the predicate of a deletion or an insertion, also by a variable whose value it is. Each
/// variable of the deletions and insertions is one of the conditions.
pub fn outcome(
    alloc: Global,
    container: bool,
    graph: &Graph,
    patch: &Patch,
) -> Mem<Result<Change, PatchRefusal>>
    requires { IsBound patch.now }
    ensures outcome { IfOk result (spec.IsOutcome container graph.now patch.now) }
{
    if names_fixed(container, patch) {
        return Ok(Err(PatchRefusal::Contains));
    }
    match the_mapping(alloc, graph, &patch.conditions) {
        Ok(mapping) => outcome_under(alloc, container, graph, patch, &mapping),
        Err(fault) => Ok(Err(refusal_of(fault)?)),
    }
}
