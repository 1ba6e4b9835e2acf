//! [`update_outcome`]: what an update of SPARQL data does to a graph.

ghost use Rattle.std.specs.Prelude.{◌≡◌, IfOk};
ghost use Rattle.patch_outcome.specs.Updates as spec;

use crate::patch_outcomes::outcome;
use crate::patch_refusals::PatchRefusal;
use acl_rules::vocabulary::is_iri;
use pod_base::{List, Mem};
use pod_rows::vocabulary::LDP_CONTAINS;
use rdf_graph::{Change, Graph};
use sparql_patch::{Named, spelled};
use std::alloc::Global;

/// Whether a triple that an update names is about containment, with the predicate `ldp:contains`.
#[tactic(auto, unfolding(pod_rows::specs::Vocabulary::ldp_contains))]
fn is_containment(naming: &Named) -> bool
    ensures { result ≡ spec.is_containment naming.now }
{
    is_iri(&naming.triple.p, LDP_CONTAINS)
}

/// Whether an update names a triple about containment.
fn names_containment(named: &[Named]) -> bool
    ensures { result ≡ spec.names_containment named.now }
{
    named.iter().any(is_containment)
}

/// The outcome of an update of a row with this graph: the change of the patch that it spells there,
/// or a refusal. Where the row is a container, an update is refused that names a triple with the
/// predicate `ldp:contains`, also one that isn't in the graph.
pub fn update_outcome(
    alloc: Global,
    container: bool,
    graph: &Graph,
    named: &List<Named>,
) -> Mem<Result<Change, PatchRefusal>>
    ensures outcome { IfOk result (spec.IsUpdateOutcome container graph.now named.now.items) }
{
    if container && names_containment(named.as_slice()) {
        return Ok(Err(PatchRefusal::Contains));
    }
    let patch = spelled(alloc, named, graph)?;
    outcome(alloc, false, graph, &patch)
}
