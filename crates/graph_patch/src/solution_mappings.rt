//! Solution mappings: those under which all conditions are triples of a graph.
ghost use Rattle.std.specs.Prelude.{◌≡◌, IfOk, IsTrue, ◌↔◌, map};
ghost use Rattle.graph_patch.specs.Lookup.{IsLookup};
ghost use Rattle.graph_patch.specs.Search.{AnyBinding, IsJoin, IsSearchResult};
ghost use Rattle.graph_patch.specs.Solutions.{AreSolutions};
ghost use Rattle.graph_patch.specs.declared.pattern.Found.TheVariants.{Nothing};

use crate::connected_components::{component_of, label_components};
use crate::pattern::{Found, Mapping, Pattern};
use crate::solution_search::search;
use crate::step_budget::Steps;
use crate::triple_index::KeyOrder;
use crate::triple_lookup::{Lookup, index_for};
use pod_base::{List, Mem};
use rdf_graph::Graph;
use std::alloc::Global;

/// The solution mappings, from exactly the variables of the conditions to terms, under which each
/// condition is a triple of the graph: none, the one, or more. Without conditions it is the one
/// empty mapping (Solid Protocol, N3 Patch).
///
/// Connected components of conditions are solved separately, and the second mapping ends a search.
/// Where a search may know a condition's predicate or object and not its subject, it uses an index,
/// which is built once. A search that would take more than [`STEP_LIMIT`] steps is out of memory.
///
/// [`STEP_LIMIT`]: crate::STEP_LIMIT
pub fn solutions(alloc: Global, graph: &Graph, conditions: &List<Pattern>) -> Mem<Found>
    ensures { IfOk result (AreSolutions graph.now conditions.now.items) }
{
    let conditions = conditions.as_slice();
    let labels = label_components(alloc, conditions)?;
    let triples = graph.as_slice();
    let predicates = index_for(alloc, KeyOrder::PredicateObject, triples, conditions)?;
    let objects = index_for(alloc, KeyOrder::ObjectSubject, triples, conditions)?;
    let by_predicate = predicates.as_slice();
    let by_object = objects.as_slice();
    let lookup = Lookup {
        triples,
        by_predicate,
        by_object,
    };
    let mut steps = Steps::new();
    let mut found = Found::One(Mapping {
        pairs: List::new(alloc),
    });
    for label in 0..conditions.len() {
        let component = component_of(alloc, conditions, labels.as_slice(), label)?;
        let more = solve_component(alloc, lookup, component.as_slice(), &mut steps)?;
        if more.is_nothing() {
            return Ok(Found::Nothing);
        }
        found = found.join(more)?;
    }
    Ok(found)
}

/// The solution mappings of a component of the conditions.
fn solve_component<'a>(
    alloc: Global,
    lookup: Lookup<'a>,
    conditions: &[&'a Pattern],
    steps: &mut Steps,
) -> Mem<Found>
    requires { IsLookup lookup }
    ensures { IfOk result
        (IsSearchResult lookup.entry.triples.now (map (λ c. c.now) conditions.now) AnyBinding) }
{
    let mut taken = vec![in alloc; false; conditions.len()]?;
    let mut bound = Vec::new(alloc);
    search(
        alloc,
        lookup,
        conditions,
        taken.as_mut_slice(),
        &mut bound,
        steps,
    )
}

impl Found {
    /// The solution mappings of two lists of conditions without a common variable, from those of
    /// each.
    fn join(self, other: Found) -> Mem<Found>
        ensures { IfOk result (IsJoin self other) }
    {
        match (self, other) {
            (Found::Nothing, _) | (_, Found::Nothing) => Ok(Found::Nothing),
            (Found::One(mapping), Found::One(other)) => {
                let mut pairs = mapping.pairs.into_vec();
                pairs.append(&mut other.pairs.into_vec())?;
                Ok(Found::One(Mapping {
                    pairs: List::from_vec(pairs),
                }))
            }
            _ => Ok(Found::Many),
        }
    }

    /// Whether there is no solution mapping.
    fn is_nothing(&self) -> bool
        ensures { IsTrue result ↔ (self.now ≡ Nothing) }
    {
        matches!(self, Found::Nothing)
    }
}
