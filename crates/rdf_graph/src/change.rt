//! Changes of graphs.
ghost use Rattle.std.specs.Prelude.{◌≡◌, ◌↔◌, ◌⊎◌, ◌<◌, All, Contains, IfOk, IsTrue, Some, length};
ghost use Rattle.std.specs.Prelude.{slice_get};
ghost use Rattle.std.specs.Bool.{OnTrue, OnFalse};
ghost use Rattle.rdf_graph.specs.Change.{IsChanged};
ghost use Rattle.rdf_graph.specs.InsertionPoint.{ComesFirst};
ghost use Rattle.rdf_graph.specs.Graph.{IsOrdered};

use crate::graph::Graph;
use crate::triple::Triple;
use pod_base::{List, Mem};
use std::alloc::Global;

/// The triples that a patch removes from a graph, and those that it adds.
#[derive(Debug, Drop)]
pub struct Change {
    pub removed: Graph,
    pub added: Graph,
}

impl Change {
    /// A copy of the change.
    pub fn copy(&self, alloc: Global) -> Mem<Change>
        ensures { IfOk result (λ copy. copy ≡ self.now) }
    {
        let removed = self.removed.copy(alloc)?;
        let added = self.added.copy(alloc)?;
        Ok(Change { removed, added })
    }

    /// Whether the change fits the graph, which then has every triple that is removed. Takes no
    /// memory.
    pub fn fits(&self, graph: &Graph) -> bool
        ensures { IsTrue result ↔ All (Contains graph.now) self.now.removed }
    {
        graph.contains_all(self.removed.as_slice())
    }
}

/// The graph after a change, which removes triples first and adds then.
pub fn changed(alloc: Global, graph: &Graph, change: &Change) -> Mem<Graph>
    ensures { IfOk result (IsChanged graph.now change.now.removed change.now.added) }
{
    let (removed, added) = (change.removed.as_slice(), change.added.as_slice());
    let triples = merge(alloc, graph.as_slice(), removed, added)?;
    Ok(Graph::in_order(List::from_vec(triples)))
}

/// The graph's old triples after a change, without the removed ones and with the added ones, in one
/// pass over the three lists.
fn merge(alloc: Global, old: &[Triple], removed: &[Triple], added: &[Triple]) -> Mem<Vec<Triple>>
    requires old { IsOrdered old.now }
    requires removed { IsOrdered removed.now }
    requires added { IsOrdered added.now }
    ensures members { IfOk result (λ new. IsChanged old.now removed.now added.now new.items) }
    ensures ordered { IfOk result (λ new. IsOrdered new.items) }
{
    let most = old
        .len()
        .saturating_sub(removed.len())
        .saturating_add(added.len());
    let mut new = Vec::with_capacity(alloc, most)?;
    let (mut i, mut j, mut k) = (0, 0, 0);
    while i < old.len() || k < added.len() {
        if comes_first(added, k, old, i) {
            let copy = added[k].copy(alloc)?;
            new.push(copy)?;
            k += 1;
        } else if comes_first(removed, j, old, i) {
            j += 1;
        } else {
            if !is_at_either(removed, j, added, k, &old[i]) {
                let copy = old[i].copy(alloc)?;
                new.push(copy)?;
            }
            i += 1;
        }
    }
    Ok(new)
}

/// Whether in the merge of a change the first list has a triple at position k, and it is below all
/// of the second from position i on.
fn comes_first(first: &[Triple], k: usize, second: &[Triple], i: usize) -> bool
    requires { IsOrdered second.now }
    ensures first { IsTrue result ↔ ComesFirst first.now k second.now i }
    ensures within { OnTrue result (k < length first.now) }
    ensures spent { OnFalse result (k < length first.now → i < length second.now) }
{
    match (first.get(k), second.get(i)) {
        (None, _) => false,
        (Some(_), None) => true,
        (Some(y), Some(x)) => y.cmp(x).is_lt(),
    }
}

/// Whether in the merge of a change the removed or the added triples have the triple at their
/// position.
fn is_at_either(removed: &[Triple], j: usize, added: &[Triple], k: usize, triple: &Triple) -> bool
    ensures { IsTrue result
        ↔ ((slice_get removed.now j ≡ Some triple.now)
        ⊎ (slice_get added.now k ≡ Some triple.now)) }
{
    is_at(removed, j, triple) || is_at(added, k, triple)
}

/// Whether in the merge of a change a list has the triple at this position.
fn is_at(triples: &[Triple], position: usize, triple: &Triple) -> bool
    ensures { IsTrue result ↔ (slice_get triples.now position ≡ Some triple.now) }
{
    match triples.get(position) {
        None => false,
        Some(found) => found == triple,
    }
}
