//! Graphs: sets of triples, kept in the order of their lines.
ghost use Rattle.std.specs.Prelude.{◌≡◌, ◌==◌, ◌<◌, ◌≤◌, ◌↔◌, [], length, All, Contains, IsTrue};
ghost use Rattle.std.specs.Prelude.{IfOk, OnOk, OnErr, MatchBool, MatchResult, Some, slice_get};
ghost use Rattle.rdf_graph.specs.Triple.{IsRdf};
ghost use Rattle.rdf_graph.specs.Graph.{IsGraph, IsOrdered, SameSet, SetWith, SetWithout};
ghost use Rattle.rdf_graph.specs.InsertionPoint.{IsInsertionPoint};
ghost use Rattle.rdf_graph.specs.Size.{triples_size};
ghost use Rattle.rdf_graph.specs.TripleRef.{triple_of};

use crate::triple::Triple;
use crate::triple_order::cmp_triples;
use crate::triple_ref::TripleRef;
use pod_base::{List, Mem};
use std::alloc::Global;
use std::marker::Model;

/// A graph of RDF 1.1: a set of triples.
///
/// Contracts see its triples in strict byte order of their lines. So two graphs with the
/// same triples are equal.
#[derive(Debug, Drop)]
pub struct Graph {
    triples: Vec<Triple>,
}

impl Model for Graph {
    ghost use Rattle.std.specs.Prelude.{List};
    ghost use Rattle.rdf_graph.specs.declared.triple.Triple.{Triple};
    ghost use Rattle.rdf_graph.specs.Graph.{IsGraph};

    ghost Value = { List Triple };

    ghost view = { λ g. g.triples.items };

    ghost invariant = { λ g. IsGraph g.triples.items };
}

impl Graph {
    /// The empty graph, which grows by `alloc`.
    pub fn new(alloc: Global) -> Graph
        ensures { result ≡ [] }
    {
        Graph {
            triples: Vec::new(alloc),
        }
    }

    /// The graph of these triples, in any order and with repeats.
    pub fn of(triples: List<Triple>) -> Graph
        requires { All IsRdf triples.items }
        ensures members { SameSet result triples.items }
        ensures size { triples_size result ≤ triples_size triples.items }
    {
        let mut triples = triples.into_vec();
        triples.sort_unstable();
        triples.dedup();
        Graph { triples }
    }

    /// The graph of triples of RDF that are in strict order already. Takes no memory.
    pub fn in_order(triples: List<Triple>) -> Graph
        requires { IsGraph triples.items }
        ensures { result ≡ triples.items }
    {
        Graph {
            triples: triples.into_vec(),
        }
    }

    /// The graph's triples as a list, in strict byte order of their lines. Takes no memory.
    pub fn into_list(self) -> List<Triple>
        ensures triples { result.items ≡ self }
        ensures graph { IsGraph result.items }
    {
        List::from_vec(self.triples)
    }

    /// The number of the graph's triples.
    pub fn len(&self) -> usize
        ensures { result ≡ length self.now }
    {
        self.triples.len()
    }

    /// Whether the graph has no triple.
    pub fn is_empty(&self) -> bool
        ensures { result ≡ (length self.now == 0) }
    {
        self.triples.is_empty()
    }

    /// The graph's triple at this position of its order.
    pub fn at(&self, i: usize) -> &Triple
        requires { i < length self.now }
        ensures { slice_get self.now i ≡ Some result.now }
    {
        &self.triples[i]
    }

    /// The graph's triples as a slice, in strict byte order of their lines.
    pub fn as_slice(&self) -> &[Triple]
        ensures triples { result.now ≡ self.now }
        ensures graph { IsGraph result.now }
    {
        self.triples.as_slice()
    }

    /// A copy of the graph.
    pub fn copy(&self, alloc: Global) -> Mem<Graph>
        ensures { IfOk result (λ copy. copy ≡ self.now) }
    {
        let triples = copy_triples(alloc, self.triples.as_slice())?;
        Ok(Graph { triples })
    }

    /// Whether the graph has the triple.
    pub fn contains(&self, triple: &Triple) -> bool
        ensures found { IsTrue result ↔ Contains self.now triple.now }
        ensures rdf { IsTrue result → IsRdf triple.now }
    {
        position(self.triples.as_slice(), triple).is_ok()
    }

    /// Whether the graph has the triple of these terms.
    pub fn contains_parts(&self, triple: &TripleRef<'_>) -> bool
        ensures { IsTrue result ↔ Contains self.now (triple_of triple.now) }
    {
        self.as_slice()
            .binary_search_by(|other| cmp_triples(&other.parts(), triple))
            .is_ok()
    }

    /// Whether the graph has all these triples.
    pub(crate) fn contains_all(&self, triples: &[Triple]) -> bool
        ensures { IsTrue result ↔ All (Contains self.now) triples.now }
    {
        for triple in triples {
            if !self.contains(triple) {
                return false;
            }
        }
        true
    }

    /// Inserts a triple, and returns whether it is new.
    pub fn insert(&mut self, _alloc: Global, triple: Triple) -> Mem<bool>
        requires { IsRdf triple }
        ensures is_new { IfOk result
            (λ new. MatchBool new (Contains self.old triple → ⊥) (Contains self.old triple)) }
        ensures members { OnOk result (SetWith self.old triple self.new) }
        ensures err { OnErr result (self.new ≡ self.old) }
    {
        match position(self.triples.as_slice(), &triple) {
            Ok(_) => Ok(false),
            Err(at) => {
                self.triples.insert(at, triple)?;
                Ok(true)
            }
        }
    }

    /// Removes a triple, and returns whether the graph had it.
    pub fn remove(&mut self, triple: &Triple) -> bool
        ensures was_member { IsTrue result ↔ Contains self.old triple.now }
        ensures members { SetWithout self.old triple.now self.new }
    {
        match position(self.triples.as_slice(), triple) {
            Ok(at) => {
                let _ = self.triples.remove(at);
                true
            }
            Err(_) => false,
        }
    }
}

/// Copies of a graph's triples.
fn copy_triples(alloc: Global, triples: &[Triple]) -> Mem<Vec<Triple>>
    ensures { IfOk result (λ copies. copies.items ≡ triples.now) }
{
    let mut copies = Vec::with_capacity(alloc, triples.len())?;
    for triple in triples {
        let copy = triple.copy(alloc)?;
        copies.push(copy)?;
    }
    Ok(copies)
}

/// The position of a triple in a graph, or else where to insert it.
fn position(triples: &[Triple], triple: &Triple) -> Result<usize, usize>
    requires { IsOrdered triples.now }
    ensures found { MatchResult result (λ i. slice_get triples.now i ≡ Some triple.now)
        (λ i. IsInsertionPoint triples.now i triple.now) }
{
    triples.binary_search(triple)
}
