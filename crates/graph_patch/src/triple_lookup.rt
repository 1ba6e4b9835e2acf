//! Where a search looks triples up: in a graph by whole triples and by subjects, and in indexes by
//! predicates and by objects.
ghost use Rattle.std.specs.Prelude.{◌≡◌, ◌≢◌, ◌<◌, if◌then◌else◌, [], IfOk, None, Some};
ghost use Rattle.std.specs.Prelude.{Contains, IfErr};
ghost use Rattle.std.specs.Prelude.{length, map, slice_get};
ghost use Rattle.std.specs.Option.{option_copied};
ghost use Rattle.rdf_graph.specs.Graph.{IsOrdered};
ghost use Rattle.graph_patch.specs.Lookup.{AreCandidates, IsIndex, IsLookup, candidate_triples};
ghost use Rattle.rdf_graph.specs.TripleRef.{triple_of};

use crate::free_variables::has_variable;
use crate::pattern::{Pattern, Slot};
use crate::step_budget::{Steps, weight};
use crate::triple_index::{KeyOrder, index_of, range_of};
use pod_base::Mem;
use rdf_graph::{Term, Triple, TripleRef, cmp_triples, has_terms, subject_range};
use std::alloc::Global;
use std::slice;

/// The triples of a graph in order, and those indexes that were made, the others empty.
#[derive(Clone, Copy)]
pub(crate) struct Lookup<'a> {
    pub(crate) triples: &'a [Triple],
    /// By predicate, and then by object.
    pub(crate) by_predicate: &'a [&'a Triple],
    /// By object, and then by subject.
    pub(crate) by_object: &'a [&'a Triple],
}

/// Triples that contain all matches of a condition: a range of a graph, or of an index. One of the
/// slices is empty.
#[derive(Clone, Copy)]
pub(crate) struct Candidates<'a> {
    in_order: &'a [Triple],
    indexed: &'a [&'a Triple],
}

impl<'a> Candidates<'a> {
    /// Whether the candidates of a look-up are a range of an index.
    fn is_indexed(self) -> bool
        ensures { candidate_triples self.entry
            ≡ (if result then map
            (λ r. r.now) self.entry.indexed.now else self.entry.in_order.now) }
    {
        !self.indexed.is_empty()
    }

    /// The number of a look-up's candidates.
    pub(crate) fn len(self) -> usize
        ensures { result ≡ length (candidate_triples self.entry) }
    {
        if self.is_indexed() {
            self.indexed.len()
        } else {
            self.in_order.len()
        }
    }

    /// The look-up's candidate at this position.
    pub(crate) fn at(self, i: usize) -> &'a Triple
        requires { i < length (candidate_triples self) }
        ensures { slice_get (candidate_triples self.entry) i ≡ Some result.now }
    {
        if self.is_indexed() {
            indexed_at(self.indexed, i)
        } else {
            in_order_at(self.in_order, i)
        }
    }

    /// How many candidates of a look-up have these terms, where they are given, counted up to a
    /// bound and as long as there are steps left. Each four of them take as many steps as one that
    /// is tried.
    pub(crate) fn count(
        self,
        s: Option<&Term>,
        p: Option<&Term>,
        o: Option<&Term>,
        most: usize,
        steps: &mut Steps,
    ) -> usize {
        let weight = weight(s, p, o);
        let mut found: usize = 0;
        for position in 0..self.len() {
            if found == most || (position % 4 == 0 && !steps.take(weight)) {
                return found;
            }
            if has_terms(self.at(position), s, p, o) {
                found = found.saturating_add(1);
            }
        }
        found
    }
}

/// The look-up's triple at this position of an index.
fn indexed_at<'a>(triples: &'a [&'a Triple], i: usize) -> &'a Triple
    requires { i < length triples.now }
    ensures { slice_get (map (λ r. r.now) triples.now) i ≡ Some result.now }
{
    triples[i]
}

/// The look-up's triple at this position of a graph.
fn in_order_at(triples: &[Triple], i: usize) -> &Triple
    requires { i < length triples.now }
    ensures { slice_get triples.now i ≡ Some result.now }
{
    &triples[i]
}

/// The candidates of a look-up that are a range of a graph.
fn in_order<'a>(triples: &'a [Triple]) -> Candidates<'a>
    ensures { candidate_triples result ≡ triples.now }
{
    Candidates {
        in_order: triples,
        indexed: &[],
    }
}

/// The candidates of a look-up that are a range of an index.
fn indexed<'a>(triples: &'a [&'a Triple]) -> Candidates<'a>
    ensures { candidate_triples result ≡ map (λ r. r.now) triples.now }
{
    Candidates {
        in_order: &[],
        indexed: triples,
    }
}

/// The position of the triple that is looked up in a graph by its terms, or else where to insert
/// it.
fn position_of(triples: &[Triple], triple: &TripleRef<'_>) -> Result<usize, usize>
    requires { IsOrdered triples.now }
    ensures found { IfOk result (λ i. slice_get triples.now i ≡ Some (triple_of triple.now)) }
    ensures within { IfOk result (λ i. i < length triples.now) }
    ensures absent { IfErr result (λ _. Contains triples.now (triple_of triple.now) → ⊥) }
{
    triples.binary_search_by(|other| cmp_triples(&other.parts(), triple))
}

/// The slice of the one triple that is looked up by its terms, or an empty one.
fn whole<'a>(triples: &'a [Triple], triple: &TripleRef<'_>) -> &'a [Triple]
    requires { IsOrdered triples.now }
    ensures { AreCandidates (Some triple.now.s.now) (Some triple.now.p.now) (Some triple.now.o.now)
        triples.now result.now }
{
    match position_of(triples, triple) {
        Ok(i) => slice::from_ref(in_order_at(triples, i)),
        Err(_) => &[],
    }
}

impl<'a> Lookup<'a> {
    /// The steps of a look-up where a triple that is tried takes this many: as many for each four
    /// triples that its binary searches compare.
    pub(crate) fn cost(self, weight: u64) -> u64 {
        let halvings = u64::from(self.triples.len().max(1).ilog2());
        weight.saturating_mul((halvings / 2).saturating_add(1))
    }

    /// Looks up candidates that contain all triples with these terms, where they are given.
    pub(crate) fn candidates(
        self,
        s: Option<&Term>,
        p: Option<&Term>,
        o: Option<&Term>,
    ) -> Candidates<'a>
        requires { IsLookup self }
        ensures { AreCandidates (option_copied s.entry) (option_copied p.entry)
            (option_copied o.entry) self.entry.triples.now (candidate_triples result) }
    {
        match (s, p, o) {
            (Some(s), Some(p), Some(o)) => self.with_all(s, p, o),
            (None, Some(p), o) => self.with_predicate(p, o),
            (s, None, Some(o)) => self.with_object(s, o),
            _ => in_order(subject_range(self.triples, s)),
        }
    }

    /// Looks up the triple with these terms, if there is one.
    fn with_all(self, s: &Term, p: &Term, o: &Term) -> Candidates<'a>
        requires { IsLookup self }
        ensures { AreCandidates (Some s.now) (Some p.now) (Some o.now) self.entry.triples.now
            (candidate_triples result) }
    {
        in_order(whole(self.triples, &TripleRef { s, p, o }))
    }

    /// Looks up candidates that contain all triples with this object, and this subject where it is
    /// given.
    fn with_object(self, s: Option<&Term>, o: &Term) -> Candidates<'a>
        requires { IsLookup self }
        ensures { AreCandidates (option_copied s.entry) None (Some o.now) self.entry.triples.now
            (candidate_triples result) }
    {
        if self.by_object.is_empty() {
            in_order(subject_range(self.triples, s))
        } else {
            indexed(range_of(KeyOrder::ObjectSubject, self.by_object, o, s))
        }
    }

    /// Looks up candidates that contain all triples with this predicate, and this object where it
    /// is given.
    fn with_predicate(self, p: &Term, o: Option<&Term>) -> Candidates<'a>
        requires { IsLookup self }
        ensures { AreCandidates None (Some p.now) (option_copied o.entry) self.entry.triples.now
            (candidate_triples result) }
    {
        if self.by_predicate.is_empty() {
            in_order(self.triples)
        } else {
            indexed(range_of(KeyOrder::PredicateObject, self.by_predicate, p, o))
        }
    }
}

/// The index of this order where a search may look these conditions up in it, and else an empty
/// one.
pub(crate) fn index_for<'a>(
    alloc: Global,
    order: KeyOrder,
    triples: &'a [Triple],
    conditions: &[Pattern],
) -> Mem<Vec<&'a Triple>>
    ensures { IfOk result (λ index. index.items ≢ [] → IsIndex order triples.now index.items) }
{
    if needs_index(order, conditions) {
        index_of(alloc, order, triples)
    } else {
        Ok(Vec::new(alloc))
    }
}

/// Whether a search for these conditions may look one up in the index.
fn needs_index(order: KeyOrder, conditions: &[Pattern]) -> bool {
    conditions
        .iter()
        .any(|condition| may_follow_any(order, condition, conditions))
}

/// Whether after some condition this one may be looked up in the index, its subject unknown, and
/// known what the index is by.
fn may_follow_any(order: KeyOrder, condition: &Pattern, conditions: &[Pattern]) -> bool {
    conditions
        .iter()
        .any(|first| may_follow(order, condition, first))
}

/// Whether after `first` the condition may be looked up in the index, its subject unknown, and
/// known what the index is by. An index by objects serves the conditions whose predicate is unknown
/// too.
fn may_follow(order: KeyOrder, condition: &Pattern, first: &Pattern) -> bool {
    if may_be_known(&condition.s, first) {
        return false;
    }
    match order {
        KeyOrder::PredicateObject => may_be_known(&condition.p, first),
        KeyOrder::ObjectSubject => {
            !may_be_known(&condition.p, first) && may_be_known(&condition.o, first)
        }
    }
}

/// Whether a look-up may know the slot's term, which the slot has itself or has a variable of the
/// pattern for.
fn may_be_known(slot: &Slot, pattern: &Pattern) -> bool {
    match slot {
        Slot::Fixed(_) => true,
        Slot::Var(name) => has_variable(pattern, name),
    }
}
