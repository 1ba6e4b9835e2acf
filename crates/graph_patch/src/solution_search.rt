//! The search for mappings under which conditions are triples of a graph.
ghost use Rattle.std.specs.Prelude.{◌≡◌, ◌<◌, All, IfOk, IfSome, IfNone, OnOk, IsTrue, ◌↔◌, Some};
ghost use Rattle.std.specs.Prelude.{false, true, length, map, slice_get};
ghost use Rattle.graph_patch.specs.Lookup.{AreCandidates, IsLookup, candidate_triples};
ghost use Rattle.graph_patch.specs.Pattern.{Extends};
ghost use Rattle.graph_patch.specs.Search.{IsPartialMatch, IsSearchResult, union, pairs_of};
ghost use Rattle.graph_patch.specs.Pattern.{slot_term, value_of};
ghost use Rattle.graph_patch.specs.declared.pattern.Found.TheVariants.{Many};

use crate::pattern::{Found, Pattern};
use crate::search_bindings::{BoundVariable, extend, mapping_of, slot_term};
use crate::step_budget::{Steps, weight};
use crate::triple_lookup::{Candidates, Lookup};
use pod_base::Mem;
use std::alloc::Global;

impl Found {
    /// The solutions of two searches whose mappings have none in common.
    fn union(self, other: Found) -> Found
        ensures { result ≡ union self other }
    {
        match (self, other) {
            (Found::Nothing, found) | (found, Found::Nothing) => found,
            _ => Found::Many,
        }
    }

    /// Whether a search has found more than one solution.
    fn is_many(&self) -> bool
        ensures { IsTrue result ↔ (self.now ≡ Many) }
    {
        matches!(self, Found::Many)
    }
}

/// The solutions that a search finds among the mappings that have the pairs. Conditions that aren't
/// taken are matched one after another, the one with the fewest candidates first, and the second
/// mapping ends the search. Each triple that is tried takes steps, and so does each look-up.
///
/// After an `Err` the flags and the pairs are unspecified.
pub(crate) fn search<'a>(
    alloc: Global,
    lookup: Lookup<'a>,
    conditions: &[&'a Pattern],
    taken: &mut [bool],
    bound: &mut Vec<BoundVariable<'a>>,
    steps: &mut Steps,
) -> Mem<Found>
    requires lookup { IsLookup lookup }
    requires flags { length taken.old ≡ length conditions.now }
    requires partial { IsPartialMatch lookup.triples.now (map (λ c. c.now) conditions.now) taken.old
        (pairs_of bound.old.items) }
    ensures taken { OnOk result (taken.new ≡ taken.old) }
    ensures bound { OnOk result (bound.new.items ≡ bound.old.items) }
    ensures found { IfOk result
        (IsSearchResult lookup.entry.triples.now (map (λ c. c.now) conditions.now)
        (Extends (pairs_of bound.old.items))) }
{
    let Some(next) = next_condition(lookup, conditions, taken, bound.as_slice(), steps) else {
        return Ok(Found::One(mapping_of(alloc, bound.as_slice())?));
    };
    taken[next] = true;
    let before = bound.len();
    let condition = conditions[next];
    let mut found = Found::Nothing;
    let weight = weight_of(bound.as_slice(), condition);
    steps.spend(lookup.cost(weight))?;
    let candidates = candidates_of(lookup, bound.as_slice(), condition);
    for position in 0..candidates.len() {
        steps.spend(weight)?;
        let triple = candidates.at(position);
        if extend(bound, condition, triple)? {
            let more = search(alloc, lookup, conditions, taken, bound, steps)?;
            found = found.union(more);
        }
        bound.truncate(before);
        if found.is_many() {
            taken[next] = false;
            return Ok(found);
        }
    }
    taken[next] = false;
    Ok(found)
}

/// The candidates of a search that contain all matches of the condition.
fn candidates_of<'a>(
    lookup: Lookup<'a>,
    bound: &[BoundVariable<'a>],
    condition: &'a Pattern,
) -> Candidates<'a>
    requires { IsLookup lookup }
    ensures { AreCandidates (slot_term (value_of (pairs_of bound.now)) condition.now.s)
        (slot_term (value_of (pairs_of bound.now)) condition.now.p)
        (slot_term (value_of (pairs_of bound.now)) condition.now.o) lookup.entry.triples.now
        (candidate_triples result) }
{
    let s = slot_term(bound, &condition.s);
    let p = slot_term(bound, &condition.p);
    let o = slot_term(bound, &condition.o);
    lookup.candidates(s, p, o)
}

/// The condition that a search matches next, with the fewest candidates among those that aren't
/// taken, if there are any: the first one with one candidate or none.
fn next_condition<'a>(
    lookup: Lookup<'a>,
    conditions: &[&'a Pattern],
    taken: &[bool],
    bound: &[BoundVariable<'a>],
    steps: &mut Steps,
) -> Option<usize>
    requires lookup { IsLookup lookup }
    requires flags { length taken.now ≡ length conditions.now }
    ensures some { IfSome result (λ i. slice_get taken.now i ≡ Some false) }
    ensures within { IfSome result (λ i. i < length taken.now) }
    ensures none { IfNone result (All (λ is_taken. is_taken ≡ true) taken.now) }
{
    let mut best = None;
    let mut fewest = first_bound(taken);
    for (i, condition) in conditions.iter().enumerate() {
        if !taken[i] {
            let count = count_of(lookup, bound, condition, fewest, steps);
            if best.is_none() || count < fewest {
                best = Some(i);
                fewest = count;
            }
        }
    }
    best
}

/// The bound of a search's first count of candidates: none where several conditions are left, and
/// else 0, since nothing needs to be counted.
fn first_bound(taken: &[bool]) -> usize {
    let left = taken.iter().filter(|is_taken| !**is_taken).count();
    if left > 1 { usize::MAX } else { 0 }
}

/// The steps that a search takes for each triple that is tried for the condition.
fn weight_of<'a>(bound: &[BoundVariable<'a>], condition: &'a Pattern) -> u64 {
    let s = slot_term(bound, &condition.s);
    let p = slot_term(bound, &condition.p);
    let o = slot_term(bound, &condition.o);
    weight(s, p, o)
}

/// The number of candidates that a search has for the condition, or where these are all triples, of
/// its matches among them, counted up to the fewest so far. Where those are at most one, or no step
/// is left, nothing is counted.
fn count_of<'a>(
    lookup: Lookup<'a>,
    bound: &[BoundVariable<'a>],
    condition: &'a Pattern,
    fewest: usize,
    steps: &mut Steps,
) -> usize
    requires { IsLookup lookup }
{
    if fewest <= 1 {
        return 1;
    }
    let s = slot_term(bound, &condition.s);
    let p = slot_term(bound, &condition.p);
    let o = slot_term(bound, &condition.o);
    if !steps.take(lookup.cost(weight(s, p, o))) {
        return 1;
    }
    let candidates = lookup.candidates(s, p, o);
    if candidates.len() < lookup.triples.len() {
        return candidates.len();
    }
    candidates.count(s, p, o, fewest, steps)
}
