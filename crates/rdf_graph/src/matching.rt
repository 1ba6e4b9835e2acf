//! The triples of a graph that have given terms.
ghost use Rattle.std.specs.Prelude.{◌≡◌, ◌↔◌, IfOk, Contains, Some};
ghost use Rattle.std.specs.Option.{option_copied};
ghost use Rattle.rdf_graph.specs.Graph.{IsOrdered};
ghost use Rattle.rdf_graph.specs.Triple.{HasTerms, has_terms, is_given_term};
ghost use Rattle.rdf_graph.specs.SubjectRange.{IsSubjectRange};
ghost use Rattle.rdf_graph.specs.declared.triple.Triple.{Triple};

use crate::graph::Graph;
use crate::term::Term;
use crate::triple::Triple;
use pod_base::{List, Mem};
use std::alloc::Global;

impl Graph {
    /// The triples of the graph that match these terms, where they are given, in order.
    pub fn matching(
        &self,
        alloc: Global,
        s: Option<&Term>,
        p: Option<&Term>,
        o: Option<&Term>,
    ) -> Mem<List<Triple>>
        ensures members { IfOk result
            (λ found. (x : Triple) → Contains found.items x
            ↔ (Contains self.now x
            × HasTerms (option_copied s.entry) (option_copied p.entry)
            (option_copied o.entry) x)) }
        ensures ordered { IfOk result (λ found. IsOrdered found.items) }
    {
        let mut found = Vec::new(alloc);
        for triple in subject_range(self.as_slice(), s) {
            if has_terms(triple, s, p, o) {
                let copy = triple.copy(alloc)?;
                found.push(copy)?;
            }
        }
        Ok(List::from_vec(found))
    }
}

/// The range of a graph's triples that match this subject, or all triples where none is given.
pub fn subject_range<'a>(triples: &'a [Triple], subject: Option<&Term>) -> &'a [Triple]
    requires { IsOrdered triples.now }
    ensures subject_range { IsSubjectRange (option_copied subject.entry) triples.now result.now }
{
    match subject {
        None => triples,
        Some(subject) => subject_lines(triples, subject),
    }
}

/// The triples of a graph that match this subject, by the prefix of their lines.
fn subject_lines<'a>(triples: &'a [Triple], subject: &Term) -> &'a [Triple]
    requires { IsOrdered triples.now }
    ensures subject_range { IsSubjectRange (Some subject.now) triples.now result.now }
{
    let low = triples.partition_point(|triple| triple.cmp_subject(subject).is_lt());
    let rest = &triples[low..];
    let count = rest.partition_point(|triple| triple.cmp_subject(subject).is_le());
    &rest[..count]
}

/// Whether the triple matches these terms, where they are given.
pub fn has_terms(triple: &Triple, s: Option<&Term>, p: Option<&Term>, o: Option<&Term>) -> bool
    ensures { result
        ≡ has_terms (option_copied s.entry) (option_copied p.entry)
        (option_copied o.entry) triple.now }
{
    is_given_term(s, &triple.s) && is_given_term(p, &triple.p) && is_given_term(o, &triple.o)
}

/// Whether a triple's term matches the given one, if one is given.
fn is_given_term(given: Option<&Term>, term: &Term) -> bool
    ensures { result ≡ is_given_term (option_copied given.entry) term.now }
{
    match given {
        None => true,
        Some(given) => term == given,
    }
}
