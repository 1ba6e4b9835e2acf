//! Looking up a triple of three IRIs by their texts.
ghost use Rattle.std.specs.Prelude.{◌≡◌, ◌↔◌, Contains, IfSome, IsTrue};
ghost use Rattle.rdf_graph.specs.LineOrder.{DecidesOrder, from_object, from_predicate};
ghost use Rattle.rdf_graph.specs.Term.{text};
ghost use Rattle.rdf_graph.specs.Triple.{bytes_cmp, iri_triple, line, triple_cmp};
ghost use Rattle.rdf_graph.specs.declared.term.Term.TheVariants.{Iri as IriTerm};

use crate::graph::Graph;
use crate::line_order::{cmp_marked, cmp_rest, cmp_written};
use crate::term::{Term, Written};
use crate::triple::Triple;
use crate::triple_line::line_of_iris;
use std::cmp::Ordering;

impl Graph {
    /// Whether the graph has the triple of these three IRIs, which is looked up by their texts.
    /// Takes no memory.
    pub fn has_iris(&self, s: &str, p: &str, o: &str) -> bool
        ensures { IsTrue result ↔ Contains self.now (iri_triple s.now p.now o.now) }
    {
        self.as_slice()
            .binary_search_by(|triple| cmp_iris(triple, s, p, o))
            .is_ok()
    }
}

/// How a triple compares with that of three IRIs, which is looked up by their texts.
#[tactic(auto, unfolding(crate::specs::Triple::triple_cmp))]
fn cmp_iris(triple: &Triple, s: &str, p: &str, o: &str) -> Ordering
    ensures { result ≡ triple_cmp triple.now (iri_triple s.now p.now o.now) }
{
    match cmp_iri_line(triple, s, p, o) {
        Ordering::Equal => match cmp_written(triple.s.written(), Written::iri(s)) {
            Ordering::Equal => cmp_written(triple.p.written(), Written::iri(p)),
            unequal => unequal,
        },
        unequal => unequal,
    }
}

/// How a triple's line compares with that of three IRIs, given by their texts.
#[tactic(auto, unfolding(crate::specs::Triple::line))]
fn cmp_iri_line(triple: &Triple, s: &str, p: &str, o: &str) -> Ordering
    ensures { result ≡ bytes_cmp (line triple.now) (line (iri_triple s.now p.now o.now)) }
{
    match cmp_iri(&triple.s, s) {
        Some(Ordering::Equal) => match cmp_iri(&triple.p, p) {
            Some(Ordering::Equal) => match cmp_iri(&triple.o, o) {
                Some(order) => order,
                None => cmp_rest(triple.line(), line_of_iris(s, p, o)),
            },
            Some(unequal) => unequal,
            None => cmp_rest(triple.line(), line_of_iris(s, p, o)),
        },
        Some(unequal) => unequal,
        None => cmp_rest(triple.line(), line_of_iris(s, p, o)),
    }
}

/// How lines compare that begin with a term and with an IRI given by its text, each followed by a
/// space. None where the pieces don't decide.
fn cmp_iri(term: &Term, iri: &str) -> Option<Ordering>
    ensures { IfSome result (DecidesOrder 32 (text term.now) (text (IriTerm iri.now))) }
{
    match term {
        Term::Iri(other) => cmp_marked(other.as_str().as_bytes(), iri.as_bytes(), b'>'),
        Term::Blank(_) => Some(Ordering::Greater),
        Term::Literal { .. } => Some(Ordering::Less),
        Term::Tagged { .. } => Some(Ordering::Less),
    }
}
