//! The order of lines: term by term, and byte by byte only where terms don't decide.
ghost use Rattle.std.specs.Prelude.{◌≡◌, ◌++◌, ◌∷◌, codes, IfSome};
ghost use Rattle.std.specs.Ordering.{nat_cmp};
ghost use Rattle.std.specs.Cmp.Lexicographic.{slice_cmp};
ghost use Rattle.rdf_graph.specs.LineOrder.{DecidesOrder, first_or, from_object, from_predicate};
ghost use Rattle.rdf_graph.specs.Line.{line_rest};
ghost use Rattle.rdf_graph.specs.Triple.{prefix_cmp, bytes_cmp, line, subject_prefix};
ghost use Rattle.rdf_graph.specs.TripleRef.{triple_of};
ghost use Rattle.rdf_graph.specs.Term.{text};
ghost use Rattle.rdf_graph.specs.Written.{written_rest};

use crate::term::{Term, Written};
use crate::triple::Triple;
use crate::triple_line::{
    Line, cmp_prefix, line_from_object, line_from_predicate, line_of, line_prefix,
};
use crate::triple_ref::TripleRef;
use std::cmp::Ordering;

/// The first byte of a term's text, or the mark that follows it in a line.
fn first_or(text: &[u8], mark: u8) -> u8
    ensures { result ≡ first_or mark text.now }
{
    match text.first() {
        Some(byte) => *byte,
        None => mark,
    }
}

/// The order of lines by the first bytes of these two texts, each followed by the mark. None where
/// those bytes are equal and not both the mark.
fn cmp_first(a: &[u8], b: &[u8], mark: u8) -> Option<Ordering>
    ensures { IfSome result (DecidesOrder mark a.now b.now) }
{
    if a.is_empty() && b.is_empty() {
        return Some(Ordering::Equal);
    }
    match first_or(a, mark).cmp(&first_or(b, mark)) {
        Ordering::Equal => None,
        unequal => Some(unequal),
    }
}

/// The order of lines with these prefixes, each followed by the mark: `Equal` where the prefixes
/// are equal. None where the longer one begins with the shorter one and the mark.
pub(crate) fn cmp_marked(a: &[u8], b: &[u8], mark: u8) -> Option<Ordering>
    ensures { IfSome result (DecidesOrder mark a.now b.now) }
{
    let both = a.len().min(b.len());
    match a[..both].cmp(&b[..both]) {
        Ordering::Equal => cmp_first(&a[both..], &b[both..], mark),
        unequal => Some(unequal),
    }
}

/// The order of lines that begin with two terms, each followed by a space. None where this takes a
/// comparison byte by byte.
pub(crate) fn cmp_terms(a: &Term, b: &Term) -> Option<Ordering>
    ensures { IfSome result (DecidesOrder 32 (text a.now) (text b.now)) }
{
    match (a, b) {
        (Term::Iri(a), Term::Iri(b)) => {
            cmp_marked(a.as_str().as_bytes(), b.as_str().as_bytes(), b'>')
        }
        (Term::Blank(a), Term::Blank(b)) => {
            cmp_marked(a.as_str().as_bytes(), b.as_str().as_bytes(), b' ')
        }
        _ => cmp_equal(a, b),
    }
}

/// The order of lines that begin with two terms of any kind, each followed by a space: `Equal`
/// where the terms are equal, and else None.
fn cmp_equal(a: &Term, b: &Term) -> Option<Ordering>
    ensures { IfSome result (DecidesOrder 32 (text a.now) (text b.now)) }
{
    if a == b {
        return Some(Ordering::Equal);
    }
    None
}

/// The order of the remaining bytes of two lines.
pub(crate) fn cmp_rest(a: Line<'_>, b: Line<'_>) -> Ordering
    ensures { result ≡ bytes_cmp (line_rest a.entry) (line_rest b.entry) }
{
    a.cmp(b)
}

/// The order of the remaining bytes of two terms' texts, as in the order of lines.
pub(crate) fn cmp_written(a: Written<'_>, b: Written<'_>) -> Ordering
    ensures { result ≡ bytes_cmp (written_rest a.entry) (written_rest b.entry) }
{
    a.cmp(b)
}

impl Term {
    /// The order of two terms as in lines, which is the byte order of their texts.
    pub fn cmp_text(&self, other: &Term) -> Ordering
        ensures { result ≡ slice_cmp nat_cmp (text self.now) (text other.now) }
    {
        match cmp_iris(self, other) {
            Some(order) => order,
            None => cmp_bytes(self, other),
        }
    }
}

/// The order of two IRIs as in lines, which is the byte order of their texts. None for other terms,
/// and where this takes a comparison byte by byte.
fn cmp_iris(a: &Term, b: &Term) -> Option<Ordering>
    ensures { IfSome result (λ order. order ≡ bytes_cmp (text a.now) (text b.now)) }
{
    match (a, b) {
        (Term::Iri(a), Term::Iri(b)) => {
            cmp_marked(a.as_str().as_bytes(), b.as_str().as_bytes(), b'>')
        }
        _ => None,
    }
}

/// The order of two terms as in lines, byte by byte where their texts differ.
fn cmp_bytes(a: &Term, b: &Term) -> Ordering
    ensures { result ≡ bytes_cmp (text a.now) (text b.now) }
{
    if a == b {
        return Ordering::Equal;
    }
    cmp_written(a.written(), b.written())
}

impl Triple {
    /// The order of two triples' lines, byte by byte only where their terms don't decide.
    pub fn cmp_line(&self, other: &Triple) -> Ordering
        ensures { result ≡ slice_cmp nat_cmp (line self.now) (line other.now) }
    {
        cmp_lines(&self.parts(), &other.parts())
    }

    /// How the triple's line compares with the lines of a subject.
    pub(crate) fn cmp_subject(&self, subject: &Term) -> Ordering
        ensures { result ≡ prefix_cmp (line self.now) (subject_prefix subject.now) }
    {
        match cmp_terms(&self.s, subject) {
            Some(order) => order,
            None => cmp_prefix(self.line(), line_prefix(subject)),
        }
    }
}

/// The order of the lines of two triples, given by references to their terms.
#[tactic(auto, unfolding(crate::specs::Triple::line))]
pub(crate) fn cmp_lines(a: &TripleRef<'_>, b: &TripleRef<'_>) -> Ordering
    ensures { result ≡ bytes_cmp (line (triple_of a.now)) (line (triple_of b.now)) }
{
    match cmp_terms(a.s, b.s) {
        Some(Ordering::Equal) => cmp_from_predicate(a, b),
        Some(unequal) => unequal,
        None => cmp_rest(line_of(a), line_of(b)),
    }
}

/// The order of two lines from their predicates on.
fn cmp_from_predicate(a: &TripleRef<'_>, b: &TripleRef<'_>) -> Ordering
    ensures { result
        ≡ bytes_cmp (from_predicate (triple_of a.now)) (from_predicate (triple_of b.now)) }
{
    match cmp_terms(a.p, b.p) {
        Some(Ordering::Equal) => cmp_from_object(a, b),
        Some(unequal) => unequal,
        None => cmp_rest(line_from_predicate(a), line_from_predicate(b)),
    }
}

/// The order of two lines from their objects on.
fn cmp_from_object(a: &TripleRef<'_>, b: &TripleRef<'_>) -> Ordering
    ensures { result ≡ bytes_cmp (from_object (triple_of a.now)) (from_object (triple_of b.now)) }
{
    match cmp_terms(a.o, b.o) {
        Some(order) => order,
        None => cmp_rest(line_from_object(a), line_from_object(b)),
    }
}
