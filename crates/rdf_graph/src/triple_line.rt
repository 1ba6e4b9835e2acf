//! The line of a triple, byte by byte.
ghost use Rattle.std.specs.Prelude.{◌≡◌};
ghost use Rattle.rdf_graph.specs.Triple.{prefix_cmp, iri_triple, line, subject_prefix};
ghost use Rattle.rdf_graph.specs.Line.{line_rest};
ghost use Rattle.rdf_graph.specs.LineOrder.{from_predicate, from_object};
ghost use Rattle.rdf_graph.specs.TripleRef.{triple_of};

use crate::term::{Term, Written};
use crate::triple::Triple;
use crate::triple_ref::TripleRef;
use std::cmp::Ordering;

/// The bytes of a triple's line, one after another.
#[derive(Drop)]
pub struct Line<'a> {
    now: Written<'a>,
    tail: LineTail<'a>,
}

/// What follows the current term in a line.
#[derive(Drop)]
enum LineTail<'a> {
    Predicate(TripleRef<'a>),
    Object(TripleRef<'a>),
    PredicateIri(&'a str, &'a str),
    ObjectIri(&'a str),
    Stop,
    Space,
    Nothing,
}

impl<'a> Iterator for Line<'a> {
    ghost use Rattle.std.specs.Iterator.{YieldsFirst, item_count};
    ghost use Rattle.rdf_graph.specs.Line.{line_rest};

    type Item = u8;

    ghost next_gives = { YieldsFirst line_rest };

    ghost remaining = { item_count line_rest };

    /// The next byte of a triple's line.
    fn next(&mut self) -> Option<u8> {
        if let Some(byte) = self.now.next() {
            return Some(byte);
        }
        match self.tail {
            LineTail::Predicate(triple) => {
                self.now = triple.p.written();
                self.tail = LineTail::Object(triple);
            }
            LineTail::Object(triple) => {
                self.now = triple.o.written();
                self.tail = LineTail::Stop;
            }
            LineTail::PredicateIri(p, o) => {
                self.now = Written::iri(p);
                self.tail = LineTail::ObjectIri(o);
            }
            LineTail::ObjectIri(o) => {
                self.now = Written::iri(o);
                self.tail = LineTail::Stop;
            }
            LineTail::Stop => {
                self.now = Written::plain(b".\n");
                self.tail = LineTail::Nothing;
            }
            LineTail::Space => {
                self.tail = LineTail::Nothing;
            }
            LineTail::Nothing => return None,
        }
        Some(b' ')
    }
}

impl Triple {
    /// The bytes of the triple's line.
    #[tactic(auto, unfolding(crate::specs::Triple::line))]
    pub fn line(&self) -> Line<'_>
        ensures { line_rest result ≡ line self.now }
    {
        line_of(&self.parts())
    }
}

/// The bytes of the line of a triple.
#[tactic(auto, unfolding(crate::specs::Triple::line))]
pub(crate) fn line_of<'a>(triple: &TripleRef<'a>) -> Line<'a>
    ensures { line_rest result ≡ line (triple_of triple.now) }
{
    Line {
        now: triple.s.written(),
        tail: LineTail::Predicate(*triple),
    }
}

/// The bytes of the line of a triple from its predicate on.
pub(crate) fn line_from_predicate<'a>(triple: &TripleRef<'a>) -> Line<'a>
    ensures { line_rest result ≡ from_predicate (triple_of triple.now) }
{
    Line {
        now: triple.p.written(),
        tail: LineTail::Object(*triple),
    }
}

/// The bytes of the line of a triple from its object on.
pub(crate) fn line_from_object<'a>(triple: &TripleRef<'a>) -> Line<'a>
    ensures { line_rest result ≡ from_object (triple_of triple.now) }
{
    Line {
        now: triple.o.written(),
        tail: LineTail::Stop,
    }
}

/// The bytes of the line of a triple of three IRIs.
#[tactic(auto, unfolding(crate::specs::Triple::line, crate::specs::Term::text))]
pub(crate) fn line_of_iris<'a>(s: &'a str, p: &'a str, o: &'a str) -> Line<'a>
    ensures { line_rest result ≡ line (iri_triple s.now p.now o.now) }
{
    Line {
        now: Written::iri(s),
        tail: LineTail::PredicateIri(p, o),
    }
}

/// The prefix of the lines of triples with this subject.
#[tactic(auto, unfolding(crate::specs::Triple::subject_prefix))]
pub(crate) fn line_prefix(subject: &Term) -> Line<'_>
    ensures { line_rest result ≡ subject_prefix subject.now }
{
    Line {
        now: subject.written(),
        tail: LineTail::Space,
    }
}

/// How a triple's line compares with the lines that have this prefix.
pub(crate) fn cmp_prefix(mut line: Line<'_>, prefix: Line<'_>) -> Ordering
    ensures { result ≡ prefix_cmp (line_rest line.entry) (line_rest prefix.entry) }
{
    for byte in prefix {
        match line.next() {
            None => return Ordering::Less,
            Some(first) => match first.cmp(&byte) {
                Ordering::Equal => {}
                unequal => return unequal,
            },
        }
    }
    Ordering::Equal
}
