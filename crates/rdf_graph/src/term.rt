//! Terms and their texts.
ghost use Rattle.std.specs.Prelude.{◌≡◌, ◌∷◌, IsTrue, ◌↔◌, IfOk, ℕ, List, ◌++◌};
ghost use Rattle.rdf_graph.specs.Term.{text, escaped_byte, term_eq, IsIri, IsLiteral};
ghost use Rattle.std.specs.Cmp.{partial_equiv_from_equiv};
ghost use Rattle.rdf_graph.specs.TermLaws.{term_eq_laws};
ghost use Rattle.rdf_graph.specs.Written.{written_rest};
ghost use Rattle.rdf_graph.specs.declared.term.Term.TheVariants.{Iri as IriTerm};

use crate::vocabulary::XSD_STRING;
use iri_ref::Iri;
use pod_base::{Mem, NoMemory, Text};
use std::alloc::Global;

/// A term of RDF 1.1: an IRI, a blank node by its label, or a literal with a datatype or a language
/// tag.
#[derive(Debug, Drop)]
pub enum Term {
    Iri(Iri),
    Blank(Text),
    Literal { lexical: Text, datatype: Iri },
    Tagged { lexical: Text, lang: Text },
}

/// The bytes of a term's text, one after another.
#[derive(Drop)]
pub struct Written<'a> {
    /// The next bytes, unchanged.
    plain: &'a [u8],
    /// Bytes after them, to be escaped.
    quoted: &'a [u8],
    /// The last bytes, unchanged.
    mark: &'a [u8],
    name: &'a [u8],
    end: &'a [u8],
}

impl<'a> Iterator for Written<'a> {
    ghost use Rattle.std.specs.Iterator.{YieldsFirst, item_count};
    ghost use Rattle.rdf_graph.specs.Written.{written_rest};

    type Item = u8;

    ghost next_gives = { YieldsFirst written_rest };

    ghost remaining = { item_count written_rest };

    /// The next byte of a term's text.
    fn next(&mut self) -> Option<u8> {
        if let Some((first, rest)) = self.plain.split_first() {
            self.plain = rest;
            return Some(*first);
        }
        if let Some((first, rest)) = self.quoted.split_first() {
            self.quoted = rest;
            let (byte, plain) = escape(*first);
            self.plain = plain;
            return Some(byte);
        }
        if let Some((first, rest)) = self.mark.split_first() {
            self.mark = rest;
            return Some(*first);
        }
        if let Some((first, rest)) = self.name.split_first() {
            self.name = rest;
            return Some(*first);
        }
        let (first, rest) = self.end.split_first()?;
        self.end = rest;
        Some(*first)
    }
}

impl<'a> Written<'a> {
    /// A term's text of these bytes, unchanged.
    pub(crate) fn plain(bytes: &'a [u8]) -> Written<'a>
        ensures { written_rest result ≡ bytes.now }
    {
        pieces(bytes, b"", b"", b"", b"")
    }

    /// The bytes of the text of an IRI as a term.
    #[tactic(auto, unfolding(crate::specs::Term::text))]
    pub(crate) fn iri(iri: &'a str) -> Written<'a>
        ensures { written_rest result ≡ text (IriTerm iri.now) }
    {
        pieces(b"<", b"", iri.as_bytes(), b">", b"")
    }
}

/// A byte of a literal term's text, or the first byte of its escape, and the rest of the escape.
pub(crate) fn escape(byte: u8) -> (u8, &'static [u8])
    ensures { result.0 ∷ result.1.now ≡ escaped_byte byte }
{
    match byte {
        b'\\' => (b'\\', b"\\"),
        b'"' => (b'\\', b"\""),
        b'\n' => (b'\\', b"n"),
        b'\r' => (b'\\', b"r"),
        _ => (byte, b""),
    }
}

impl Term {
    /// A copy of the term.
    pub fn copy(&self, alloc: Global) -> Mem<Term>
        ensures { IfOk result (λ copy. copy ≡ self.now) }
    {
        match self {
            Term::Iri(iri) => {
                let iri = copy_iri(alloc, iri)?;
                Ok(Term::Iri(iri))
            }
            Term::Blank(label) => {
                let label = label.copy(alloc)?;
                Ok(Term::Blank(label))
            }
            Term::Literal { lexical, datatype } => {
                let lexical = lexical.copy(alloc)?;
                let datatype = copy_iri(alloc, datatype)?;
                Ok(Term::Literal { lexical, datatype })
            }
            Term::Tagged { lexical, lang } => {
                let lexical = lexical.copy(alloc)?;
                let lang = lang.copy(alloc)?;
                Ok(Term::Tagged { lexical, lang })
            }
        }
    }

    /// Whether the term is an IRI.
    pub fn is_iri(&self) -> bool
        ensures { IsTrue result ↔ IsIri self.now }
    {
        matches!(self, Term::Iri(_))
    }

    /// Whether the term is a literal, with a datatype or a language tag.
    pub fn is_literal(&self) -> bool
        ensures { IsTrue result ↔ IsLiteral self.now }
    {
        matches!(self, Term::Literal { .. } | Term::Tagged { .. })
    }

    /// The bytes of the term's text.
    #[tactic(auto, unfolding(crate::specs::Term::text))]
    pub fn written(&self) -> Written<'_>
        ensures { written_rest result ≡ text self.now }
    {
        match self {
            Term::Iri(iri) => pieces(b"<", b"", iri.as_str().as_bytes(), b">", b""),
            Term::Blank(label) => pieces(b"_:", b"", label.as_str().as_bytes(), b"", b""),
            Term::Literal { lexical, datatype } => {
                let quoted = lexical.as_str().as_bytes();
                if datatype.as_str() == XSD_STRING {
                    pieces(b"\"", quoted, b"\"", b"", b"")
                } else {
                    pieces(b"\"", quoted, b"\"^^<", datatype.as_str().as_bytes(), b">")
                }
            }
            Term::Tagged { lexical, lang } => {
                let quoted = lexical.as_str().as_bytes();
                pieces(b"\"", quoted, b"\"@", lang.as_str().as_bytes(), b"")
            }
        }
    }
}

/// The same IRI for another term, which shares the memory of this one.
pub fn copy_iri(alloc: Global, iri: &Iri) -> Mem<Iri>
    ensures { IfOk result (λ copy. copy ≡ iri.now) }
{
    match iri.copy(alloc) {
        Ok(copy) => Ok(copy),
        Err(_) => Err(NoMemory),
    }
}

impl PartialEq for Term {
    ghost eq = { term_eq };

    ghost laws = { partial_equiv_from_equiv term_eq_laws };

    fn eq(&self, other: &Term) -> bool {
        match (self, other) {
            (Term::Iri(a), Term::Iri(b)) => a.as_str() == b.as_str(),
            (Term::Blank(a), Term::Blank(b)) => a.as_str() == b.as_str(),
            (
                Term::Literal {
                    lexical: a,
                    datatype: c,
                },
                Term::Literal {
                    lexical: b,
                    datatype: d,
                },
            ) => a.as_str() == b.as_str() && c.as_str() == d.as_str(),
            (
                Term::Tagged {
                    lexical: a,
                    lang: c,
                },
                Term::Tagged {
                    lexical: b,
                    lang: d,
                },
            ) => { a.as_str() == b.as_str() && c.as_str() == d.as_str() }
            _ => false,
        }
    }
}

impl Eq for Term {
    ghost laws = { term_eq_laws };
}

/// The bytes of a term's text that has five pieces, of which the second is written with its
/// escapes.
fn pieces<'a>(
    plain: &'a [u8],
    quoted: &'a [u8],
    mark: &'a [u8],
    name: &'a [u8],
    end: &'a [u8],
) -> Written<'a>
    ensures plain { result.plain.now ≡ plain.now }
    ensures quoted { result.quoted.now ≡ quoted.now }
    ensures mark { result.mark.now ≡ mark.now }
    ensures name { result.name.now ≡ name.now }
    ensures end { result.end.now ≡ end.now }
{
    Written {
        plain,
        quoted,
        mark,
        name,
        end,
    }
}
