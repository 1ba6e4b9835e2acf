//! Appending the texts of terms and triples, by slices.
ghost use Rattle.std.specs.Prelude.{◌≡◌, ◌≤◌, ◌++◌, ◌∷◌, ◌<◌, [], codes, IfOk, IsTrue, OnOk};
ghost use Rattle.std.specs.Prelude.{length, take};
ghost use Rattle.rdf_graph.specs.Term.{datatype_text, escaped, escaped_byte, text};
ghost use Rattle.rdf_graph.specs.Triple.{line};

use crate::term::{Term, escape};
use crate::triple::Triple;
use crate::vocabulary::XSD_STRING;
use pod_base::Mem;
use std::alloc::Global;

impl Term {
    /// Appends the term's text to a byte vector, by slices. After an `Err` only a part of it may
    /// have been appended.
    #[tactic(auto, unfolding(crate::specs::Term::text))]
    pub fn append_to(&self, _alloc: Global, into: &mut Vec<u8>) -> Mem<()>
        ensures { OnOk result (into.new.items ≡ into.old.items ++ text self.now) }
    {
        match self {
            Term::Iri(iri) => append_three(into, b"<", iri.as_str().as_bytes(), b">"),
            Term::Blank(label) => append_three(into, b"_:", label.as_str().as_bytes(), b""),
            Term::Literal { lexical, datatype } => {
                append_quoted(into, lexical.as_str().as_bytes())?;
                append_datatype(into, datatype.as_str())
            }
            Term::Tagged { lexical, lang } => {
                append_quoted(into, lexical.as_str().as_bytes())?;
                append_three(into, b"@", lang.as_str().as_bytes(), b"")
            }
        }
    }
}

impl Triple {
    /// Appends the triple's line to a byte vector, by slices. After an `Err` only a part of it may
    /// have been appended.
    #[tactic(auto, unfolding(crate::specs::Triple::line))]
    pub fn append_to(&self, alloc: Global, into: &mut Vec<u8>) -> Mem<()>
        ensures { OnOk result (into.new.items ≡ into.old.items ++ line self.now) }
    {
        self.s.append_to(alloc, into)?;
        into.extend_from_slice(b" ")?;
        self.p.append_to(alloc, into)?;
        into.extend_from_slice(b" ")?;
        self.o.append_to(alloc, into)?;
        into.extend_from_slice(b" .\n")?;
        Ok(())
    }
}

/// Appends three pieces of a term's text.
fn append_three(into: &mut Vec<u8>, first: &[u8], second: &[u8], third: &[u8]) -> Mem<()>
    ensures { OnOk result
        (into.new.items ≡ into.old.items ++ (first.now ++ (second.now ++ third.now))) }
{
    into.extend_from_slice(first)?;
    into.extend_from_slice(second)?;
    into.extend_from_slice(third)?;
    Ok(())
}

/// Appends the datatype to a literal's text, which follows its closing quote.
fn append_datatype(into: &mut Vec<u8>, datatype: &str) -> Mem<()>
    ensures { OnOk result (into.new.items ≡ into.old.items ++ datatype_text datatype.now) }
{
    if datatype == XSD_STRING {
        return Ok(());
    }
    append_three(into, b"^^<", datatype.as_bytes(), b">")
}

/// Appends a literal's lexical form with its escapes, between quotes.
fn append_quoted(into: &mut Vec<u8>, lexical: &[u8]) -> Mem<()>
    ensures { OnOk result
        (into.new.items
        ≡ into.old.items ++ (codes "\"" ++ (escaped lexical.now ++ codes "\""))) }
{
    into.extend_from_slice(b"\"")?;
    append_escaped(into, lexical)?;
    into.extend_from_slice(b"\"")?;
    Ok(())
}

/// Appends a literal's lexical form with its escapes.
fn append_escaped(into: &mut Vec<u8>, lexical: &[u8]) -> Mem<()>
    ensures { OnOk result (into.new.items ≡ into.old.items ++ escaped lexical.now) }
{
    let mut rest = lexical;
    while !rest.is_empty() {
        rest = append_run(into, rest)?;
    }
    Ok(())
}

/// Appends a run of bytes of a lexical form that have no escape, and the escape of the byte after
/// it. Returns what follows that byte.
fn append_run<'a>(into: &mut Vec<u8>, rest: &'a [u8]) -> Mem<&'a [u8]>
    requires { 0 < length rest.now }
    ensures text { IfOk result
        (λ left. into.new.items ++ escaped left.now ≡ into.old.items ++ escaped rest.now) }
    ensures shorter { IfOk result (λ left. length left.now < length rest.now) }
{
    let plain = plain_len(rest);
    into.extend_from_slice(&rest[..plain])?;
    match rest[plain..].split_first() {
        None => Ok(&rest[rest.len()..]),
        Some((first, left)) => {
            append_byte(into, *first)?;
            Ok(left)
        }
    }
}

/// Appends a byte of a lexical form, or its escape.
fn append_byte(into: &mut Vec<u8>, byte: u8) -> Mem<()>
    ensures { OnOk result (into.new.items ≡ into.old.items ++ escaped_byte byte) }
{
    let (first, tail) = escape(byte);
    into.push(first)?;
    into.extend_from_slice(tail)?;
    Ok(())
}

/// How many bytes at the start of a lexical form are appended as they are, without an escape.
fn plain_len(bytes: &[u8]) -> usize
    ensures within { result ≤ length bytes.now }
    ensures plain { escaped (take result bytes.now) ≡ take result bytes.now }
{
    for (i, byte) in bytes.iter().enumerate() {
        if !is_plain(*byte) {
            return i;
        }
    }
    bytes.len()
}

/// Whether a byte of a lexical form is appended as it is, without an escape.
fn is_plain(byte: u8) -> bool
    ensures { IsTrue result → escaped_byte byte ≡ byte ∷ [] }
{
    byte != b'\\' && byte != b'"' && byte != b'\n' && byte != b'\r'
}
