//! The length of a document's text, without writing it.

ghost use Rattle.std.specs.Prelude.{◌≡◌, ◌<◌, ◌+◌, ◌++◌, ℕ, All, codes, length, map};
ghost use Rattle.std.specs.Prelude.{IfOk, OnOk};
ghost use Rattle.iri_ref.specs.Components.{IsAbsolute};
ghost use Rattle.json.specs.Print.{escape, escape_byte};
ghost use Rattle.rdf_graph.specs.Size.{saturated};
ghost use Rattle.rdf_graph.specs.declared.term.Term.TheVariants.{Literal};
ghost use Rattle.rdf_graph.specs.declared.triple.Triple.{Triple};
ghost use Rattle.jsonld_expanded.specs.Document.{document_text, iri_of, key_of, name_of, node_object};
ghost use Rattle.jsonld_expanded.specs.Document.{node_object, object_of, same_key, same_subject};
ghost use Rattle.jsonld_expanded.specs.Document.{tagged_value};
ghost use Rattle.jsonld_expanded.specs.Document.{named_value, value_of};
ghost use Rattle.jsonld_expanded.specs.Runs.{runs};
ghost use Rattle.jsonld_expanded.specs.Widths.{has_letter, keys_width, nodes_width, objects_width};
ghost use Rattle.jsonld_expanded.specs.Widths.{quoted_width, width};
ghost use Rattle.jsonld_expanded.specs.Written.{HasAbsolute, HasAbsoluteIris};

use crate::key_order::{by_key, key_run};
use crate::node_writing::subject_run;
use crate::term_prefetch::read_ahead;
use crate::value_writing::{is_string, is_type, key_of};
use iri_ref::Iri;
use pod_base::Mem;
use rdf_graph::{Term, Triple};
use std::alloc::Global;

/// The number as a length of a JSON-LD text.
#[tactic(auto, unfolding(rdf_graph::specs::Size::saturated))]
fn len_of(number: usize) -> u64
    ensures { result ≡ saturated number }
{
    number as u64
}

/// The sum of two lengths of a JSON-LD text, at most 2^64 - 1.
fn sum(first: u64, second: u64) -> u64
    ensures { (m : ℕ) (n : ℕ) → first ≡ saturated m → second ≡ saturated n
        → result ≡ saturated (m + n) }
{
    first.saturating_add(second)
}

/// Whether the byte of a JSON string has an escape of two bytes, and so this length.
fn has_letter(byte: u8) -> bool
    ensures { result ≡ has_letter byte }
{
    matches!(byte, b'"' | b'\\' | 8 | 9 | 10 | 12 | 13)
}

/// The length that a byte of a string has in JSON, with its escape.
fn byte_len(byte: u8) -> u64
    ensures { result ≡ saturated (length (escape_byte byte)) }
{
    if has_letter(byte) {
        return len_of(2);
    }
    if byte < 32 {
        return len_of(6);
    }
    len_of(1)
}

/// The length of a text with its escapes in JSON.
fn escaped_len(text: &[u8]) -> u64
    ensures { result ≡ saturated (length (escape text.now)) }
{
    let mut len = len_of(0);
    for byte in text {
        len = sum(len, byte_len(*byte));
    }
    len
}

/// The length of a text as a JSON string, between quotes and with its escapes.
fn text_len(text: &str) -> u64
    ensures { result ≡ saturated (quoted_width text.now) }
{
    sum(len_of(2), escaped_len(text.as_bytes()))
}

/// The length of an IRI as a JSON string: none of its characters has an escape.
fn iri_len(iri: &Iri) -> u64
    ensures width { result ≡ saturated (quoted_width iri.now) }
    ensures absolute { IsAbsolute iri.now }
{
    sum(len_of(2), len_of(iri.as_str().len()))
}

/// The length of a blank node's name as a JSON string.
fn blank_len(label: &str) -> u64
    ensures { result ≡ saturated (quoted_width (codes "_:" ++ label.now)) }
{
    sum(len_of(2), text_len(label))
}

/// The length of the empty JSON string.
fn nothing_len() -> u64
    ensures { result ≡ saturated (quoted_width (codes "")) }
{
    len_of(2)
}

/// The length of a node's name as a JSON string.
fn name_len(term: &Term) -> u64
    ensures width { result ≡ saturated (quoted_width (name_of term.now)) }
    ensures absolute { HasAbsolute term.now }
{
    match term {
        Term::Iri(iri) => iri_len(iri),
        Term::Blank(label) => blank_len(label.as_str()),
        Term::Literal { datatype, .. } => {
            let _ = iri_len(datatype);
            nothing_len()
        }
        Term::Tagged { .. } => nothing_len(),
    }
}

/// The length of the text of a node object with nothing but its name.
fn named_len(term: &Term) -> u64
    ensures width { result ≡ saturated (width (named_value (name_of term.now))) }
    ensures absolute { HasAbsolute term.now }
{
    sum(len_of(8), name_len(term))
}

/// The length of the JSON-LD text of a literal without a language tag, as a value.
fn literal_len(lexical: &str, datatype: &Iri) -> u64
    ensures width { result ≡ saturated (width (value_of (Literal lexical.now datatype.now))) }
    ensures absolute { IsAbsolute datatype.now }
{
    let kind = iri_len(datatype);
    let text = text_len(lexical);
    if is_string(datatype.as_str()) {
        return sum(len_of(11), text);
    }
    sum(len_of(20), sum(kind, text))
}

/// The length of the JSON-LD text of a literal with a language tag, as a value.
fn tagged_len(lexical: &str, lang: &str) -> u64
    ensures { result ≡ saturated (width (tagged_value lexical.now lang.now)) }
{
    sum(len_of(24), sum(text_len(lang), text_len(lexical)))
}

/// The length of the JSON-LD text of a term, as a value.
fn value_len(term: &Term) -> u64
    ensures width { result ≡ saturated (width (value_of term.now)) }
    ensures absolute { HasAbsolute term.now }
{
    match term {
        Term::Iri(_iri) => named_len(term),
        Term::Blank(_label) => named_len(term),
        Term::Literal { lexical, datatype } => literal_len(lexical.as_str(), datatype),
        Term::Tagged { lexical, lang } => tagged_len(lexical.as_str(), lang.as_str()),
    }
}

/// The length of a predicate's IRI as a JSON string.
fn predicate_len(term: &Term) -> u64
    ensures width { result ≡ saturated (quoted_width (iri_of term.now)) }
    ensures absolute { HasAbsolute term.now }
{
    match term {
        Term::Iri(iri) => iri_len(iri),
        Term::Blank(_) => nothing_len(),
        Term::Literal { datatype, .. } => {
            let _ = iri_len(datatype);
            nothing_len()
        }
        Term::Tagged { .. } => nothing_len(),
    }
}

/// The length of a triple's key as a JSON string.
fn key_len(triple: &Triple) -> u64
    ensures { result ≡ saturated (quoted_width (key_of triple.now)) }
{
    if is_type(triple) {
        return text_len("@type");
    }
    predicate_len(&triple.p)
}

/// The length of the JSON-LD text of an object, as it is written under its key.
fn object_len(triple: &Triple) -> u64
    ensures width { result ≡ saturated (width (object_of triple.now)) }
    ensures absolute { HasAbsolute triple.now.o }
{
    if is_type(triple) {
        return name_len(&triple.o);
    }
    value_len(&triple.o)
}

/// The length of the JSON-LD text of an object, with a comma.
fn next_object_len(triple: &Triple) -> u64
    ensures width { result ≡ saturated (1 + width (object_of triple.now)) }
    ensures absolute { HasAbsoluteIris triple.now }
{
    let _ = name_len(&triple.s);
    let _ = predicate_len(&triple.p);
    sum(len_of(1), object_len(triple))
}

/// The length of the JSON-LD text of the triples' objects, each with a comma.
fn objects_len(triples: &[Triple]) -> u64
    ensures width { result ≡ saturated (objects_width triples.now) }
    ensures absolute { All HasAbsoluteIris triples.now }
{
    let mut len = len_of(0);
    for triple in triples {
        len = sum(len, next_object_len(triple));
    }
    len
}

/// The length of the JSON-LD text of the triples' keys, each with a comma, a colon and a bracket.
fn keys_len(triples: &[&Triple]) -> u64
    ensures { result
        ≡ saturated (keys_width (runs same_key (map (λ r. r.now) triples.now))) }
{
    let mut len = len_of(0);
    let mut at = 0;
    while at < triples.len() {
        let key = sum(len_of(3), key_len(triples[at]));
        len = sum(len, key);
        at += key_run(&triples[at..]);
    }
    len
}

/// The length of the text of a subject's node object.
fn node_len(alloc: Global, triples: &[Triple]) -> Mem<u64>
    requires { 0 < length triples.now }
    ensures width { IfOk result (λ len. len ≡ saturated (width (node_object triples.now))) }
    ensures absolute { OnOk result (All HasAbsoluteIris triples.now) }
{
    let refs = by_key(alloc, triples)?;
    let keys = keys_len(refs.as_slice());
    let name = sum(len_of(8), name_len(&triples[0].s));
    let parts = sum(keys, objects_len(triples));
    Ok(sum(name, parts))
}

/// The length of the text of the triples' node objects, each with a comma.
fn nodes_len(alloc: Global, triples: &[Triple]) -> Mem<u64>
    ensures width { IfOk result
        (λ len. len ≡ saturated (nodes_width (runs same_subject triples.now))) }
    ensures absolute { OnOk result (All HasAbsoluteIris triples.now) }
{
    let mut len = len_of(0);
    let mut at = 0;
    let mut ahead = 0;
    while at < triples.len() {
        ahead = read_ahead(triples, at, ahead);
        let rest = &triples[at..];
        let run = subject_run(rest);
        let node = node_len(alloc, &rest[..run])?;
        let next = sum(len_of(1), node);
        len = sum(len, next);
        at += run;
    }
    Ok(len)
}

/// The length of the JSON-LD text of a graph's triples, at most 2^64 - 1.
pub(crate) fn document_len(alloc: Global, triples: &[Triple]) -> Mem<u64>
    ensures width { IfOk result (λ len. len ≡ saturated (length (document_text triples.now))) }
    ensures absolute { OnOk result (All HasAbsoluteIris triples.now) }
{
    if triples.is_empty() {
        return Ok(len_of(2));
    }
    let nodes = nodes_len(alloc, triples)?;
    Ok(sum(len_of(1), nodes))
}
