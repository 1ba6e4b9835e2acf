//! Terms and graphs in marked words.
//!
//! A word begins with `<` for an IRI (a name without `http:` is one of `http://e.example/`), `_`
//! for a label, `"` for a literal of the datatype that the cases agree on, and `'` for a plain
//! string. Each other word is a text in English, with or without an `@` before it. Words are fields
//! of `lines`, with its escapes.

use crate::addresses::{iri_of, iri_or_bad};
use crate::lines::text;
use crate::triples::add_triple;
use pod_base::{Mem, Text};
use rdf_graph::vocabulary::XSD_STRING;
use rdf_graph::{Graph, Term};
use std::alloc::Global;

/// The term of an IRI, or of a label where the text is no IRI.
fn named(alloc: Global, text: &str) -> Mem<Term> {
    match iri_of(alloc, text)? {
        Some(iri) => Ok(Term::Iri(iri)),
        None => Ok(Term::Blank(Text::of(alloc, text)?)),
    }
}

/// The term of a name, which may be short.
fn resolved(alloc: Global, name: &str) -> Mem<Term> {
    if name.starts_with("http:") {
        return named(alloc, name);
    }
    let text = format!(in alloc; "http://e.example/{name}")?;
    named(alloc, text.as_str())
}

fn literal(alloc: Global, lexical: &str, datatype: &str) -> Mem<Term> {
    let lexical = Text::of(alloc, lexical)?;
    let datatype = iri_or_bad(alloc, datatype)?;
    Ok(Term::Literal { lexical, datatype })
}

/// The term of a word without escapes.
fn term_of(alloc: Global, text: &str, datatype: &str) -> Mem<Term> {
    if let Some(name) = text.strip_prefix("<") {
        return resolved(alloc, name);
    }
    if let Some(label) = text.strip_prefix("_") {
        return Ok(Term::Blank(Text::of(alloc, label)?));
    }
    if let Some(lexical) = text.strip_prefix("\"") {
        return literal(alloc, lexical, datatype);
    }
    if let Some(lexical) = text.strip_prefix("'") {
        return literal(alloc, lexical, XSD_STRING);
    }
    let lexical = Text::of(alloc, text.strip_prefix("@").unwrap_or(text))?;
    let lang = Text::of(alloc, "en")?;
    Ok(Term::Tagged { lexical, lang })
}

/// The term of a word. A literal that begins with `"` has that datatype.
pub fn marked_term(alloc: Global, word: &str, datatype: &str) -> Mem<Term> {
    let text = text(alloc, word)?;
    term_of(alloc, text.as_str(), datatype)
}

/// The graph of a field: three words for each triple, and `;` between triples. What is no triple of
/// RDF is left out.
pub fn marked_graph(alloc: Global, field: &str, datatype: &str) -> Mem<Graph> {
    let mut graph = Graph::new(alloc);
    for row in field.split(';') {
        let mut words = row.split(' ');
        if let (Some(s), Some(p), Some(o)) = (words.next(), words.next(), words.next()) {
            let s = marked_term(alloc, s, datatype)?;
            let p = marked_term(alloc, p, datatype)?;
            let o = marked_term(alloc, o, datatype)?;
            add_triple(alloc, &mut graph, s, p, o)?;
        }
    }
    Ok(graph)
}
