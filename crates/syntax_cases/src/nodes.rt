//! The terms and nodes of cases of patches. A word begins with `<` for an IRI (`<a` is
//! `http://e.example/a`, `<:` one of Solid's terms, `<ldp:` one of LDP's, and `<=` is `rdf:type`),
//! `_` for a label, `'` for a plain string, `?` for a variable and `{` for a formula with its number.

use case_words::iri_or_bad;
use iri_ref::Iri;
use n3_patch::PatchNode;
use pod_base::{Mem, Text};
use rdf_graph::Term;
use rdf_graph::vocabulary::{RDF_TYPE, XSD_STRING};
use std::alloc::Global;

/// The IRI of a short form.
fn named(alloc: Global, name: &str) -> Mem<Iri> {
    if name == "=" {
        return iri_or_bad(alloc, RDF_TYPE);
    }
    if let Some(word) = name.strip_prefix("ldp:") {
        let text = format!(in alloc; "http://www.w3.org/ns/ldp#{word}")?;
        return iri_or_bad(alloc, text.as_str());
    }
    if let Some(word) = name.strip_prefix(":") {
        let text = format!(in alloc; "http://www.w3.org/ns/solid/terms#{word}")?;
        return iri_or_bad(alloc, text.as_str());
    }
    let text = format!(in alloc; "http://e.example/{name}")?;
    iri_or_bad(alloc, text.as_str())
}

/// The three words of a triple.
pub(crate) fn words_of(text: &str) -> (&str, &str, &str) {
    let (subject, rest) = text.split_once(' ').unwrap_or((text, ""));
    let (predicate, object) = rest.split_once(' ').unwrap_or((rest, ""));
    (subject, predicate, object)
}

/// The term of a word.
pub(crate) fn term(alloc: Global, word: &str) -> Mem<Term> {
    if let Some(name) = word.strip_prefix("<") {
        return Ok(Term::Iri(named(alloc, name)?));
    }
    if let Some(label) = word.strip_prefix("_") {
        return Ok(Term::Blank(Text::of(alloc, label)?));
    }
    let lexical = Text::of(alloc, word.strip_prefix("'").unwrap_or(word))?;
    let datatype = iri_or_bad(alloc, XSD_STRING)?;
    Ok(Term::Literal { lexical, datatype })
}

/// The node of a word.
pub(crate) fn node(alloc: Global, word: &str) -> Mem<PatchNode> {
    if let Some(name) = word.strip_prefix("?") {
        return Ok(PatchNode::Variable(Text::of(alloc, name)?));
    }
    if let Some(index) = word.strip_prefix("{") {
        return Ok(PatchNode::Formula(index.parse::<usize>().unwrap_or(0)));
    }
    Ok(PatchNode::Term(term(alloc, word)?))
}
