//! Terms and graphs of a pod, in short words.
//!
//! A word that begins with `/` is a path below the base of the pod, and one that begins with `@` a
//! person. The prefixes `rdf:`, `ldp:`, `acl:`, `foaf:` and `vcard:` name vocabularies. A word that
//! begins with `_` is a blank node, and one that begins with `'` a plain string. Each other word is
//! an IRI.

use crate::addresses::iri_or_bad;
use crate::triples::add_triple;
use pod_base::{Mem, Text};
use rdf_graph::vocabulary::XSD_STRING;
use rdf_graph::{Graph, Term};
use std::alloc::Global;

/// A word's prefix, and what follows it.
fn split_prefix(word: &str) -> (&str, &str) {
    for prefix in ["/", "@", "rdf:", "ldp:", "acl:", "foaf:", "vcard:"] {
        if let Some(rest) = word.strip_prefix(prefix) {
            return (prefix, rest);
        }
    }
    ("", word)
}

/// The text of the IRI that a word stands for. The base ends in a slash.
pub fn pod_iri(alloc: Global, base: &str, word: &str) -> Mem<String> {
    let (prefix, rest) = split_prefix(word);
    let iri = match prefix {
        "/" => format!(in alloc; "{base}{rest}")?,
        "@" => format!(in alloc; "https://{rest}.example/#me")?,
        "rdf:" => format!(in alloc; "http://www.w3.org/1999/02/22-rdf-syntax-ns#{rest}")?,
        "ldp:" => format!(in alloc; "http://www.w3.org/ns/ldp#{rest}")?,
        "acl:" => format!(in alloc; "http://www.w3.org/ns/auth/acl#{rest}")?,
        "foaf:" => format!(in alloc; "http://xmlns.com/foaf/0.1/{rest}")?,
        "vcard:" => format!(in alloc; "http://www.w3.org/2006/vcard/ns#{rest}")?,
        _ => String::from_str(alloc, word)?,
    };
    Ok(iri)
}

/// The term that a word stands for.
pub fn pod_term(alloc: Global, base: &str, word: &str) -> Mem<Term> {
    if let Some(label) = word.strip_prefix("_") {
        return Ok(Term::Blank(Text::of(alloc, label)?));
    }
    if let Some(lexical) = word.strip_prefix("'") {
        let lexical = Text::of(alloc, lexical)?;
        let datatype = iri_or_bad(alloc, XSD_STRING)?;
        return Ok(Term::Literal { lexical, datatype });
    }
    let text = pod_iri(alloc, base, word)?;
    Ok(Term::Iri(iri_or_bad(alloc, text.as_str())?))
}

/// Adds the triple of three words, where it is one of RDF.
pub fn add_words(alloc: Global, graph: &mut Graph, base: &str, words: [&str; 3]) -> Mem<()> {
    let [s, p, o] = words;
    let s = pod_term(alloc, base, s)?;
    let p = pod_term(alloc, base, p)?;
    let o = pod_term(alloc, base, o)?;
    add_triple(alloc, graph, s, p, o)
}

/// The graph of a field: three words for each triple, and a separator between triples. What is no
/// triple of RDF is left out.
pub fn pod_graph(alloc: Global, base: &str, field: &str, separator: char) -> Mem<Graph> {
    let mut graph = Graph::new(alloc);
    for row in field.split(separator) {
        let mut words = row.split(' ');
        if let (Some(s), Some(p), Some(o)) = (words.next(), words.next(), words.next()) {
            add_words(alloc, &mut graph, base, [s, p, o])?;
        }
    }
    Ok(graph)
}
