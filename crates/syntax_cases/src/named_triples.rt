//! Cases of `sparql_patch::spelled`. Namings are separated by `;`: `+` or `-`, and three words. So
//! are the triples of the graph, without the sign.

use crate::nodes::{term, words_of};
use crate::print;
use case_words::add_triple;
use pod_base::{List, Mem, NoMemory};
use rdf_graph::{Graph, Triple};
use sparql_patch::Named;
use std::alloc::Global;

fn triple(alloc: Global, words: &str) -> Mem<Triple> {
    let (s, p, o) = words_of(words);
    let s = term(alloc, s)?;
    let p = term(alloc, p)?;
    let o = term(alloc, o)?;
    Ok(Triple { s, p, o })
}

/// Appends the naming of a text.
fn push_naming(alloc: Global, named: &mut List<Named>, text: &str) -> Mem<()> {
    let insert = text.strip_prefix("+ ").is_some();
    let words = text
        .strip_prefix("+ ")
        .or(text.strip_prefix("- "))
        .unwrap_or(text);
    let triple = triple(alloc, words)?;
    match named.push(alloc, Named { triple, insert }) {
        Ok(()) => Ok(()),
        Err(_) => Err(NoMemory),
    }
}

/// The namings of a field.
pub(crate) fn namings(alloc: Global, field: &str) -> Mem<List<Named>> {
    let mut named = List::new(alloc);
    for text in field.split(';') {
        if !text.is_empty() {
            push_naming(alloc, &mut named, text)?;
        }
    }
    Ok(named)
}

/// Adds the triple of a text, where it is one of RDF.
fn add_text(alloc: Global, graph: &mut Graph, text: &str) -> Mem<()> {
    let (s, p, o) = words_of(text);
    let s = term(alloc, s)?;
    let p = term(alloc, p)?;
    let o = term(alloc, o)?;
    add_triple(alloc, graph, s, p, o)
}

/// The graph of a field.
pub(crate) fn graph(alloc: Global, field: &str) -> Mem<Graph> {
    let mut graph = Graph::new(alloc);
    for text in field.split(';') {
        add_text(alloc, &mut graph, text)?;
    }
    Ok(graph)
}

/// The patch that an update spells at the graph of a field.
fn spelled_at(alloc: Global, named: &List<Named>, triples: &str) -> Mem<String> {
    let graph = graph(alloc, triples)?;
    match sparql_patch::spelled(alloc, named, &graph) {
        Ok(patch) => print::patch(alloc, &patch),
        Err(NoMemory) => Err(NoMemory),
    }
}

/// The patch that the update of a field spells at a graph.
pub(crate) fn spelled(alloc: Global, field: &str, triples: &str) -> Mem<String> {
    let named = namings(alloc, field)?;
    spelled_at(alloc, &named, triples)
}
