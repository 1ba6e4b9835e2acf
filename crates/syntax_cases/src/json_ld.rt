//! Cases of `jsonld_expanded`. `read` shows the lines of the document's graph, or the fault.
//! `write` shows the text that this graph is written as, after it was read as the same graph.

use case_words::{shown_whole, triples_text};
use iri_ref::Iri;
use jsonld_expanded::{JsonLdFault, read, write};
use pod_base::{Mem, NoMemory};
use rdf_graph::Graph;
use std::alloc::Global;

fn fault_text(alloc: Global, fault: JsonLdFault) -> Mem<String> {
    match fault {
        JsonLdFault::NoMemory => Err(NoMemory),
        fault => Ok(format!(in alloc; "{fault:?}")?),
    }
}

/// The graph of a document as its lines, or the fault.
fn lines_of(alloc: Global, base: &Iri, document: &[u8]) -> Mem<String> {
    match read(alloc, base, document) {
        Ok(graph) => triples_text(alloc, graph.as_slice()),
        Err(fault) => fault_text(alloc, fault),
    }
}

/// The text of a graph, where it is read as the graph.
fn written(alloc: Global, base: &Iri, graph: &Graph) -> Mem<String> {
    let text = write(alloc, graph)?;
    let again = lines_of(alloc, base, text.as_slice())?;
    let whole = triples_text(alloc, graph.as_slice())?;
    if again != whole {
        return Ok(String::from_str(alloc, "read as another graph")?);
    }
    Ok(shown_whole(alloc, text.as_slice())?)
}

/// The text that the graph of a document is written as, or the fault.
fn written_again(alloc: Global, base: &Iri, document: &[u8]) -> Mem<String> {
    match read(alloc, base, document) {
        Ok(graph) => written(alloc, base, &graph),
        Err(fault) => fault_text(alloc, fault),
    }
}

/// What a call returns for a document.
pub(crate) fn answer(alloc: Global, call: &str, base: &Iri, document: &[u8]) -> Mem<String> {
    match call {
        "read" => lines_of(alloc, base, document),
        "write" => written_again(alloc, base, document),
        _ => Ok(String::from_str(alloc, "no case")?),
    }
}
