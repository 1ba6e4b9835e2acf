//! Cases of texts under a base: documents of Turtle and of JSON-LD, patches in N3, and updates. A
//! document is shown as the text of its graph, and each text without a meaning as its fault.

use crate::references::iri;
use crate::written_graphs::graph_text;
use crate::{json_ld, patches};
use case_words::bytes;
use iri_ref::Iri;
use pod_base::{Mem, NoMemory};
use rdf_graph::Graph;
use std::alloc::Global;
use turtle_text::TurtleFault;

/// A fault of Turtle.
pub(crate) fn fault_text(alloc: Global, fault: TurtleFault) -> Mem<String> {
    match fault {
        TurtleFault::Bad { at, kind } => Ok(format!(in alloc; "{kind:?} {at}")?),
        TurtleFault::TooLarge { at } => Ok(format!(in alloc; "TooLarge {at}")?),
        TurtleFault::NoMemory => Err(NoMemory),
    }
}

/// How many triples a graph has, and its encoded size.
fn size_text(alloc: Global, graph: &Graph) -> Mem<String> {
    let count = graph.len();
    let size = graph.encoded_size();
    Ok(format!(in alloc; "{count} triples of {size} bytes")?)
}

fn graph_of_call(alloc: Global, call: &str, graph: &Graph) -> Mem<String> {
    match call {
        "read" => graph_text(alloc, graph),
        "size" => size_text(alloc, graph),
        _ => Ok(String::from_str(alloc, "no case")?),
    }
}

/// What a call returns for a document of Turtle.
fn turtle(alloc: Global, call: &str, base: &Iri, document: &[u8]) -> Mem<String> {
    match turtle_text::read(alloc, base, document) {
        Ok(graph) => graph_of_call(alloc, call, &graph),
        Err(fault) => fault_text(alloc, fault),
    }
}

fn text_of_kind(alloc: Global, kind: &str, call: &str, base: &Iri, text: &[u8]) -> Mem<String> {
    match kind {
        "turtle" => turtle(alloc, call, base, text),
        "json-ld" => json_ld::answer(alloc, call, base, text),
        "patch" => patches::read(alloc, base, text),
        _ => patches::read_update(alloc, base, text),
    }
}

/// What a call returns for a text of a kind, under a base.
pub(crate) fn call(alloc: Global, kind: &str, case: &[&str]) -> Mem<String> {
    match case {
        [call, base, text] => {
            let text = bytes(alloc, text)?;
            match iri(alloc, base)? {
                Some(base) => text_of_kind(alloc, kind, call, &base, text.as_slice()),
                None => Ok(String::from_str(alloc, "no base")?),
            }
        }
        _ => Ok(String::from_str(alloc, "no case")?),
    }
}
