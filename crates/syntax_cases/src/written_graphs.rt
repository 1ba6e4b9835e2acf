//! Cases of `turtle_text`: the text of a graph and its length. A graph is a field of three words
//! for each triple, with `;` between triples. A word is one of `marked_term`, where `"` begins a
//! literal of the datatype `http://d.example/t`.

use case_words::{marked_graph, shown_whole};
use pod_base::Mem;
use rdf_graph::Graph;
use std::alloc::Global;

/// The text of a graph as a field.
pub(crate) fn graph_text(alloc: Global, graph: &Graph) -> Mem<String> {
    let text = turtle_text::write(alloc, graph)?;
    Ok(shown_whole(alloc, text.as_slice())?)
}

fn text_and_length(alloc: Global, graph: &Graph) -> Mem<String> {
    let shown = graph_text(alloc, graph)?;
    let len = turtle_text::len(graph);
    Ok(format!(in alloc; "{}\t{}", shown.as_str(), len)?)
}

/// The text of a graph and its length.
pub(crate) fn write(alloc: Global, field: &str) -> Mem<String> {
    let graph = marked_graph(alloc, field, "http://d.example/t")?;
    text_and_length(alloc, &graph)
}
