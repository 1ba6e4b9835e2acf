//! Triples added to a graph, and triples as text.

use crate::lines::shown_whole;
use pod_base::Mem;
use rdf_graph::{Graph, Term, Triple};
use std::alloc::Global;

/// Adds the triple of three terms, where it is one of RDF.
pub fn add_triple(alloc: Global, graph: &mut Graph, s: Term, p: Term, o: Term) -> Mem<()> {
    let triple = Triple { s, p, o };
    if triple.is_rdf() {
        graph.insert(alloc, triple)?;
    }
    Ok(())
}

/// The text of triples as a field.
pub fn triples_text(alloc: Global, triples: &[Triple]) -> Mem<String> {
    let mut text = Vec::new(alloc);
    for triple in triples {
        triple.append_to(alloc, &mut text)?;
    }
    Ok(shown_whole(alloc, text.as_slice())?)
}
