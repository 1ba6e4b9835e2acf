//! Cases of the texts that a row's graph keeps.

use crate::representation_words::media_of;
use pod_base::Mem;
use pod_command::{Content, GraphType, Kind, Row, StoredGraph};
use pod_representations::represent;
use pod_rows::{PodState, container_view};
use rdf_graph::Graph;
use std::alloc::Global;

/// The types in which the text of a graph is kept, with a space between them, or `none`.
fn kept_types(alloc: Global, stored: &StoredGraph, graph: &Graph) -> Mem<String> {
    let mut text = String::new(alloc);
    for media in [GraphType::Turtle, GraphType::JsonLd] {
        if stored.kept_text(alloc, media, graph).is_some() {
            if !text.is_empty() {
                text.push(' ')?;
            }
            text.push_str(media.name())?;
        }
    }
    if text.is_empty() {
        text.push_str("none")?;
    }
    Ok(text)
}

/// The types in which what a row shows is kept, and then those once it was represented in a type.
pub(crate) fn kept_text<S: PodState>(
    alloc: Global,
    state: &S,
    row: &Row,
    media: &str,
) -> Mem<String> {
    let Content::Graph(stored) = &row.content else {
        return Ok(String::from_str(alloc, "no graph")?);
    };
    let graph = match row.kind {
        Kind::Container => container_view(alloc, state, &row.path)?,
        Kind::Graph | Kind::Acl | Kind::Bytes | Kind::Meta => stored.graph().copy(alloc)?,
    };
    let before = kept_types(alloc, stored, &graph)?;
    let _shown = represent(alloc, state, row, media_of(media))?;
    let after = kept_types(alloc, stored, &graph)?;
    let empty = kept_types(alloc, stored, &Graph::new(alloc))?;
    Ok(format!(in alloc; "{before}, then {after}; of the empty graph {empty}")?)
}
