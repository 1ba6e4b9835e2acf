//! [`RequestBody`]: what the body of a request means.

use graph_patch::Patch;
use pod_base::List;
use pod_command::Content;
use sparql_patch::Named;

/// What the body of a request means at its target.
#[derive(Debug, Drop)]
pub enum RequestBody {
    /// The method takes no body. What was sent is ignored.
    Nothing,
    /// What the resource is to hold: a graph, or bytes with their content type.
    Content(Content),
    /// A patch of the resource's graph.
    Patch(Patch),
    /// The triples that an update of SPARQL data names, in order. Which patch that is depends on
    /// the graph.
    Update(List<Named>),
}
