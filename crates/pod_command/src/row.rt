//! Rows: the resources of a pod.
ghost use Rattle.std.specs.Prelude.{◌≡◌, IfOk};

use crate::stored_graph::StoredGraph;
use pod_base::{Mem, Moment, Text};
use pod_path::Path;
use std::alloc::Global;
use stored_bytes::StoredBytes;

/// What kind of resource a row is.
#[derive(Clone, Copy, Debug, PartialEq, Eq, Hash)]
pub enum Kind {
    /// A container, with its own triples.
    Container,
    /// A document of RDF.
    Graph,
    /// An access list.
    Acl,
    /// Bytes of some media type.
    Bytes,
    /// The description of another resource.
    Meta,
}

/// What a row holds: triples, or bytes and their media type. Triples keep their text in Turtle with
/// the digest of its tag, and bytes the digest of theirs.
#[derive(Debug, Drop)]
pub enum Content {
    Graph(StoredGraph),
    Bytes { ctype: Text, bytes: StoredBytes },
}

/// A resource: its path, its kind, what it holds, and when it was last changed.
#[derive(Debug, Drop)]
pub struct Row {
    pub path: Path,
    pub kind: Kind,
    pub content: Content,
    pub modified: Moment,
}

impl Content {
    /// A copy of a row's content. Bytes and texts share their memory.
    pub fn copy(&self, alloc: Global) -> Mem<Content>
        ensures { IfOk result (λ copy. copy ≡ self.now) }
    {
        match self {
            Content::Graph(graph) => {
                let graph = graph.copy(alloc)?;
                Ok(Content::Graph(graph))
            }
            Content::Bytes { ctype, bytes } => {
                let ctype = ctype.copy(alloc)?;
                let bytes = bytes.copy(alloc)?;
                Ok(Content::Bytes { ctype, bytes })
            }
        }
    }
}

impl Row {
    /// A copy of the row.
    pub fn copy(&self, alloc: Global) -> Mem<Row>
        ensures { IfOk result (λ copy. copy ≡ self.now) }
    {
        let path = self.path.copy(alloc)?;
        let content = self.content.copy(alloc)?;
        Ok(Row {
            path,
            kind: self.kind,
            content,
            modified: self.modified,
        })
    }
}
