//! What a pod is made of, and what a change of it is.
//!
//! ```text
//! let content = Content::Graph(StoredGraph::new(alloc, graph));
//! let row = Row { path, kind: Kind::Graph, content, modified };
//! let edits = List::from_vec(edits);                        // `Edit::Put(row)`, ..
//! let entry = Entry { seq, conn, number, agent, moment, method, path, edits, bases };
//! let again = entry.copy(alloc)?;                           // shares texts and bytes
//! ```
//!
//! A [`Row`] is a resource, an [`Edit`] a step of a change, an [`Entry`] a change with the request
//! that made it and the [`Basis`] of each of its needs, and a [`Snapshot`] a whole pod. A contract
//! sees them as records of the same fields. Proved: a copy is equal, but for the spare room of its
//! lists (`specs/Bare.antt`). `specs/Encodable.antt` says which entries and snapshots can be stored:
//! `stored_forms` has their bytes. The crate stands on `rdf_graph`, `jsonld_expanded` (for
//! its definition of a text), `pod_path`, `iri_ref`, `stored_bytes` and `pod_base`.
#![tactic(auto)]

mod basis;
mod copies;
mod edit;
mod entry;
mod graph_type;
mod row;
mod snapshot;
mod stored_graph;

pub use basis::{Basis, Who};
pub use edit::Edit;
pub use entry::Entry;
pub use graph_type::GraphType;
pub use row::{Content, Kind, Row};
pub use snapshot::Snapshot;
pub use stored_bytes::StoredBytes;
pub use stored_graph::{GraphText, StoredGraph};
