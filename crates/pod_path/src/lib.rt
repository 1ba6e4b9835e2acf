//! Paths of resources in a pod: parsing a request's target, and the paths about a path.
//!
//! ```text
//! let path = Path::read(alloc, b"/notes/%61?query")?;   // /notes/a
//! let acl = path.acl(alloc)?;                           // Some(/notes/a.acl)
//! let parent = path.parent(alloc)?;                     // Some(/notes/)
//! let stored = Path::of_text(alloc, "/notes/a")?;       // Some(/notes/a)
//! ```
//!
//! `Path::read` is the definition `norm` with its faults (clauses `path`, `fault`); `Path::of_text`
//! finds exactly the texts that need no change (`some`, `path`, `none`). The other calls are
//! functions of the text, and `laws` ties URIs and ancestors to them. It stands on `pod_base` and
//! `iri_ref`.
#![tactic(auto)]

mod escapes;
mod fault;
pub mod laws;
mod limits;
mod normalize;
mod path;
mod path_text;
mod segments;
mod uri_fragment;

pub use fault::PathFault;
pub use limits::{PATH_BYTES_LIMIT, PATH_SEGMENTS_LIMIT};
pub use path::{Path, Taken};
pub use path_text::{parent_text, subject_text};
