//! Which access list governs each path of a pod, kept up to date under changes.
//!
//! ```text
//! let index = AccessIndex::of(alloc, &paths)?;           // `/.acl` is among the paths
//! let found = index.find(&path);                          // whose list, own or inherited
//! let next = index.after(alloc, &added, &removed)?;       // the index of the changed list
//! ```
//!
//! Proved: `of` is the index of its paths (clause `paths`), and `after` that of the paths without
//! the removed and with the added ones (`paths`). `find` finds exactly the paths of an index
//! (`listed`), and what it finds is the list in force among them (`governs`). [`laws`] relates that
//! definition to the one of `pod_rows`, and states which lists a change leaves in force and which
//! it changes. The crate depends on `pod_rows`, `acl_rules`, `pod_path` and `pod_base`.
#![tactic(auto)]

mod acl_subjects;
mod change_reach;
mod index;
pub mod laws;
mod path_table;
mod resolved_list;
mod table_changes;
mod table_lookup;

pub use acl_subjects::list_subjects;
pub use change_reach::is_reached;
pub use index::AccessIndex;
pub use resolved_list::Resolved;
