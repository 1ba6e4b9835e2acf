//! A pod as a list of rows: when it is well-formed, what its containers show, which access list
//! governs a path, and what a change makes of it.
//!
//! ```text
//! let state = PlainRows::of(alloc, &snapshot)?;      // refused where it isn't well-formed
//! let found = state.effective(&path);                // whose list, own or inherited, its rules
//! let view = container_view(alloc, &state, &path)?;  // own triples, types, children
//! if fits(alloc, &state, &entry)? {
//!     let next = state.after(alloc, &entry)?;        // the pod after the entry
//! }
//! ```
//!
//! Proved, over one list of rows: a state's pod is well-formed (`PodState::is_well_formed`), and
//! `of` refuses exactly the others (`well_formed`, `refused`); rows, children, access lists in
//! force and members are those of the definitions (the clauses of [`PodState`]); a view is the
//! graph of what a container shows; `fits` is true exactly where an entry applies (`sound`,
//! `complete`), and `after` is what it makes of the pod (`pod`, `next`). [`laws`] says what follows
//! from the definitions.
//!
//! A new pod is [`first_snapshot`]: the root, and its access list, which gives the owner every mode.
//! It has the pod of the definition `first_pod` (`pod`) and no change yet (`number`);
//! [`first_pods_are_well_formed`] is the law that such a pod is well-formed, where its base has the
//! form that a base has. The crate stands on `pod_command`, `acl_rules`, `slug_naming`,
//! `rdf_graph`, `pod_path`, `iri_ref` and `pod_base`.
#![tactic(auto)]

mod acl_list;
mod base_form;
mod container_graph;
mod entry_fitting;
mod first_pod;
pub mod laws;
mod limits;
mod owner_rule;
mod plain_rows;
mod root_guard;
mod row_search;
mod rows_after_edits;
mod state_snapshot;
mod state_trait;
pub mod vocabulary;
mod well_formed;

pub use acl_list::{about, rules_in};
pub use base_form::is_base;
pub use container_graph::container_view;
pub use entry_fitting::fits;
pub use first_pod::{first_pods_are_well_formed, first_snapshot};
pub use limits::{BASE_BYTES_LIMIT, CONTENT_TYPE_BYTES_LIMIT, ROWS_LIMIT};
pub use plain_rows::{PlainRows, StateFault, is_child_of, is_snapshot_well_formed, states_member};
pub use root_guard::guards;
pub use rows_after_edits::{changed_row, with_moment};
pub use state_snapshot::snapshot;
pub use state_trait::{Effective, PodState};
pub use well_formed::{
    has_normal_path, has_right_kind, is_well_formed, lacks_containment, lacks_stored_containment,
};
