//! What a change does to the rows of a pod: the edits of each kind of change, in order, and the
//! tests that refuse one.
//!
//! ```ignore
//! let place = find_place(alloc, &state, &path)?;       // the missing containers, the nearest one
//! if meets_twin(alloc, &state, &path, &place)? || exceeds_rows(&state, place.added_rows()) {
//!     return refused(..);                              // 409, 507
//! }
//! let edits = creation(alloc, row, place)?;            // the edits of a PUT of a new path
//! ```
//!
//! Proved, for every state of a pod: [`find_place`] finds the containers that are missing above a
//! new path and the nearest one that is a row (`IsPlaceOf`); [`creation`], [`replacement`],
//! [`change`], [`deletion`] and [`removal`] are the edits of `specs/Edits.antt`; and each test that
//! refuses a change is its definition in `specs/Refusals.antt`. [`laws`] says that where a pod is
//! well-formed and no test refuses, an entry of the edits with the next number applies, and what is
//! at the path afterwards. It depends on `pod_rows` for the states of a pod, on `acl_rules`,
//! `rdf_graph` and `pod_command` for rows, and on `pod_path`, `iri_ref` and `pod_base`.
#![tactic(auto)]

mod change_refusals;
mod edit_lists;
pub mod laws;
mod new_row_place;
mod row_kind;

pub use change_refusals::{
    breaks_guard, exceeds_rows, has_children, is_bytes, is_root_list, lacks_number, lacks_subject,
    meets_twin, states_containment,
};
pub use edit_lists::{change, creation, deletion, removal, replacement};
pub use new_row_place::{Place, find_place, member_place};
pub use row_kind::kind_of;
