//! The bytes of entries and snapshots in a store.
//!
//! ```text
//! let bytes = encode_entry(alloc, &entry)?;                // format 2, `entry_size(&entry)` bytes
//! let again = decode_entry(alloc, bytes.as_slice())?;      // an equal entry
//! let old = decode_entry_1(alloc, stored)?;                // format 1: an entry without bases
//! let snapshot = decode_snapshot(alloc, first_record)?;    // the whole pod
//! ```
//!
//! Encoding gives the form of the value (clause `form`), and decoding the only value that has the
//! form (`form`, `only`); `NotCanonical` comes exactly where there is none (`refused`). What is
//! decoded can be encoded (`encodable`), and what is encoded can be decoded (`storable`). [`laws`]
//! says that no two values have one form. The forms are `specs/StoredForms.antt`; which values have
//! one is `specs/Storable.antt`. The values are those of `pod_command`; the crate stands also on
//! `rdf_graph`, `pod_path`, `iri_ref` and `pod_base`.
#![tactic(auto)]

mod basis_form;
mod edit_form;
mod entry_form;
mod graph_form;
pub mod laws;
mod list_form;
mod primitive_reading;
mod primitive_writing;
mod read_back;
mod row_form;
mod snapshot_form;

pub use entry_form::{decode_entry, decode_entry_1, encode_entry, entry_size};
pub use read_back::ReadBack;
pub use snapshot_form::{decode_snapshot, encode_snapshot};
