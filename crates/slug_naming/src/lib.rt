//! Names for the members of a container, from a `Slug` (RFC 5023, section 9.7).
//!
//! ```ignore
//! let stem = stem(alloc, Some(b"a b.acl"))?;   // a%20b.acl_
//! let path = choose(alloc, &container, Some(b"notes"), false, &rows)?;   // /notes, /notes-2, ..
//! ```
//!
//! Proved: [`stem`] is the definition `stem_of` of the slug (`text`), and part of a path as it is
//! (`plain`). [`choose`] gives the path of the first free candidate (`path`), and fails with a
//! limit exactly where that path passes it (`normal`, `fault`): among at most [`ROW_LIMIT`] rows
//! one of the candidates is free. There is one path at most ([`laws`]). Candidates are not looked
//! up one by one where a [`TakenNames`] lists the rows that take them.
//!
//! It stands on `percent_encoding`, `itoa`, `iri_ref`, `pod_path` and `pod_base`.
#![tactic(auto)]

pub mod laws;
mod name_candidates;
mod stems;
mod taken_names;

pub use name_candidates::{ROW_LIMIT, choose};
pub use stems::{STEM_LIMIT, stem};
pub use taken_names::TakenNames;
