//! What a patch does to the graph of a row, or why it is refused (Solid Protocol 0.11, section
//! 5.3.1).
//!
//! ```ignore
//! match outcome(alloc, path.is_container(), &graph, &patch)? {
//!     Ok(change) => ..,        // what is removed and added
//!     Err(refusal) => ..,      // 409, with `refusal.word()`
//! }
//! ```
//!
//! Proved: [`outcome`] returns the change of the patch at the graph, or the first of its refusals
//! (`IsOutcome` of `specs/Outcomes.antt`); [`update_outcome`] does the same for an update of SPARQL
//! data, by the patch that it spells at the graph (`IsUpdateOutcome` of `specs/Updates.antt`).
//! There is at most one outcome ([`laws`]).
//!
//! It depends on `rdf_graph` for patches, on `sparql_patch` for updates, and on `pod_rows` for the
//! vocabulary of containers.
#![tactic(auto)]

pub mod laws;
mod patch_outcomes;
mod patch_refusals;
mod update_outcomes;

pub use patch_outcomes::outcome;
pub use patch_refusals::PatchRefusal;
pub use update_outcomes::update_outcome;
