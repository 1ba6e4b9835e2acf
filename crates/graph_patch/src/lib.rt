//! What a patch means: conditions that have exactly one solution in a graph, and the deletions and
//! insertions that it makes (Solid Protocol, N3 Patch).
//!
//! ```text
//! let found = solutions(alloc, &graph, &patch.conditions)?;   // none, one mapping, or more
//! let change = instantiate(alloc, &graph, &patch)?;           // or why there is none
//! let next = changed(alloc, &graph, &change)?;                // of `rdf_graph`
//! ```
//!
//! A mapping in a contract is a `Binding`, from names to terms, and a solution of conditions one
//! that has their variables alone and makes each of them a triple of the graph (`IsSolution`,
//! `specs/Pattern.antt`). Proved: [`solutions`] finds none, the only one, or that there are two
//! (`AreSolutions`); [`instantiate`] gives the change of `IsChangeOf`, and each [`PatchFault`] comes
//! exactly where `IsFaultOf` says why (`specs/Patch.antt`); [`Patch::is_bound`] decides whether the
//! conditions have all variables. A search takes at most [`STEP_LIMIT`] steps, and what a patch
//! makes has at most [`INSTANCES_LIMIT`] bytes: past either it is out of memory. Conditions that no
//! variable connects are searched apart, and triples are looked up in the graph's order or in an
//! index.
//!
//! The crate stands on `rdf_graph` and `pod_base`. Patches are read by `n3_patch` and
//! `sparql_patch`.
#![tactic(auto)]

mod connected_components;
mod free_variables;
mod patch;
mod pattern;
mod pattern_instances;
mod pattern_order;
mod search_bindings;
mod solution_mappings;
mod solution_search;
mod step_budget;
mod triple_index;
mod triple_lookup;

pub use patch::{Patch, PatchFault, instantiate, the_mapping};
pub use pattern::{Found, Mapping, Pattern, Slot};
pub use pattern_instances::INSTANCES_LIMIT;
pub use solution_mappings::solutions;
pub use step_budget::STEP_LIMIT;
