//! The rules of an access list (Web Access Control), as its graph states them.
//!
//! ```text
//! let rules = rules_of(alloc, &graph, &base)?;   // a rule for each acl:Authorization
//! for rule in rules.list.as_slice() {
//!     rule.access_to.as_slice();                 // the paths that acl:accessTo names
//!     rule.subjects.as_slice();                  // the agents, classes and groups
//! }
//! ```
//!
//! Proved: the rules are exactly those of the definition `rules_of`, a rule for each node of type
//! `acl:Authorization` in the order of the graph, with the values of its triples in theirs
//! (`rules_of`); [`laws`] says the same by the triples of the graph. The crate stands on
//! `rdf_graph`, `pod_path`, `iri_ref` and `pod_base`.
#![tactic(auto)]

mod graph_rules;
mod groups;
mod items;
pub mod laws;
mod rule;
mod rule_statements;
pub mod vocabulary;

pub use graph_rules::rules_of;
pub use groups::Groups;
pub use items::Items;
pub use rule::{How, Rule, Rules, Subject};
