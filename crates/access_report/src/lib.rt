//! Who may do what in a pod, and by which rule: a report for an agent, and a check of a line of one.
//!
//! ```text
//! let lines = report(alloc, &state, &agent)?;        // path, mode, basis; in order of the paths
//! for line in lines.as_slice() {
//!     checks(alloc, &state, &agent, line)?;          // true: the rule is there, and grants it
//! }
//! ```
//!
//! Proved, for every state of a pod: the lines are those of the modes that the agent is granted on
//! the rows that are no access lists, each with the basis that an entry would record (`report`,
//! clauses `lines` and `granted`); each of them checks (`checked`); and a line checks exactly where
//! the rule that it names is in the access list that governs the path, and grants the mode to the
//! agent by a subject of the kind that it names (`checks`, clause `exact`).
//!
//! It depends on `pod_rows` for the states of a pod, and on `pod_access` for what a pod grants and
//! for one access list.
#![tactic(auto)]

mod decision;
mod line;
mod line_check;
mod reporting;

pub use line::Line;
pub use line_check::checks;
pub use reporting::report;
