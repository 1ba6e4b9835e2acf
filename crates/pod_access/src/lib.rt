//! Who may do what in a pod: the decision on the needs of a request, with the bases that an entry
//! records, and the value of `WAC-Allow` (Web Access Control).
//!
//! ```ignore
//! match decide(alloc, &state, &agent, &needs)? {
//!     Some(bases) => ..,   // all needs are granted
//!     None => ..,          // one of them isn't
//! }
//! ```
//!
//! Proved, for every state of a pod: [`decide`] returns a basis for each need exactly where all are
//! granted (`bases_of` of `specs/Bases.antt`); [`allow_field`] lists what the agent and the public
//! are granted; and a need has a basis exactly where the graph of the access list that governs its
//! path grants the mode ([`is_granted`], clause `grants`, by `PodGrants` of
//! `specs/PodGrants.antt`).
//!
//! It depends on `pod_rows` for the states of a pod, and on `acl_rules` for the rules of a list.
//!
//! ```text
//! let needs = needs(alloc, &shape)?;                   // (path, mode), each once
//! let ground = granted(&rules, How::Own, &path, &agent, &groups, Mode::Read);
//! let basis = basis_of(alloc, &rules, &ground, &acl)?; // what an entry records
//! let allow = wac_allow(alloc, user, public)?;         // user="read write",public="read"
//! ```
//!
//! Decisions stand on Web Access Control by one list: a decision is positive exactly where the graph
//! of the list has a node that grants ([`granted`], clause `grants`), and its ground is the first
//! rule, and in it the first subject (`first`). [`needs`] are the table of docs/rules/access.md, row
//! by row.
#![tactic(auto)]

mod granted_needs;
mod granting_rules;
pub mod laws;
mod recorded_basis;
mod request_needs;
mod wac_allow_field;
mod wac_allow_words;

pub use granted_needs::{decide, is_granted};
pub use granting_rules::{Ground, granted, granted_modes};
pub use recorded_basis::basis_of;
pub use request_needs::{Need, Shape, needs};
pub use wac_allow_field::allow_field;
pub use wac_allow_words::wac_allow;
