//! The table of bearer tokens, and the agent that a request's Authorization field names (RFC 6750,
//! section 2.1).
//!
//! ```ignore
//! let tokens = Tokens::read(alloc, b"t1 https://bob.example/#me\n")?;
//! match tokens.agent_of(&request.fields) {
//!     Asked::Public => ..,         // no Authorization field
//!     Asked::Known(agent) => ..,   // Authorization: Bearer t1
//!     Asked::Refused => ..,        // 401
//! }
//! ```
//!
//! Proved: [`Tokens::read`] gives the entries of the lines, in their order (`table`), where no line
//! is faulty (`sound`), and else the number of the first faulty line (`fault`).
//! [`Tokens::agent_of`] is the definition `asked_of` of the table and the fields; it takes no
//! memory. [`laws`] ties agents to the absolute IRIs of `iri_ref`.
//!
//! It stands on `iri_ref` and `pod_base`.
#![tactic(auto)]

mod authorization_field;
mod fault;
pub mod laws;
mod table;
mod table_line;

pub use authorization_field::Asked;
pub use fault::TokenFault;
pub use table::{TABLE_LIMIT, Tokens};
pub use table_line::{TOKEN_LIMIT, TokenEntry};
