//! The lines of the audit trail: one for each request that was answered, and one for each change.
//!
//! ```text
//! let line = session_line(alloc, place, moment, &agent, &request, 201)?;
//! // 0 784111777 https://alice.example/#me PUT /a/b/c.ttl 201
//! let line = entry_line(alloc, &entry)?;
//! // 0 784111777 https://alice.example/#me PUT /a/b/c.ttl 1 1 4 /.acl|<http://..#owner>|agent ..
//! ```
//!
//! Proved: [`session_line`] and [`entry_line`] are the definitions of these names, and
//! [`append_basis`] appends `basis_text`. A line is written once, into memory that is allocated at
//! once.
//!
//! It depends on `pod_command`, on `rdf_graph` and `turtle_text` for the text of a rule, on
//! `percent_encoding` and on `itoa`.
#![tactic(auto)]

mod basis_text;
mod entry_lines;
mod line_lengths;
mod line_words;
mod session_lines;
mod target_text;

pub use basis_text::append_basis;
pub use entry_lines::entry_line;
pub use session_lines::session_line;
