//! What the body of a request means: a graph, bytes, a patch or an update, or why it means nothing
//! (RFC 9110, section 8.3; Solid Protocol 0.11, section 5).
//!
//! ```ignore
//! match read_body(alloc, &base, &path, &request)? {
//!     Ok(RequestBody::Content(content)) => ..,      // put or posted: a graph, or bytes
//!     Ok(RequestBody::Patch(patch)) => ..,
//!     Ok(RequestBody::Update(named)) => ..,
//!     Ok(RequestBody::Nothing) => ..,               // GET, HEAD, OPTIONS, DELETE
//!     Err(fault) => refused(alloc, request.method, &path, fault),
//! }
//! ```
//!
//! Proved: what [`read_body`] returns is what the body means (clause `means`, by `Means` of
//! `specs/Bodies.antt`), which [`laws`] shows to be one thing at most. First the syntax is chosen,
//! by one table ([`body_syntax`]); then the readers of Turtle, JSON-LD, N3 Patch and SPARQL's DATA
//! updates have their own definitions. [`refused`] is the response to each fault.
//!
//! Bodies are shared and never copied. It depends on the four readers, on `request_fields` for
//! types and links, on `pod_responses` for refusals, and on `pod_command` for what a row holds.
#![tactic(auto)]

mod body;
mod body_meaning;
mod fault;
mod fault_responses;
pub mod laws;
mod syntax_choice;

pub use body::RequestBody;
pub use body_meaning::read_body;
pub use fault::BodyFault;
pub use fault_responses::refused;
pub use syntax_choice::{BodySyntax, body_syntax};
