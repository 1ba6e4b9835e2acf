//! The head of a request (RFC 9112, sections 2 to 6): where it ends, its parts, and how its body is
//! framed.
//!
//! ```ignore
//! if let HeadEnd::Whole(len) = head_end(bytes) {
//!     let head = read_head(alloc, &bytes[..len])?;
//!     let form = framing(&head)?;
//! }
//! ```
//!
//! Proved: [`head_end`] is the definition's end of each text, and a [`HeadSearch`] that is shown
//! the text in any pieces finds the same (`exact`). [`read_head`] gives the parts of the grammar
//! (`ok`) or the one fault of the head (`too_many`, `malformed`, `host`). [`framing`], [`closes`]
//! and [`expects_continue`] are total functions of the minor version and the fields. [`laws`] says
//! that a complete head stays complete, and that a text has one head or one fault.
//!
//! It stands on `httparse`, whose grammar of RFC 9112 the contracts cite, and on `pod_base`.
#![tactic(auto)]

mod body_form;
mod body_framing;
mod connection_closing;
mod content_length;
mod expectation;
mod head_ends;
mod head_parser;
mod head_search;
pub mod laws;
mod request_head;

pub use body_form::BodyForm;
pub use body_framing::{FramingFault, framing};
pub use connection_closing::closes;
pub use content_length::BODY_LIMIT;
pub use expectation::expects_continue;
pub use head_ends::{HEAD_LIMIT, HeadEnd, blank_length, head_end};
pub use head_parser::{FIELD_LIMIT, HEAD_LINE_LIMIT, read_head};
pub use head_search::HeadSearch;
pub use request_head::{HeadFault, RequestHead};
