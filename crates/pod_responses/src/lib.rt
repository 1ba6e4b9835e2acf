//! The responses of a pod: status, fields and body of each, as one table (RFC 9110, section 15;
//! Solid Protocol 0.11, sections 4 and 5).
//!
//! ```ignore
//! let response = created(alloc, &base, &target, &location)?;   // 201 with Location and Link
//! ```
//!
//! Proved: each call returns the response that `specs/Responses.antt` has for it, and which methods
//! a path takes is one predicate ([`is_allowed`]), of which the field `Allow` is the list. The
//! fields that depend on the connection (`Date`, `Connection`, `Content-Length`) aren't part of it.
//!
//! It stands on `pod_path` for paths and URIs, on `http_out` for dates, on `conditional_req` for
//! entity tags, and on `pod_base`.
//!
//! [`accept_of`] is the field by which a server accepts the opening of a WebSocket (RFC 6455):
//! base64 of the SHA-1 of the key and the standard's GUID.
#![tactic(auto)]

mod add_field;
mod allow_and_accept;
mod change_responses;
mod link_fields;
mod options_responses;
mod read_responses;
mod refusal_responses;
mod websocket_accept;

pub use allow_and_accept::is_allowed;
pub use change_responses::{changed, created};
pub use options_responses::{options, options_of_server};
pub use read_responses::{Representation, partial, shown, upgraded};
pub use refusal_responses::{
    not_allowed, not_modified, refusal, unauthorized, unsatisfiable, unsupported,
};
pub use websocket_accept::accept_of;
