//! The messages of one HTTP/1.1 connection: the requests in the bytes that come, in whatever pieces
//! (RFC 9112).
//!
//! ```text
//! let mut conn = Conn::new(alloc);
//! while let Some(piece) = next_piece() {
//!     for event in conn.feed(alloc, piece)?.as_slice() { .. }
//! }
//! let unfinished = conn.rest();
//! ```
//!
//! [`Conn::feed`] returns the events of a piece: complete requests, the points at which `100
//! Continue` is due, and the refusal of a malformed message. Its clause `messages` ties all events
//! so far to one definition over all bytes that were fed (`Messages` of `specs/`), so no cutting of
//! the bytes changes them. [`one_request`] parses a text that is to be one request and nothing
//! else. [`laws`] states what holds of every text: it has exactly one parse.
//!
//! Heads are parsed by `http_head`, bodies by `http_payload`.
#![tactic(auto)]

mod body_step;
mod conn;
mod events;
mod head_step;
pub mod laws;
mod parse_piece;
mod parser_state;
mod single_request;
mod slices;

pub use conn::Conn;
pub use events::REQUEST_LIMIT;
pub use single_request::one_request;
