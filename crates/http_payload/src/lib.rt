//! The body of a request, fed in pieces (RFC 9112, sections 6 and 7.1): bytes of a known length, or
//! chunks.
//!
//! ```ignore
//! let mut payload = Payload::new(alloc, form);
//! while !payload.is_done() {
//!     let fed = payload.feed(alloc, next_piece())?;
//! }
//! let body = payload.body();
//! ```
//!
//! [`Payload`] keeps the body, and of the line before a chunk what has come of it; all else is
//! dropped once it is parsed. Proved of [`Payload::feed`], of the whole text that was fed and
//! however it was cut: which texts are complete bodies (`whole`, `exact_whole`), which are
//! malformed or too large (`fault`, `exact_fault`), and which are a prefix of a body (`partial`,
//! `exact_partial`). [`laws`] says that a text is one of these, and stays complete or faulty
//! whatever follows.
//!
//! It stands on `httparse` for the line before a chunk, on `http_head` for the form of a body, and
//! on `pod_base`.
#![tactic(auto)]

mod body_bytes;
mod body_stage;
mod chunk_line;
mod feed_loop;
pub mod laws;
mod payload;
mod payload_fault;

pub use body_stage::TRAILERS_LIMIT;
pub use chunk_line::CHUNK_LINE_LIMIT;
pub use payload::{Fed, Payload};
pub use payload_fault::PayloadFault;
