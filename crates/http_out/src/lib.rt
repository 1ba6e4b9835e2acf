//! The bytes of a response, as HTTP/1.1 writes them (RFC 9112).
//!
//! ```text
//! let mut out = Out::new(response, moment, close);
//! let count = out.next(&mut buffer);          // the next bytes, without memory
//! let text = bytes_of(alloc, &response, moment, close)?;
//! ```
//!
//! [`Out`] gives the bytes in pieces of any size and takes no memory; [`bytes_of`] gives them all.
//! Both are the text of one definition (`response_text` of `specs/`). [`interim`], [`memory_text`]
//! and [`disk_text`] are fixed, for moments at which no memory can be asked for. [`laws`] states
//! that a status without a length has no body.
//!
//! [`date_of`] is the date of a moment as HTTP writes it (RFC 9110, section 5.6.7): the definition
//! `date_text` of `specs/Calendar.antt`, a function of the number of seconds, so two moments of one
//! number have one date.
#![tactic(auto)]

mod cursor;
mod date;
mod fixed_responses;
mod head_parts;
pub mod laws;
mod out;
mod segment;
mod segment_bytes;

pub use date::date_of;
pub use fixed_responses::{disk_text, interim, memory_text};
pub use out::{Out, bytes_of};
