//! The load generator: a stream of requests that depends on their number alone, and the line that
//! a run of it prints.
//!
//! ```ignore
//! let input = stream(alloc, 400)?;         // PUT /load/c0/d0.ttl .., GET /load/c0/d0.ttl ..
//! let line = summary_line(alloc, 400, input.len(), &output, rows)?;
//! // requests=400 in=.. out=.. rows=303 sha256=..
//! ```
//!
//! Proved: [`stream`] has the bytes of the definition `stream`, [`summary_line`] is the definition
//! of that name, and [`owner`] is `load_owner`.
//!
//! It depends on `itoa`, `hex`, `sha2`, `iri_ref` and `pod_base`.
#![tactic(auto)]

mod requests;
mod summary;

pub use requests::{LOAD_MOMENT, owner, stream};
pub use summary::summary_line;
