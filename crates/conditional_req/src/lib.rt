//! Entity tags and preconditions (RFC 9110, sections 8.8 and 13).
//!
//! ```ignore
//! let tag = tag_of(&digest_of("text/turtle", body), b't');
//! let conditions = read_conditions(alloc, &request.fields)?;
//! let current = Current { tags: &[tag], modified };
//! match judge(&conditions, request.method, Some(&current)) {
//!     Verdict::Go => ..,
//!     Verdict::NotModified => ..,   // 304
//!     Verdict::Failed => ..,        // 412
//! }
//! ```
//!
//! Proved: [`tag_of`] is `tag_text`, by the digest of all its parts. [`read_conditions`] keeps the
//! request's precondition fields in order (`conditions`), [`judge`] is the table `verdict` over
//! them, and [`Conditions::needs_read`] says whether a field compares with the resource. A verdict
//! takes no memory.
//!
//! It stands on `field_list`, `httpdate`, `sha2`, `hex`, `stored_bytes` (for its definition of a
//! digest) and `pod_base`.
#![tactic(auto)]

mod precondition_fields;
mod precondition_verdict;
mod tag;
mod tag_list;
mod tag_parser;

pub use precondition_fields::{Conditions, read_conditions};
pub use precondition_verdict::{Current, Verdict, judge};
pub use tag::{TAG_DIGEST_LEN, Tag, tag_of};
