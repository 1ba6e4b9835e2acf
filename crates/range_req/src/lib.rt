//! Byte ranges (RFC 9110, section 14): the parts of a body that a Range field names, and the body
//! of a response with several of them.
//!
//! ```ignore
//! match ranges(alloc, b"bytes=0-0, -1", size)? {
//!     RangeSet::Whole => ..,           // 200
//!     RangeSet::Unsatisfiable => ..,   // 416
//!     RangeSet::Parts(parts) => ..,    // 206
//! }
//! ```
//!
//! Proved: [`ranges`] is the definition `range_set` of the field's value and the size, and its
//! parts are inside of the body (`within`). [`multipart`] makes exactly the text `multipart_text`,
//! with the first boundary that isn't in the body, which is a function of the body
//! (`free_boundary`). It shares the bytes of the parts with the body, as [`part_bytes`] does, so
//! no number of parts takes more memory than their fields.
//!
//! It stands on `field_list`, which reads the list, on `memchr`, which searches the body, on `itoa`
//! and on `pod_base`.
#![tactic(auto)]

mod boundary_search;
mod byte_range;
mod multipart_body;
mod position_number;
mod range_set;

pub use byte_range::{ByteRange, Part};
pub use multipart_body::{multipart, part_bytes};
pub use position_number::NUMBER_LIMIT;
pub use range_set::{RANGE_LIMIT, RangeSet, ranges};
