//! What a row of a pod is shown as: the types in which it is offered, its representation in one
//! of them, the verdict on preconditions, and the response to a GET or HEAD.
//!
//! ```text
//! let Some(media) = chosen(alloc, row, &request.fields)? else { .. };   // 406
//! let shown = represent(alloc, &state, row, media)?;
//! match read_verdict(&conditions, request.method, &shown) {
//!     Verdict::Go => show(alloc, base, &path, &shown, granted, request.method, &request.fields)?,
//!     Verdict::NotModified => ..,   // 304
//!     Verdict::Failed => ..,        // 412
//! }
//! ```
//!
//! Proved, for every state of a pod: [`chosen`] is the choice of `specs/Offers.antt`,
//! [`represent`] has the type, the body, the tag and the moment of `specs/Representations.antt`,
//! a container's being those of its view; [`read_verdict`] and [`change_verdict`] are those of
//! `specs/Preconditions.antt`; and [`show`] is the response of `specs/ReadResponses.antt`: 200,
//! 206 of one part or several, or 416. [`laws`] says which part of a pod all of this depends on.
//!
//! It depends on `pod_rows` for a container's view, on `turtle_text` and `jsonld_expanded` for
//! the texts of graphs, on `content_nego`, `conditional_req`, `range_req` and `request_fields` for the
//! fields of a request, and on `pod_responses` for the fields of responses.
#![tactic(auto)]

pub mod laws;
mod representation;
mod row_offers;
mod row_preconditions;
mod selected_parts;
mod whole_or_parts_response;

pub use representation::{Shown, represent};
pub use row_offers::{Media, chosen, offers};
pub use row_preconditions::{change_verdict, read_verdict};
pub use whole_or_parts_response::show;
