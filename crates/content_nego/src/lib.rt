//! The choice between two representations by an Accept field (RFC 9110, section 12.5.1).
//!
//! ```ignore
//! let accept = b"text/*;q=0.5, application/ld+json";
//! assert_eq!(choose(Some(accept), "text/turtle", "application/ld+json"), Some(1));
//! ```
//!
//! Proved: [`choose`] is the definition `choice`: the offer of the greatest quality, the first of
//! equals, where the quality of an offer is that of its most specific range; none exactly where
//! both have quality 0. It takes no memory and copies nothing.
//!
//! It stands on `field_list`, which reads the list, and on `httparse` for its tokens.
#![tactic(auto)]

mod accept;
mod accept_parameters;
mod media_range;
mod media_type;
mod quality_number;

pub use accept::choose;
