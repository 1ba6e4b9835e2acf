//! Lists in the values of fields: elements that commas separate, parts of an element, and the value
//! of a field that is repeated (RFC 9110, sections 5.3 and 5.6).
//!
//! ```ignore
//! // A comma in quotes separates nothing, and empty elements are skipped.
//! for element in Elements::of(Quoting::Strings, b"a;b=\"x,y\", , c") {
//!     let mut parts = Parts::of(Quoting::Strings, b';', element);   // `a`, `b="x,y"`; then `c`
//! }
//! ```
//!
//! Nothing is copied, and the walks take no memory. Proved: [`Elements`] and [`Parts`] yield
//! exactly the lists that the definitions `elements` and `parts` have of the text, and
//! [`joined_value`] is the joined value. [`laws`] says that the parts, with separators between
//! them, are the text again.
//!
//! It stands on `httparse`, whose optional white space the contracts cite, and on `pod_base`.
#![tactic(auto)]

mod blanks;
mod elements;
pub mod laws;
mod listed_words;
mod pairs;
mod quoted_string;
mod quoting;
mod repeated_field;
mod separated_parts;
mod single_field;

pub use blanks::{trim, trim_end, trim_start};
pub use elements::Elements;
pub use listed_words::{has_word, some_has_word};
pub use pairs::split_pair;
pub use quoted_string::{QuotedBytes, is_quoted_string};
pub use quoting::Quoting;
pub use repeated_field::joined_value;
pub use separated_parts::Parts;
pub use single_field::only_value;
