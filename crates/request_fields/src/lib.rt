//! What the fields of a request say about its form: the type of its body, whether a container is to
//! be made, whether it asks for a WebSocket, the name of a new member, and the byte ranges.
//!
//! ```ignore
//! match body_type(&request.fields) {
//!     BodyType::Missing => ..,                     // an empty body may do without
//!     BodyType::Malformed => ..,                   // 400
//!     BodyType::Given(MediaType::Turtle) => ..,
//!     BodyType::Given(_) => ..,                    // its text is `content_type(&request.fields)`
//! }
//! if let Some(key) = upgrade_key(&request) { .. }  // 101
//! ```
//!
//! Proved: each call is one definition over the list of fields, whatever they hold: `body_type`,
//! `content_type`, `links_to_container`, `upgrade_key`, `slug`, `range`, `allows_ranges`. No call
//! takes memory, and nothing is copied.
//!
//! It stands on `field_list`, which reads lists and repeated fields, on `httparse` for tokens, on
//! `base64` and on `pod_base`.
#![tactic(auto)]

mod container_link;
mod content_types;
mod link_parameter;
mod link_splitting;
mod media_types;
mod relation_type;
mod slug_and_range;
mod websocket_upgrade;

pub use container_link::links_to_container;
pub use content_types::{BodyType, CONTENT_TYPE_LIMIT, body_type, content_type};
pub use media_types::{MediaType, media_type};
pub use slug_and_range::{allows_ranges, range, slug};
pub use websocket_upgrade::upgrade_key;
