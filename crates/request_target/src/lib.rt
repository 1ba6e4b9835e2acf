//! What a request is about, and what is refused before anything of the pod is looked at.
//!
//! ```ignore
//! match admit(alloc, &base, &request, &asked)? {
//!     Ok(Target::Resource(path)) => ..,   // the resource at this path
//!     Ok(Target::Server) => ..,           // OPTIONS *
//!     Err(refusal) => ..,                 // 400, 414, 401, 501 or 405
//! }
//! ```
//!
//! Proved: [`target_path`] reads the path of a target in origin form, or in absolute form under the
//! base, with its faults (`path`, `fault`); [`admit`] returns the target, or the first refusal by
//! target, token and method, as `specs/Admission.antt` lists them (`admitted`).
//!
//! It stands on `pod_path` for paths, on `token_table` for agents, on `pod_responses` for refusals
//! and for the methods that a path takes, and on `pod_base`.
#![tactic(auto)]

mod admission;
mod target;

pub use admission::admit;
pub use target::{Target, target_path};
