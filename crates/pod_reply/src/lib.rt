//! What a pod replies to a request: a response, and an entry where the request changes the pod.
//!
//! ```ignore
//! let Replied { response, entry } = reply(alloc, &state, &request, &asked, seq, stamp)?;
//! if let Some(entry) = entry { .. }    // it applies to the state
//! ```
//!
//! Proved, for every state of a pod: [`reply`] returns the reply of `specs/Reply.antt` (`IsReply`),
//! of which there is at most one ([`laws`]): the first refusal that holds, in the order target,
//! token, method, body, access, place in the tree, representation, preconditions, content, size;
//! else the success of the method.
//!
//! It depends on the crates that implement one rank each, on `pod_rows` for the states of a pod,
//! and on `pod_responses` for responses.
#![tactic(auto)]

mod access_rank;
mod context;
mod delete_reply;
mod dispatch;
mod entry_size;
pub mod laws;
mod member_names;
mod origin;
mod patch_reply;
mod post_reply;
mod put_reply;
mod read_reply;
mod request_shape;
mod response_and_entry;
mod shared_refusals;
mod stop;

pub use dispatch::reply;
pub use entry_size::ENTRY_BYTES_LIMIT;
pub use origin::Origin;
pub use response_and_entry::Replied;
