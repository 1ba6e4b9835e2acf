//! What follows from the definition of a pod's replies, as laws for the crates above.
//!
//! ```ignore
//! reply_laws::applies();   // the entry of a reply applies to the pod that gives it
//! reply_laws::sent();      // the response of a reply can be written
//! ```
//!
//! Proved of `IsReply` of `pod_reply`, for each pod, request, agent, number and stamp: the entry of
//! a reply of a well-formed pod applies to it ([`applies`]) and has a stored form ([`encodable`]),
//! and its response can be written as HTTP ([`sent`]); the status of a reply is never 500 or 503,
//! and 101 only of an upgrade ([`status`]); a reply has an entry exactly where a change succeeds
//! ([`complete`]); and the entry records the request and one basis for each of its needs
//! ([`bases`]). `proofs/Walk.antt` has the walk through the definition, which finds of each reply
//! that it is a refusal, a success without an entry, an upgrade, or a change with its entry
//! (`proofs/ReplyKinds.antt`).
//!
//! What a pod replies to an agent's request is what each pod alike for the agent replies
//! ([`isolation_law`]). Two pods are alike for an agent (`Alike` of `specs/Alike.antt`) where they
//! differ in the contents and moments of rows alone that the agent may read in neither. So no reply
//! reveals to the agent what such a row holds: not its status, its fields, its body or its entry.
//!
//! These functions do nothing: their contracts are the laws. [`is_change`] returns whether a method
//! may change a pod.
//!
//! It depends on `pod_reply` for the definition, on the laws of `pod_edits`, `request_body` and
//! `pod_path`, and on the definitions of responses.
#![tactic(auto)]

mod changing_methods;
mod isolated_replies;
mod laws;

pub use changing_methods::is_change;
pub use isolated_replies::isolation_law;
pub use laws::{applies, bases, complete, encodable, sent, status};
