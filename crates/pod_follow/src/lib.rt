//! A follower: a pod that is kept up to date from a snapshot and entries, which may be lost, come
//! twice, or come in any order, and that answers reads.
//!
//! ```text
//! let mut follower = Follower::start(alloc, snapshot)?;
//! match follower.take(alloc, entry)? {
//!     Took::Applied => ..,                  // the follower has come to the next place
//!     Took::Ahead { seq, next } => ..,      // an entry before it was lost: it has to come again
//!     ..
//! }
//! let response = follower.read(alloc, &request, &asked, moment)?;
//! ```
//!
//! Proved: what each call answers, and when (`Follower::start`, `Follower::take`, by
//! `specs/Followed.antt`); only an entry that is applied changes the follower (`took`, `kept`); a
//! saved snapshot starts an equal one (`Follower::save`); and a read is the reply of the pod at the
//! follower's place (`Follower::read`). [`laws`] says that the follower of a history, whatever was
//! lost and repeated, has the pod of a place of it, and which place. [`frame_head`] and
//! [`split_frame`] are the frames in which snapshots and entries are sent.
//!
//! It depends on `pod_pages` for versions, on `pod_records` for whether an entry applies, and on
//! `pod_core` for replies.
#![tactic(auto)]

mod entry_decoding;
mod follower;
mod frames;
pub mod laws;

pub use follower::{Follower, StartFault, Took};
pub use frames::{frame_head, split_frame, split_number, split_piece};
