//! The commands of `podctl` but `pipe` and `load`: those that make a store or print of it, and
//! `follow`, which needs none.
//!
//! ```text
//! init(alloc, &mut disks, base, owner, moment)             // a new store, on two empty disks
//! check(alloc, disks, &mut output, &mut errors)            // rows=2 entries=0 next=0
//! audit(alloc, disks, &mut output, &mut errors)            // a line for each entry of the journal
//! ship(alloc, disks, &mut output, &mut errors)             // a frame for each record of the journal
//! report(alloc, disks, &agent, &mut output, &mut errors)   // / read /.acl|<http://..#owner>|agent
//! let end = follow(alloc, &mut input, &mut output, &mut errors);     // follow: next=2
//! ```
//!
//! Proved, for every disk and sink that meets its contract: what is printed is the text of the
//! snapshot and the entries of the journal that is taken, or the lines of what an agent may do in
//! the pod after them (`printed`), or the frames of its records (`ships`), whole with status 0; each
//! end has its cause (`printed`, `told`, `not_empty`, `disk_fault`, `counted`), which the others
//! exclude ([`laws`]); and the disks are returned as an opening leaves them (`disks`).
//! [`report_laws`] says what the lines of a report are: those of the modes that the agent is
//! granted, each with a rule that grants it.
//!
//! [`follow`] reads frames and writes the responses to the reads among them: the bytes read are whole
//! frames and what is left of them; the follower has taken each of these frames (`FollowsAll`); a
//! frame is refused exactly where nothing can be made of it, by its number; each read is the reply of
//! the pod at the follower's place; nothing is read after the end of the input (`counts`); and a
//! fault comes only where a count of an object passed in increased (`counted`).
//! [`follow_laws`] says of which history the pod is where the frames are those of one.
//!
//! It depends on `pod_keeper` for the store, on `audit_trail` and `access_report` for lines, on
//! `pod_follow` for the follower and its frames, on `http_out` for the bytes of a response, on
//! `journal_log` for the line of a damage, and on `pod_io` for writing.
#![tactic(auto)]

mod audit_command;
mod check_command;
mod follow_command;
mod follow_end;
mod follow_end_line;
pub mod follow_laws;
mod follower_reads;
mod frame_input;
mod init_command;
pub mod laws;
mod one_frame;
mod output_end;
mod read_parts;
mod report_command;
pub mod report_laws;
mod report_lines;
mod ship_command;
mod store_end;
mod store_printing;

pub use audit_command::audit;
pub use check_command::check;
pub use follow_command::follow;
pub use follow_end::FollowEnd;
pub use init_command::init;
pub use report_command::report;
pub use ship_command::ship;
pub use store_end::{Ended, StoreEnd};
