//! One connection: its events answered in turn, and the responses written.
//!
//! ```ignore
//! let mut connection = Connection { conn: 1, number: 0 };
//! let events = conn.feed(alloc, &piece[..count])?;      // of `http_conn`
//! connection.answer_events(alloc, &mut answers, events.as_slice(), &agents, false, &mut output,
//!     &mut NoTrail, &clock)?;
//! ```
//!
//! What answers the requests is an [`Answers`], of which each answer makes one item of a session
//! more; where the responses go is an [`Output`], which may hold them back until it is flushed.
//!
//! Proved of [`Connection::answer_events`], whatever answers: the items of the connection are a
//! chain of what it says of each, one for each request in order, with numbers that run on (`turns`,
//! by `specs/Talks.antt`); what was written is the output of the items, or a prefix of it where a
//! write failed or memory ran out, and the trail has their lines; the pieces of an input join, so
//! that a loop of reads stands on it; and a write fault comes only where a count increased
//! (`faults`). `specs/Walks.antt` says what such a chain is over a pod that others change too.
//!
//! It depends on `pod_core` for sessions and their output, on `http_conn` for events, on `http_out`
//! for bytes, on `token_table` for agents, and on `audit_trail` and `pod_io` for lines.
#![tactic(auto)]

mod agents;
mod answers;
mod connection_events;
mod one_request;
mod output;
mod response_writing;
mod setting;
mod talk_end;
mod trail_line;

pub use agents::Agents;
pub use answers::{AnswerFault, Answers};
pub use connection_events::Connection;
pub use one_request::clock_moment;
pub use output::Output;
pub use talk_end::TalkEnd;
pub use trail_line::NoTrail;
