//! What a pod replies to a request, and what one connection sees of a pod over its history.
//!
//! ```ignore
//! let replied = answer(alloc, &state, &request, &Asked::Public, state.next(), stamp)?;
//! if let Some(entry) = &replied.entry { state = state.after(alloc, entry)?; }
//! ```
//!
//! Proved of [`answer`], for every state of a pod: the reply is that of the definition (`reply`),
//! its entry applies to the pod (`applies`) and has a stored form (`encodable`), its bytes can be
//! written (`sent`), it is no server error (`status`), a change has an entry exactly where it
//! succeeded (`complete`), and pods that are alike for the agent have the same reply (`alike`).
//! `specs/History.antt`, `specs/Session.antt` and `specs/Output.antt` say what a history is, what a
//! session of one connection is, and which bytes it writes; [`laws`] says what follows from them.
//! `specs/World.antt` says what many connections and one keeper may do, event by event, and
//! `specs/KeeperSteps.antt` which of these are the keeper's.
//!
//! It depends on `pod_reply` for the reply, on `pod_rows` for states, on `http_conn` and `http_out`
//! for messages and dates, on `request_target` for targets, and on `journal_log` for the bytes of a
//! journal.
#![tactic(auto)]

mod answering;
mod connection_closing;
pub mod laws;
mod request_answer;

pub use answering::answer;
pub use connection_closing::{closes_after, refusal_of};
pub use pod_reply::Replied;
pub use reply_laws::is_change;
pub use request_answer::Answer;
pub use request_target::target_path;
