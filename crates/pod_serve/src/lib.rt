//! Serves many connections of one store beside each other.
//!
//! [`serve_conn`] serves one connection: what its link gives is parsed, its requests are answered
//! in order by a session of the store, and the responses are sent. Reads of the pod are answered
//! from the version that is published then, changes under the store's lock. After a switch of
//! protocols it goes on with a feed over a WebSocket (`pod_feed`, `socket_wire`).
//!
//! [`serve`] serves the connections of many gates. Each [`Desk`] has one gate and one session, and
//! serves the gate's connections one after the other in a thread of its own.
//!
//! [`run_podd`] is the call that the program `podd` makes: it opens a store, reads the token table, opens
//! a listener's gates, serves them, and gives the gates and the disks back.
#![tactic(auto)]

mod connection;
mod connection_end;
mod desk;
mod link_output;
mod notices;
mod piece_answers;
mod podd;
mod requests_end;
mod store_answers;
mod upgrade;

pub use connection::serve_conn;
pub use connection_end::{ConnEnd, QUIET_LIMIT};
pub use desk::{CONNECTION_LIMIT, Desk, DeskEnd, Post, serve};
pub use pod_feed::{FeedEnd, serve_feed};
pub use pod_pipe::Status;
pub use podd::run_podd;
pub use requests_end::RequestsEnd;
pub use socket_wire::{SocketWire, Wires};
