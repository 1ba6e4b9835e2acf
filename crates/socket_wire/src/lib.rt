//! The server's side of a WebSocket over a link (RFC 6455), after its opening handshake.
//!
//! ```text
//! let mut wires = Wires::new();                               // two counts
//! let mut wire = SocketWire::new(alloc, &mut link, &mut wires);
//! wire.send_text(&text)?;                                     // one message
//! let polled = wire.poll()?;                                  // reads, and answers what came
//! ```
//!
//! Proved: a call fails only where the wires' count of refusals increased, and a poll finds the wire
//! closed only where their count of ends did ([`pod_io::Wire`]); a wire goes on with one link, whose
//! sent bytes it extends and whose counts of faults it never lowers (`follows`). That the bytes are
//! the frames of the texts is the work of `tungstenite`, and is tested.
//!
//! It depends on `tungstenite` for the protocol and on `pod_io` for links and wires.
#![tactic(auto)]

mod web_socket;
mod wire_buffer;
mod wire_over_link;
mod wires;

pub use wire_over_link::SocketWire;
pub use wires::Wires;
