//! [`SocketWire`]: the server's side of a WebSocket over a link.
ghost use Rattle.std.specs.Prelude.{◌≡◌};

use crate::wires::Wires;
use pod_base::Text;
use pod_io::{Link, Polled, Wire, WireFault};
use std::alloc::Global;

/// The server's side of a WebSocket over a link, whose handshake is done (RFC 6455).
///
/// A text is one message. A poll reads from the link once, so it waits for about a second at most,
/// and takes what came: a ping is answered, other messages are dropped, and a close is answered and
/// ends the wire. A frame that is malformed, or longer than the protocol's limits (16 MiB a frame,
/// 64 MiB a message), fails the poll, and so does being out of memory.
#[derive(Drop)]
pub struct SocketWire<'a, L> {
    pub link: &'a mut L,
    pub wires: &'a mut Wires,
    alloc: Global,
}

impl<'a, L: Link> SocketWire<'a, L> {
    /// A wire over this link, which counts in these counts. It takes no memory.
    pub fn new(alloc: Global, link: &'a mut L, wires: &'a mut Wires) -> SocketWire<'a, L>
        ensures same_link { result.link.ghost_name ≡ link.entry.ghost_name }
        ensures link { result.link.now ≡ link.entry.now }
        ensures same_wires { result.wires.ghost_name ≡ wires.entry.ghost_name }
        ensures wires { result.wires.now ≡ wires.entry.now }
    {
        wires.open(alloc);
        SocketWire { link, wires, alloc }
    }
}

/// It shows none of its texts.
impl<'a, L: Link> Wire for SocketWire<'a, L> {
    ghost use Rattle.std.specs.Prelude.{None};
    ghost use Rattle.socket_wire.specs.Followed.{FollowsWire, follows_still, follows_joins};

    ghost sent = { λ _. None };

    ghost polls = { λ _. None };

    ghost faults = { λ w. w.wires.now.refused };

    ghost closed = { λ w. w.wires.now.closed };

    ghost follows = { λ a b. FollowsWire L.rest L.sent L.counts a b };

    ghost still = { λ w. follows_still L.rest L.sent L.counts w };

    ghost joins = { λ a b c. follows_joins L.rest L.sent L.counts a b c };

    fn send_text(&mut self, text: &Text) -> Result<(), WireFault> {
        if self.wires.send(self.alloc, self.link, text.as_str()) {
            Ok(())
        } else {
            self.wires.count_refused();
            Err(WireFault)
        }
    }

    fn poll(&mut self) -> Result<Polled, WireFault> {
        match self.wires.poll(self.link) {
            Some(Polled::Nothing) => Ok(Polled::Nothing),
            Some(Polled::Closed) => {
                self.wires.count_closed();
                Ok(Polled::Closed)
            }
            None => {
                self.wires.count_refused();
                Err(WireFault)
            }
        }
    }
}
