//! [`Wires`]: what the WebSockets of one worker count.
ghost use Rattle.std.specs.Prelude.{◌≡◌, ◌≤◌};
ghost use Rattle.pod_base.specs.Counts.{CountIncreased};
ghost use Rattle.socket_wire.specs.Passing.{PassesLink};

use crate::web_socket::{PIECE_LIMIT, poll_by, send_by};
use crate::wire_buffer::Pipe;
use pod_io::{Link, Polled};
use std::alloc::Global;
use std::marker::Model;
use tungstenite::{NoMask, Role, WebSocket, WebSocketConfig};

/// The counts of the WebSockets of one worker, and the one that is open. Contracts see the counts:
/// numbers of 64 bits, which never fall and stop at the last number.
#[derive(Drop)]
pub struct Wires {
    refused: u64,
    closed: u64,
    socket: Option<WebSocket<Pipe, NoMask>>,
}

impl Model for Wires {
    ghost use Rattle.socket_wire.specs.Counted.{WireCounts};

    ghost Value = { WireCounts };

    ghost view = { λ w. record { refused = w.refused; closed = w.closed } };
}

impl Wires {
    /// The wires of one worker, with counts at 0 and no open WebSocket.
    pub fn new() -> Wires
        ensures refused { result.refused ≡ 0 }
        ensures closed { result.closed ≡ 0 }
    {
        Wires {
            refused: 0,
            closed: 0,
            socket: None,
        }
    }

    /// How many calls of the worker's wires failed.
    pub fn refused(&self) -> u64
        ensures { result ≡ self.now.refused }
    {
        self.refused
    }

    /// How many polls of the worker's wires found the wire closed.
    pub fn closed(&self) -> u64
        ensures { result ≡ self.now.closed }
    {
        self.closed
    }

    /// Opens the WebSocket of the wires, whose handshake is done. It takes no memory.
    pub(crate) fn open(&mut self, alloc: Global)
        ensures { self.new ≡ self.old }
    {
        let config = WebSocketConfig::default().read_buffer_size(PIECE_LIMIT);
        let pipe = Pipe::new(alloc);
        let socket = WebSocket::from_raw_socket(alloc, pipe, NoMask, Role::Server, Some(config));
        self.socket = Some(socket);
    }

    /// Counts a call of the wires that failed.
    pub(crate) fn count_refused(&mut self)
        ensures no_fewer { self.old.refused ≤ self.new.refused }
        ensures refused { CountIncreased self.old.refused self.new.refused }
        ensures closed { self.new.closed ≡ self.old.closed }
    {
        self.refused = self.refused.saturating_add(1);
    }

    /// Counts a poll of the wires that found the wire closed.
    pub(crate) fn count_closed(&mut self)
        ensures no_fewer { self.old.closed ≤ self.new.closed }
        ensures closed { CountIncreased self.old.closed self.new.closed }
        ensures refused { self.new.refused ≡ self.old.refused }
    {
        self.closed = self.closed.saturating_add(1);
    }

    /// Sends a text by the WebSocket that the wires have open, and returns whether all of it was
    /// sent.
    #[tactic(auto, using(crate::specs::PassingLaws::passes_still, crate::specs::PassingLaws::passes_joins))]
    pub(crate) fn send<L: Link>(&mut self, alloc: Global, link: &mut L, text: &str) -> bool
        ensures same { self.new ≡ self.old }
        ensures passes { PassesLink (L.rest link.old) (L.rest link.new) (L.sent link.old)
            (L.sent link.new) (L.counts link.old) (L.counts link.new) }
    {
        match &mut self.socket {
            Some(socket) => send_by(alloc, socket, link, text),
            None => false,
        }
    }

    /// Polls the WebSocket that the wires have open: reads from the link once, and answers what
    /// came. Returns what it found; nothing where that failed.
    #[tactic(auto, using(crate::specs::PassingLaws::passes_still, crate::specs::PassingLaws::passes_joins))]
    pub(crate) fn poll<L: Link>(&mut self, link: &mut L) -> Option<Polled>
        ensures same { self.new ≡ self.old }
        ensures passes { PassesLink (L.rest link.old) (L.rest link.new) (L.sent link.old)
            (L.sent link.new) (L.counts link.old) (L.counts link.new) }
    {
        match &mut self.socket {
            Some(socket) => poll_by(socket, link),
            None => None,
        }
    }
}
