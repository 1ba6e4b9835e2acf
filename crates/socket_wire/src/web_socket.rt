//! Texts sent by a WebSocket over a link, and polls of it: the messages are `tungstenite`'s, the
//! bytes go through a pipe in memory.
ghost use Rattle.std.specs.Prelude.{◌<◌, ◌≤◌, IfOk, length};
ghost use Rattle.socket_wire.specs.Passing.{PassesLink};

use crate::wire_buffer::Pipe;
use pod_io::{Link, LinkFailed, Polled};
use std::alloc::Global;
use std::io::ErrorKind;
use tungstenite::{Error, Message, NoMask, WebSocket};

/// How many bytes one poll reads of the link at most.
pub(crate) const PIECE_LIMIT: usize = 4_096;

/// Reads from the link of a WebSocket.
fn receive<L: Link>(link: &mut L, into: &mut [u8]) -> Result<usize, LinkFailed>
    requires { 0 < length into.old }
    ensures len { IfOk result (λ count. count ≤ length into.new) }
    ensures passes { PassesLink (L.rest link.old) (L.rest link.new) (L.sent link.old)
        (L.sent link.new) (L.counts link.old) (L.counts link.new) }
{
    match link.read(into) {
        Ok(count) => Ok(count),
        Err(failed) => Err(failed),
    }
}

/// Writes a prefix of a text to the link of a WebSocket, and returns its length.
fn write<L: Link>(link: &mut L, text: &[u8]) -> Result<usize, LinkFailed>
    requires { 0 < length text.now }
    ensures some { IfOk result (λ count. 0 < count) }
    ensures len { IfOk result (λ count. count ≤ length text.now) }
    ensures passes { PassesLink (L.rest link.old) (L.rest link.new) (L.sent link.old)
        (L.sent link.new) (L.counts link.old) (L.counts link.new) }
{
    match link.write(text) {
        Ok(count) => Ok(count),
        Err(failed) => Err(failed),
    }
}

/// Sends all of a text to the link of a WebSocket, and returns whether that was done.
#[tactic(auto, using(crate::specs::PassingLaws::passes_still, crate::specs::PassingLaws::passes_joins))]
fn send_all<L: Link>(link: &mut L, text: &[u8]) -> bool
    ensures { PassesLink (L.rest link.old) (L.rest link.new) (L.sent link.old)
        (L.sent link.new) (L.counts link.old) (L.counts link.new) }
{
    let mut rest = text;
    while !rest.is_empty() {
        match write(link, rest) {
            Ok(count) => rest = &rest[count..],
            Err(_failed) => return false,
        }
    }
    true
}

/// Sends what waits in the pipe of a WebSocket to its link, and returns whether that was done.
fn send_waiting<L: Link>(socket: &mut WebSocket<Pipe, NoMask>, link: &mut L) -> bool
    ensures { PassesLink (L.rest link.old) (L.rest link.new) (L.sent link.old)
        (L.sent link.new) (L.counts link.old) (L.counts link.new) }
{
    let done = send_all(link, socket.get_ref().to_send());
    socket.get_mut().clear();
    done
}

/// Puts the frame of a text into the pipe of a WebSocket, and returns whether that was done.
fn frame_text(alloc: Global, socket: &mut WebSocket<Pipe, NoMask>, text: &str) -> bool {
    match Message::text(alloc, text) {
        Ok(message) => socket.send(message).is_ok(),
        Err(_full) => false,
    }
}

/// Sends a text by a WebSocket, and returns whether all of it was sent.
#[tactic(auto, using(crate::specs::PassingLaws::passes_still, crate::specs::PassingLaws::passes_joins))]
pub(crate) fn send_by<L: Link>(
    alloc: Global,
    socket: &mut WebSocket<Pipe, NoMask>,
    link: &mut L,
    text: &str,
) -> bool
    ensures { PassesLink (L.rest link.old) (L.rest link.new) (L.sent link.old)
        (L.sent link.new) (L.counts link.old) (L.counts link.new) }
{
    if !frame_text(alloc, socket, text) {
        return false;
    }
    send_waiting(socket, link)
}

/// What a WebSocket that takes no more messages has found; nothing where it failed.
fn found_by(error: &Error) -> Option<Polled> {
    match error {
        Error::ConnectionClosed | Error::AlreadyClosed => Some(Polled::Closed),
        Error::Io(cause) if cause.kind() == ErrorKind::WouldBlock => Some(Polled::Nothing),
        _ => None,
    }
}

/// Takes the messages that came to a WebSocket, which are dropped. Their replies wait in the pipe.
fn take_messages(socket: &mut WebSocket<Pipe, NoMask>) -> Option<Polled> {
    for _ in 0..usize::MAX {
        match socket.read() {
            Ok(_message) => {}
            Err(error) => return found_by(&error),
        }
    }
    None
}

/// Takes a piece that came from the link of a WebSocket. Returns what it found; nothing where that
/// failed.
fn take_piece(socket: &mut WebSocket<Pipe, NoMask>, piece: &[u8]) -> Option<Polled> {
    if !socket.get_mut().receive(piece) {
        return None;
    }
    take_messages(socket)
}

/// Answers a piece that came from the link of a WebSocket. Returns what it found; nothing where
/// that failed.
#[tactic(auto, using(crate::specs::PassingLaws::passes_still, crate::specs::PassingLaws::passes_joins))]
fn answer_piece<L: Link>(
    socket: &mut WebSocket<Pipe, NoMask>,
    link: &mut L,
    piece: &[u8],
) -> Option<Polled>
    ensures { PassesLink (L.rest link.old) (L.rest link.new) (L.sent link.old)
        (L.sent link.new) (L.counts link.old) (L.counts link.new) }
{
    let found = take_piece(socket, piece);
    if send_waiting(socket, link) {
        found
    } else {
        None
    }
}

/// Polls a WebSocket: reads from the link once, and answers what came. Returns what it found;
/// nothing where that failed.
#[tactic(auto, using(crate::specs::PassingLaws::passes_still, crate::specs::PassingLaws::passes_joins))]
pub(crate) fn poll_by<L: Link>(socket: &mut WebSocket<Pipe, NoMask>, link: &mut L) -> Option<Polled>
    ensures { PassesLink (L.rest link.old) (L.rest link.new) (L.sent link.old)
        (L.sent link.new) (L.counts link.old) (L.counts link.new) }
{
    let mut piece = [0u8; PIECE_LIMIT];
    match receive(link, &mut piece) {
        Ok(0) => Some(Polled::Closed),
        Ok(count) => answer_piece(socket, link, &piece[..count]),
        Err(LinkFailed::Quiet) => Some(Polled::Nothing),
        Err(LinkFailed::Failed) => None,
    }
}
