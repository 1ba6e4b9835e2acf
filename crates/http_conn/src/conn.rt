//! [`Conn`], the parser of a connection's messages.

ghost use Rattle.std.specs.Prelude.{◌≡◌, ◌++◌, List as Items, ℕ, [], IfOk, OnErr};
ghost use Rattle.std.specs.Prelude.{IsErr};
ghost use Rattle.pod_base.specs.declared.heard.Heard.{Heard as Event};
ghost use Rattle.http_conn.specs.Messages.{Messages};
ghost use Rattle.http_conn.specs.ParserStates.{Represents, IsSoundState, rest_of};

use crate::parse_piece::parse_events;
use crate::parser_state::{ParserState, PartialHead, rest_of};
use pod_base::{Heard, List, Mem};
use std::alloc::Global;
use std::marker::Model;
use std::mem;

/// The parser of a connection: it is fed the bytes in any pieces, and returns the events of each.
///
/// It keeps the unfinished message alone. Contracts say of which bytes with which events it is the
/// parser: it represents them (`Represents`).
#[derive(Debug, Drop)]
pub struct Conn {
    state: ParserState,
}

impl Model for Conn {
    ghost use Rattle.http_conn.specs.declared.parser_state.ParserState.{ParserState};

    ghost Value = { ParserState };

    ghost use Rattle.http_conn.specs.ParserStates.{IsSoundState};

    ghost view = { λ c. c.state };

    ghost invariant = { λ c. IsSoundState c.state };
}

impl Conn {
    /// A connection without bytes. It grows by `alloc`.
    pub fn new(alloc: Global) -> Conn
        ensures { Represents result [] [] }
    {
        Conn {
            state: ParserState::Head(PartialHead::new(alloc, 0)),
        }
    }

    /// Parses the next piece of the connection and returns its events. The events of all calls are
    /// those of all bytes that were fed, however they were cut (RFC 9112, section 2.2).
    ///
    /// No event follows a refusal, a request that closes the connection, and the
    /// [`REQUEST_LIMIT`](crate::REQUEST_LIMIT)th request.
    ///
    /// # Errors
    ///
    /// [`NoMemory`](pod_base::NoMemory) where it is out of memory; from then on each call returns
    /// it. A caller that is to go on from the state before takes a [`copy`](Conn::copy) first.
    pub fn feed(&mut self, alloc: Global, piece: &[u8]) -> Mem<List<Heard>>
        ensures represents { IfOk result (λ new. (text : Items ℕ) (events : Items Event)
            → Represents self.old text events
            → Represents self.new (text ++ piece.now) (events ++ new.items)) }
        ensures messages { IfOk result (λ new. (text : Items ℕ) (events : Items Event)
            → Represents self.old text events
            → Messages (text ++ piece.now) (events ++ new.items) (rest_of self.new)) }
        ensures failed { OnErr result (self.new ≡ ParserState.Failed) }
        ensures again { self.old ≡ ParserState.Failed
            → (self.new ≡ ParserState.Failed) × IsErr result }
    {
        let state = mem::replace(&mut self.state, ParserState::Failed);
        let (next, events) = parse_events(alloc, state, piece)?;
        self.state = next;
        Ok(events)
    }

    /// A connection in the same state: what it is fed doesn't change this one. So a caller can go
    /// back to the state before a step that it can't finish.
    pub fn copy(&self, alloc: Global) -> Mem<Conn>
        ensures { IfOk result (λ copy. copy ≡ self.now) }
    {
        let state = self.state.copy(alloc)?;
        Ok(Conn { state })
    }

    /// How many bytes of the unfinished message have come, 0 between messages and after the last.
    pub fn rest(&self) -> usize
        ensures exact { result ≡ rest_of self.now }
        ensures messages { (text : Items ℕ) (events : Items Event) → Represents self.now text events
            → Messages text events result }
    {
        rest_of(&self.state)
    }
}
