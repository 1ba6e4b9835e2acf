//! [`Input`]: what a connection has read.
ghost use Rattle.std.specs.Prelude.{◌≡◌, ◌++◌, [], IfOk};
ghost use mathlib.Core.List.{IsPrefix};
ghost use Rattle.request_history.specs.Connections.{IsParsed, no_input};

use http_conn::Conn;
use pod_base::{Bytes, Heard, Mem};
use std::alloc::Global;
use std::marker::Model;

/// What a connection has read: the bytes, and all events of them.
#[derive(Drop)]
pub(crate) struct Input {
    parser: Conn,
    bytes: Bytes,
    events: Vec<Heard>,
}

impl Model for Input {
    ghost use Rattle.http_conn.specs.ParserStates.{Represents};
    ghost use Rattle.request_history.specs.Connections.{InputState};

    ghost Value = { InputState };

    ghost view = { λ i. record { bytes = i.bytes; events = i.events.items } };

    ghost invariant = { λ i. Represents i.parser i.bytes i.events.items };
}

/// A copy of an event of a connection's input.
fn copy_event(alloc: Global, event: &Heard) -> Mem<Heard>
    ensures { IfOk result (λ copy. copy ≡ event.now) }
{
    match event {
        Heard::Request(request) => {
            let request = request.copy(alloc)?;
            Ok(Heard::Request(request))
        }
        Heard::Interim => Ok(Heard::Interim),
        Heard::Bad(status) => Ok(Heard::Bad(*status)),
    }
}

/// Copies of events of a connection's input.
fn copy_events(alloc: Global, events: &[Heard]) -> Mem<Vec<Heard>>
    ensures { IfOk result (λ copies. copies.items ≡ events.now) }
{
    let mut copies = Vec::with_capacity(alloc, events.len())?;
    for event in events {
        let copy = copy_event(alloc, event)?;
        copies.push(copy)?;
    }
    Ok(copies)
}

/// Copies of the events of a connection's input, and other events after them.
fn joined(alloc: Global, events: &[Heard], more: Vec<Heard>) -> Mem<Vec<Heard>>
    ensures { IfOk result (λ all. all.items ≡ events.now ++ more.items) }
{
    let mut more = more;
    let mut all = copy_events(alloc, events)?;
    all.append(&mut more)?;
    Ok(all)
}

/// The bytes of a connection's input, and a piece after them.
fn longer(alloc: Global, bytes: &Bytes, piece: &[u8]) -> Mem<Bytes>
    ensures { IfOk result (λ longer. longer ≡ bytes.now ++ piece.now) }
{
    let mut longer = bytes.copy(alloc)?;
    longer.append(alloc, piece)?;
    Ok(longer)
}

impl Input {
    /// The input of a connection of which nothing was read.
    pub(crate) fn new(alloc: Global) -> Input
        ensures is { result ≡ no_input }
        ensures parsed { IsParsed result }
    {
        let parser = Conn::new(alloc);
        let bytes = Bytes::new();
        let events = Vec::new(alloc);
        Input {
            parser,
            bytes,
            events,
        }
    }

    /// The events of the input.
    pub(crate) fn events(&self) -> &[Heard]
        ensures { result.now ≡ self.now.events }
    {
        self.events.as_slice()
    }

    /// An equal input.
    pub(crate) fn copy(&self, alloc: Global) -> Mem<Input>
        ensures { IfOk result (λ input. input ≡ self.now) }
    {
        let parser = self.parser.copy(alloc)?;
        let bytes = self.bytes.copy(alloc)?;
        let events = copy_events(alloc, self.events.as_slice())?;
        Ok(Input {
            parser,
            bytes,
            events,
        })
    }

    /// The input with a piece more.
    pub(crate) fn more(&self, alloc: Global, piece: &[u8]) -> Mem<Input>
        ensures bytes { IfOk result (λ input. input.bytes ≡ self.now.bytes ++ piece.now) }
        ensures events { IfOk result (λ input. IsPrefix self.now.events input.events) }
        ensures parsed { IfOk result IsParsed }
    {
        let mut parser = self.parser.copy(alloc)?;
        let new = parser.feed(alloc, piece)?;
        let bytes = longer(alloc, &self.bytes, piece)?;
        let events = joined(alloc, self.events.as_slice(), new.into_vec())?;
        Ok(Input {
            parser,
            bytes,
            events,
        })
    }
}
