//! The loop that parses a piece: steps in heads and bodies to the end of its bytes.

ghost use Rattle.std.specs.Prelude.{◌≡◌, ◌<◌, ◌≤◌, ◌++◌, length, take, drop, IfOk, IsErr};
ghost use Rattle.std.specs.Prelude.{List as Items, ℕ};
ghost use Rattle.pod_base.specs.declared.heard.Heard.{Heard as Event};
ghost use Rattle.http_conn.specs.ParserStates.{IsSoundState, Represents};
ghost use Rattle.http_conn.specs.ParserSteps.{StepsTo, MakesProgress};

use crate::body_step::body_step;
use crate::head_step::head_step;
use crate::parser_state::{ParserState, has_failed};
use crate::slices::suffix;
use pod_base::{Heard, List, Mem, NoMemory};
use std::alloc::Global;

/// One step of the loop over a piece, in a head or in a body: returns how many bytes it takes and
/// the state after them.
fn parse_step(
    alloc: Global,
    events: &mut List<Heard>,
    state: ParserState,
    bytes: &[u8],
) -> Mem<(usize, ParserState)>
    requires some { 0 < length bytes.now }
    requires sound { IsSoundState state }
    ensures progress { IfOk result (λ r. MakesProgress state (length bytes.now) r.0 r.1) }
    ensures sound { IfOk result (λ r. IsSoundState r.1) }
    ensures parses { IfOk result
        (λ r. StepsTo state events.old.items (take r.0 bytes.now) r.1 events.new.items) }
{
    match state {
        ParserState::Head(partial) => head_step(alloc, events, partial, bytes),
        ParserState::Body(partial) => body_step(alloc, events, partial, bytes),
        ParserState::Closed => Ok((bytes.len(), ParserState::Closed)),
        ParserState::Failed => Err(NoMemory),
    }
}

/// Parses a piece to its end, step by step: returns the state after it.
pub(crate) fn parse_piece(
    alloc: Global,
    events: &mut List<Heard>,
    mut state: ParserState,
    piece: &[u8],
) -> Mem<ParserState>
    requires { IsSoundState state }
    ensures sound { IfOk result IsSoundState }
    ensures parses { IfOk result
        (λ new. StepsTo state events.old.items piece.now new events.new.items) }
{
    let mut rest = piece;
    while !rest.is_empty() {
        let found = parse_step(alloc, events, state, rest)?;
        rest = suffix(rest, found.0);
        state = found.1;
    }
    Ok(state)
}

/// Parses a piece to its end, and returns the state after it and its events.
pub(crate) fn parse_events(
    alloc: Global,
    state: ParserState,
    piece: &[u8],
) -> Mem<(ParserState, List<Heard>)>
    requires { IsSoundState state }
    ensures sound { IfOk result (λ r. IsSoundState r.0) }
    ensures represents { IfOk result (λ r. (text : Items ℕ) (events : Items Event)
        → Represents state text events
        → Represents r.0 (text ++ piece.now) (events ++ r.1.items)) }
    ensures failed { state ≡ ParserState.Failed → IsErr result }
{
    if has_failed(&state) {
        return Err(NoMemory);
    }
    let mut events = List::new(alloc);
    let next = parse_piece(alloc, &mut events, state, piece)?;
    Ok((next, events))
}
