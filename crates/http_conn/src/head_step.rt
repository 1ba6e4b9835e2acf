//! A step of the parser between messages and in the head of a request.

ghost use Rattle.std.specs.Prelude.{◌≡◌, ◌<◌, ◌≤◌, ◌++◌, length, take, IfOk};
ghost use Rattle.http_head.specs.HeadEnds.{head_end};
ghost use Rattle.http_head.specs.declared.head_ends.HeadEnd.TheVariants as end;
ghost use Rattle.http_conn.specs.declared.parser_state.ParserState.TheVariants as state;
ghost use Rattle.http_conn.specs.ParserStates.{IsSoundState};
ghost use Rattle.http_conn.specs.ParserSteps.{StepsTo, StepsAfter, StepsAfterHead, StartsBody};

use crate::events::{push_interim, push_request, refuse};
use crate::parser_state::{ParserState, PartialBody, PartialHead};
use crate::slices::{prefix, prefix_up_to};
use http_head::{
    BodyForm, FramingFault, HEAD_LIMIT, HeadEnd, HeadFault, HeadSearch, RequestHead, blank_length,
    framing, read_head,
};
use http_payload::Payload;
use pod_base::{BytesBuilder, Heard, List, Mem, NoMemory};
use std::alloc::Global;

/// The connection's state after a step to the end of a head whose body has that form. The head has
/// `len` bytes.
fn start_body(
    alloc: Global,
    events: &mut List<Heard>,
    count: u64,
    len: usize,
    head: RequestHead,
    form: BodyForm,
) -> Mem<ParserState>
    ensures sound { IfOk result IsSoundState }
    ensures parses { IfOk result
        (λ new. StartsBody count len head form events.old.items new events.new.items) }
{
    push_interim(alloc, events, &head, form)?;
    let payload = Payload::new(alloc, form);
    if payload.is_done() {
        let body = payload.body();
        return push_request(alloc, events, count, head, body);
    }
    Ok(ParserState::Body(PartialBody {
        head,
        payload,
        len,
        count,
    }))
}

/// The connection's state after a step to the end of a head of `len` bytes, by the form of its
/// body.
fn frame_body(
    alloc: Global,
    events: &mut List<Heard>,
    count: u64,
    len: usize,
    head: RequestHead,
) -> Mem<ParserState>
    ensures sound { IfOk result IsSoundState }
    ensures parses { IfOk result
        (λ new. StepsAfterHead count len head events.old.items new events.new.items) }
{
    match framing(&head) {
        Ok(form) => start_body(alloc, events, count, len, head, form),
        Err(FramingFault::Conflict) => refuse(alloc, events, 400),
        Err(FramingFault::Coding) => refuse(alloc, events, 501),
        Err(FramingFault::TooLarge) => refuse(alloc, events, 413),
    }
}

/// The connection's state after a step to the end of a head, by the bytes of the head.
fn parse_head(alloc: Global, events: &mut List<Heard>, count: u64, bytes: &[u8]) -> Mem<ParserState>
    requires { head_end bytes.now ≡ end.Whole (length bytes.now) }
    ensures sound { IfOk result IsSoundState }
    ensures parses { IfOk result
        (λ new. StepsAfter count bytes.now events.old.items new events.new.items) }
{
    match read_head(alloc, bytes) {
        Ok(head) => {
            let len = bytes.len() - blank_length(bytes);
            frame_body(alloc, events, count, len, head)
        }
        Err(HeadFault::TooMany) => refuse(alloc, events, 431),
        Err(HeadFault::Malformed) => refuse(alloc, events, 400),
        Err(HeadFault::Host) => refuse(alloc, events, 400),
        Err(HeadFault::NoMemory) => Err(NoMemory),
    }
}

/// The step of the parser from the beginning of a head on: returns how many bytes it takes and the
/// state after them.
fn start_head(
    alloc: Global,
    events: &mut List<Heard>,
    count: u64,
    bytes: &[u8],
) -> Mem<(usize, ParserState)>
    requires { 0 < length bytes.now }
    ensures taken { IfOk result (λ r. (0 < r.0) × (r.0 ≤ length bytes.now)) }
    ensures sound { IfOk result (λ r. IsSoundState r.1) }
    ensures parses { IfOk result
        (λ r. StepsAfter count (take r.0 bytes.now) events.old.items r.1 events.new.items) }
{
    let mut search = HeadSearch::new();
    match search.scan(bytes) {
        HeadEnd::Whole(len) => {
            let next = parse_head(alloc, events, count, prefix(bytes, len))?;
            Ok((len, next))
        }
        HeadEnd::TooLong => {
            let next = refuse(alloc, events, 431)?;
            Ok((bytes.len(), next))
        }
        HeadEnd::NotYet => {
            let mut head = BytesBuilder::new(alloc);
            head.append(alloc, bytes)?;
            let partial = PartialHead {
                bytes: head,
                search,
                count,
            };
            Ok((bytes.len(), ParserState::Head(partial)))
        }
    }
}

/// The step of the parser in a head that has begun: returns how many bytes it takes and the state
/// after them.
fn continue_head(
    alloc: Global,
    events: &mut List<Heard>,
    partial: PartialHead,
    bytes: &[u8],
) -> Mem<(usize, ParserState)>
    requires some { 0 < length bytes.now }
    requires sound { IsSoundState (state.Head partial) }
    ensures taken { IfOk result (λ r. (0 < r.0) × (r.0 ≤ length bytes.now)) }
    ensures sound { IfOk result (λ r. IsSoundState r.1) }
    ensures parses { IfOk result (λ r. StepsAfter partial.count (partial.bytes
        ++ take r.0 bytes.now)
        events.old.items r.1 events.new.items) }
{
    let PartialHead {
        bytes: mut head,
        mut search,
        count,
    } = partial;
    let kept = head.len();
    let window = prefix_up_to(bytes, HEAD_LIMIT.saturating_sub(kept));
    head.append(alloc, window)?;
    match search.scan(head.as_slice()) {
        HeadEnd::Whole(len) => {
            let next = parse_head(alloc, events, count, prefix(head.as_slice(), len))?;
            Ok((len - kept, next))
        }
        HeadEnd::TooLong => {
            let next = refuse(alloc, events, 431)?;
            Ok((window.len(), next))
        }
        HeadEnd::NotYet => {
            let partial = PartialHead {
                bytes: head,
                search,
                count,
            };
            Ok((window.len(), ParserState::Head(partial)))
        }
    }
}

/// The step of the parser in a head: returns how many bytes it takes and the state after them.
pub(crate) fn head_step(
    alloc: Global,
    events: &mut List<Heard>,
    partial: PartialHead,
    bytes: &[u8],
) -> Mem<(usize, ParserState)>
    requires some { 0 < length bytes.now }
    requires sound { IsSoundState (state.Head partial) }
    ensures taken { IfOk result (λ r. (0 < r.0) × (r.0 ≤ length bytes.now)) }
    ensures sound { IfOk result (λ r. IsSoundState r.1) }
    ensures parses { IfOk result
        (λ r. StepsTo (state.Head partial) events.old.items (take r.0 bytes.now)
        r.1 events.new.items) }
{
    if partial.bytes.is_empty() {
        start_head(alloc, events, partial.count, bytes)
    } else {
        continue_head(alloc, events, partial, bytes)
    }
}
