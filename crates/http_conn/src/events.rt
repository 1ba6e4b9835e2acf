//! The events of a connection, as a list to which they are pushed.

ghost use Rattle.std.specs.Prelude.{◌≡◌, ◌+◌, ◌++◌, ◌∷◌, ◌||◌, nat_le, [], if◌then◌else◌, IfOk};
ghost use Rattle.std.specs.Prelude.{OnOk};
ghost use Rattle.pod_base.specs.declared.heard.Heard.TheVariants as heard;
ghost use Rattle.http_head.specs.Expectation as expectation;
ghost use Rattle.http_head.specs.Persistence as persistence;
ghost use Rattle.http_conn.specs.ParserStates.{IsSoundState};
ghost use Rattle.http_conn.specs.ParserSteps.{EndsRequest, measure};

use crate::parser_state::{ParserState, PartialHead};
use http_head::{BodyForm, RequestHead, closes, expects_continue};
use pod_base::{Bytes, Heard, List, Mem, NoMemory, Request};
use std::alloc::Global;

/// The most requests of a connection. No event follows the last of them.
pub const REQUEST_LIMIT: u64 = 10_000;

/// Appends an event of the connection.
fn push_event(alloc: Global, events: &mut List<Heard>, event: Heard) -> Mem<()>
    ensures { OnOk result (events.new.items ≡ events.old.items ++ event ∷ []) }
{
    match events.push(alloc, event) {
        Ok(()) => Ok(()),
        Err(_event) => Err(NoMemory),
    }
}

/// Appends the event that refuses a malformed message, after which the connection is closed.
pub(crate) fn refuse(alloc: Global, events: &mut List<Heard>, status: u16) -> Mem<ParserState>
    ensures pushed { OnOk result (events.new.items ≡ events.old.items ++ heard.Bad status ∷ []) }
    ensures closed { IfOk result (λ new. new ≡ ParserState.Closed) }
{
    push_event(alloc, events, Heard::Bad(status))?;
    Ok(ParserState::Closed)
}

/// Appends the event that `100 Continue` is due, where the head waits for it.
pub(crate) fn push_interim(
    alloc: Global,
    events: &mut List<Heard>,
    head: &RequestHead,
    form: BodyForm,
) -> Mem<()>
    ensures { OnOk result (events.new.items ≡ events.old.items
        ++ (if expectation.expects_continue head.now.minor head.now.fields form
        then heard.Interim ∷ [] else [])) }
{
    if expects_continue(head.minor, &head.fields, form) {
        push_event(alloc, events, Heard::Interim)
    } else {
        Ok(())
    }
}

/// Whether the event of a request, which `count` others precede, is the last of its connection.
fn is_last_request(count: u64, head: &RequestHead) -> bool
    ensures { result
        ≡ (persistence.closes head.now.minor head.now.fields || nat_le REQUEST_LIMIT (count + 1)) }
{
    closes(head.minor, &head.fields) || count >= REQUEST_LIMIT - 1
}

/// Appends the event of a complete request.
pub(crate) fn push_request(
    alloc: Global,
    events: &mut List<Heard>,
    count: u64,
    head: RequestHead,
    body: Bytes,
) -> Mem<ParserState>
    ensures sound { IfOk result IsSoundState }
    ensures no_body { IfOk result (λ new. measure new ≡ 0) }
    ensures ends { IfOk result
        (λ new. EndsRequest count head body events.old.items new events.new.items) }
{
    let last = is_last_request(count, &head);
    let request = Request {
        method: head.method,
        target: head.target,
        minor: head.minor,
        fields: head.fields,
        body,
    };
    push_event(alloc, events, Heard::Request(request))?;
    if last {
        Ok(ParserState::Closed)
    } else {
        Ok(ParserState::Head(PartialHead::new(alloc, count + 1)))
    }
}
