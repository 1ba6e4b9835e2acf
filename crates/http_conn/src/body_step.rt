//! A step of the parser in the body of a request.

ghost use Rattle.std.specs.Prelude.{◌≡◌, ◌<◌, length, take, IfOk};
ghost use Rattle.http_conn.specs.declared.parser_state.ParserState.TheVariants as state;
ghost use Rattle.http_conn.specs.ParserStates.{IsSoundState};
ghost use Rattle.http_conn.specs.ParserSteps.{StepsTo, MakesProgress};

use crate::events::{push_request, refuse};
use crate::parser_state::{ParserState, PartialBody};
use http_payload::PayloadFault;
use pod_base::{Heard, List, Mem, NoMemory};
use std::alloc::Global;

/// The step of the parser that takes some bytes of a body: returns how many and the state after
/// them.
pub(crate) fn body_step(
    alloc: Global,
    events: &mut List<Heard>,
    partial: PartialBody,
    bytes: &[u8],
) -> Mem<(usize, ParserState)>
    requires { 0 < length bytes.now }
    ensures progress { IfOk result
        (λ r. MakesProgress (state.Body partial) (length bytes.now) r.0 r.1) }
    ensures sound { IfOk result (λ r. IsSoundState r.1) }
    ensures parses { IfOk result
        (λ r. StepsTo (state.Body partial) events.old.items (take r.0 bytes.now) r.1
        events.new.items) }
{
    let PartialBody {
        head,
        mut payload,
        len,
        count,
    } = partial;
    match payload.feed(alloc, bytes) {
        Ok(fed) => {
            if fed.done {
                let body = payload.body();
                let next = push_request(alloc, events, count, head, body)?;
                return Ok((fed.taken, next));
            }
            // No text is so long that this fails.
            let Some(len) = len.checked_add(fed.taken) else {
                return Err(NoMemory);
            };
            let partial = PartialBody {
                head,
                payload,
                len,
                count,
            };
            Ok((fed.taken, ParserState::Body(partial)))
        }
        Err(PayloadFault::Malformed) => {
            let next = refuse(alloc, events, 400)?;
            Ok((bytes.len(), next))
        }
        Err(PayloadFault::TooLarge) => {
            let next = refuse(alloc, events, 413)?;
            Ok((bytes.len(), next))
        }
        Err(PayloadFault::NoMemory) => Err(NoMemory),
    }
}
