//! What is next on a connection, and is no change: its answer at a place.
ghost use Rattle.std.specs.Prelude.{◌≡◌, ◌<◌, ◌+◌, ◌^◌, false, suc, IfOk, Some};
ghost use Rattle.pod_core.specs.History.{IsPlace};
ghost use Rattle.pod_core.specs.Output as output;
ghost use Rattle.pod_core.specs.World.{Connection as WorldConnection, IsNextEvent};
ghost use Rattle.pod_base.specs.declared.heard.Heard.TheVariants as heard;
ghost use Rattle.request_history.specs.Connections.{HasNext};
ghost use Rattle.request_history.specs.Reads.{IsAnswerAt, LooksAs};
ghost use Rattle.request_history.specs.Worlds.{asking_of};

use crate::answer_bytes::{Answer, refusal_bytes, response_bytes, switches};
use crate::world_connection::Connection;
use crate::world_keeper::Keeper;
use pod_base::{Heard, Mem, Moment, Request, Stamp};
use pod_core::{answer, is_change};
use std::alloc::Global;
use token_table::Tokens;

/// The answer to the next request of a connection, which is no change, at a place.
fn read(
    alloc: Global,
    tokens: &Tokens,
    keeper: &Keeper,
    request: &Request,
    place: u64,
    stamp: Stamp,
) -> Mem<Answer>
    requires { IsPlace keeper.now.history place }
    ensures { IfOk result (IsAnswerAt (asking_of tokens.now) keeper.now.history request.now place
        stamp) }
{
    let asked = tokens.agent_of(&request.fields);
    let replied = answer(alloc, keeper.version(place), request, &asked, place, stamp)?;
    let text = response_bytes(
        alloc,
        &replied.response,
        request,
        stamp.number,
        stamp.moment,
    )?;
    Ok(Answer {
        text,
        switched: switches(&replied.response),
    })
}

/// The answer to a malformed message that is next on a connection: its refusal.
fn refuse(alloc: Global, status: u16, moment: Moment) -> Mem<Answer>
    requires { (from : WorldConnection) × IsNextEvent from (heard.Bad status) }
    ensures text { IfOk result (λ answer. answer.text
        ≡ output.refusal_text status (Some moment.0)) }
    ensures switched { IfOk result (λ answer. answer.switched ≡ false) }
{
    let text = refusal_bytes(alloc, status, moment)?;
    Ok(Answer {
        text,
        switched: false,
    })
}

/// The answer to this event, which is next on a connection, at a place, where it is no change.
fn read_event(
    alloc: Global,
    tokens: &Tokens,
    keeper: &Keeper,
    from: &Connection,
    event: &Heard,
    conn: usize,
    place: u64,
    moment: Moment,
) -> Mem<Option<Answer>>
    requires place { IsPlace keeper.now.history place }
    requires few { conn + 1 < 2 ^ 64 }
    requires next { HasNext from.now (Some event.now) }
    ensures { IfOk result (LooksAs (asking_of tokens.now) keeper.now.history (suc conn) place
        moment.0 from.now) }
{
    match event {
        Heard::Request(request) => {
            if is_change(request.method) {
                return Ok(None);
            }
            let stamp = Stamp {
                conn: conn as u64 + 1,
                number: from.number(),
                moment,
            };
            let answer = read(alloc, tokens, keeper, request, place, stamp)?;
            Ok(Some(answer))
        }
        Heard::Bad(status) => {
            let answer = refuse(alloc, *status, moment)?;
            Ok(Some(answer))
        }
        Heard::Interim => Ok(None),
    }
}

/// The answer to what is next on a connection, at a place, where it is no change.
pub(crate) fn read_next(
    alloc: Global,
    tokens: &Tokens,
    keeper: &Keeper,
    from: &Connection,
    conn: usize,
    place: u64,
    moment: Moment,
) -> Mem<Option<Answer>>
    requires place { IsPlace keeper.now.history place }
    requires few { conn + 1 < 2 ^ 64 }
    ensures { IfOk result (LooksAs (asking_of tokens.now) keeper.now.history (suc conn) place
        moment.0 from.now) }
{
    match from.next() {
        Some(event) => {
            let answer = read_event(alloc, tokens, keeper, from, event, conn, place, moment)?;
            Ok(answer)
        }
        None => Ok(None),
    }
}
