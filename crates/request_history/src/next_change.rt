//! A change that is next on a connection: its answer at the end of the history.
ghost use Rattle.std.specs.Prelude.{◌≡◌, ◌<◌, ◌+◌, ◌^◌, suc, IfOk, IfSome, Some};
ghost use Rattle.http_out.specs.Text.{response_text};
ghost use Rattle.http_out.specs.Calendar.{date_text};
ghost use Rattle.pod_command.specs.Encodable.{IsEncodable};
ghost use Rattle.pod_core.specs.KeeperSteps.{stamp_at_end};
ghost use Rattle.pod_core.specs.Output as output;
ghost use Rattle.pod_reply.specs.Replies.{reply_of};
ghost use Rattle.request_history.specs.Answers.{asked_by, item_of};
ghost use Rattle.request_history.specs.Connections.{HasNext};
ghost use Rattle.request_history.specs.Reads.{Becomes, ChangesAs, ReplyBecomes};
ghost use Rattle.request_history.specs.Worlds.{asking_of};

use crate::answer_bytes::{Answer, Requester, keep_requester, response_bytes, switches};
use crate::lock_holder::Holder;
use crate::recorded_entry::Recorded;
use crate::world_connection::Connection;
use crate::world_keeper::Keeper;
use pod_base::{Bytes, Heard, Mem, Moment, Request, Stamp};
use pod_core::{Replied, answer, is_change};
use std::alloc::Global;
use token_table::Tokens;

/// What becomes of what is next: a change with an entry holds the lock, and one without is answered.
/// What is no change stays next.
#[derive(Drop)]
pub(crate) enum Change {
    Held(Holder),
    Answered(Answer),
    Stays,
}

/// The stamp of the next change of a connection, at the end of the history.
fn stamp_at_end(keeper: &Keeper, stamp: Stamp) -> Stamp
    ensures { result ≡ stamp_at_end keeper.now.history stamp }
{
    Stamp {
        conn: stamp.conn,
        number: stamp.number,
        moment: Moment(stamp.moment.0.max(keeper.last_moment().0)),
    }
}

/// What becomes of the next change of a connection with this reply at a place, whose response has
/// these bytes.
fn outcome(
    alloc: Global,
    conn: usize,
    request: &Request,
    requester: Requester,
    place: u64,
    stamp: Stamp,
    replied: Replied,
    text: Bytes,
) -> Mem<Change>
    requires text { text ≡ response_text replied.response (date_text stamp.moment.0)
        (output.closes_after request.now stamp.number) }
    requires encodable { IfSome replied.entry IsEncodable }
    ensures { IfOk result (Becomes (suc conn) (item_of request.now stamp.number
        (asked_by requester) stamp.moment.0 place (reply_of replied)) (reply_of replied)) }
{
    let Replied { response, entry } = replied;
    match entry {
        Some(entry) => {
            let request = request.copy(alloc)?;
            let entry = Recorded::of(alloc, &entry)?;
            Ok(Change::Held(Holder {
                conn,
                request,
                number: stamp.number,
                requester,
                moment: stamp.moment,
                place,
                response,
                entry,
                text,
            }))
        }
        None => Ok(Change::Answered(Answer {
            text,
            switched: switches(&response),
        })),
    }
}

/// What becomes of the next change of a connection, which takes the lock.
fn take(
    alloc: Global,
    tokens: &Tokens,
    keeper: &Keeper,
    request: &Request,
    conn: usize,
    stamp: Stamp,
) -> Mem<Change>
    requires { stamp.conn ≡ suc conn }
    ensures { IfOk result (ReplyBecomes (asking_of tokens.now) keeper.now.history request.now
        stamp) }
{
    let asked = tokens.agent_of(&request.fields);
    let place = keeper.end();
    let stamp = stamp_at_end(keeper, stamp);
    let replied = answer(alloc, keeper.version(place), request, &asked, place, stamp)?;
    let text = response_bytes(
        alloc,
        &replied.response,
        request,
        stamp.number,
        stamp.moment,
    )?;
    let requester = keep_requester(alloc, &asked)?;
    let change = outcome(alloc, conn, request, requester, place, stamp, replied, text)?;
    Ok(change)
}

/// What becomes of this event, which is next on a connection, where it is a change.
fn change_of(
    alloc: Global,
    tokens: &Tokens,
    keeper: &Keeper,
    from: &Connection,
    event: &Heard,
    conn: usize,
    moment: Moment,
) -> Mem<Change>
    requires few { conn + 1 < 2 ^ 64 }
    requires next { HasNext from.now (Some event.now) }
    ensures { IfOk result (ChangesAs (asking_of tokens.now) keeper.now.history (suc conn) moment.0
        from.now) }
{
    match event {
        Heard::Request(request) => {
            if !is_change(request.method) {
                return Ok(Change::Stays);
            }
            let stamp = Stamp {
                conn: conn as u64 + 1,
                number: from.number(),
                moment,
            };
            let change = take(alloc, tokens, keeper, request, conn, stamp)?;
            Ok(change)
        }
        Heard::Bad(_) => Ok(Change::Stays),
        Heard::Interim => Ok(Change::Stays),
    }
}

/// What becomes of what is next on a connection, where it is a change.
pub(crate) fn change_next(
    alloc: Global,
    tokens: &Tokens,
    keeper: &Keeper,
    from: &Connection,
    conn: usize,
    moment: Moment,
) -> Mem<Change>
    requires { conn + 1 < 2 ^ 64 }
    ensures { IfOk result (ChangesAs (asking_of tokens.now) keeper.now.history (suc conn) moment.0
        from.now) }
{
    match from.next() {
        Some(event) => {
            let change = change_of(alloc, tokens, keeper, from, event, conn, moment)?;
            Ok(change)
        }
        None => Ok(Change::Stays),
    }
}
