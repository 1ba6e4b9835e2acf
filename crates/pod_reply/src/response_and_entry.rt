//! [`Replied`]: what a pod replies to a request.

ghost use Rattle.std.specs.Prelude.{◌≡◌, IfOk};
ghost use Rattle.pod_command.specs.Bare.{bare_entry};
ghost use Rattle.pod_reply.specs.Ranks.{Ends};
ghost use Rattle.pod_reply.specs.Replies as spec;

use crate::context::Context;
use crate::entry_size::is_too_large;
use crate::stop::{Rank, Stop};
use pod_base::{Body, List, Mem, Method, Response};
use pod_command::{Basis, Edit, Entry};
use pod_responses::refusal;
use pod_rows::PodState;

/// The reply to a request: a response, and an entry where the request changes the pod.
#[derive(Debug, Drop)]
pub struct Replied {
    pub response: Response,
    pub entry: Option<Entry>,
}

/// A reply of this response and no entry, which changes nothing.
pub(crate) fn unchanged(response: Response) -> Replied
    ensures { spec.reply_of result ≡ spec.unchanged response }
{
    Replied {
        response,
        entry: None,
    }
}

/// The body of a response as it is sent to a HEAD: its length in place of the bytes.
fn length_only(body: Body) -> Body
    ensures { result ≡ spec.length_only body }
{
    match body {
        Body::Whole(bytes) => Body::LengthOnly(bytes.len() as u64),
        Body::Absent => Body::Absent,
        Body::LengthOnly(count) => Body::LengthOnly(count),
    }
}

/// The response of a reply as it is sent to a request of that method.
pub(crate) fn sent_to(method: Method, response: Response) -> Response
    ensures { result ≡ spec.sent_to method response }
{
    match method {
        Method::Head => Response {
            status: response.status,
            fields: response.fields,
            body: length_only(response.body),
        },
        _ => response,
    }
}

/// The entry of the reply to a change.
fn entry_of<S: PodState>(
    context: &Context<'_, S>,
    edits: List<Edit>,
    bases: List<Basis>,
) -> Mem<Entry>
    ensures { IfOk result (λ entry. bare_entry entry ≡ spec.entry_of context.now.origin
        context.now.request.method context.now.path edits.items bases.items) }
{
    let origin = context.origin;
    let agent = origin.agent.copy(context.alloc)?;
    let path = context.path.copy(context.alloc)?;
    Ok(Entry {
        seq: origin.seq,
        conn: origin.stamp.conn,
        number: origin.stamp.number,
        agent,
        moment: origin.stamp.moment,
        method: context.request.method,
        path,
        edits,
        bases,
    })
}

/// The reply to a change: this response and the entry, or 413 `entry-size` where the entry is too
/// large.
pub(crate) fn change_reply<S: PodState>(
    context: &Context<'_, S>,
    response: Response,
    edits: List<Edit>,
    bases: List<Basis>,
) -> Rank<Replied>
    ensures { Ends result (λ reply. reply ≡ spec.change_reply response (spec.entry_of
        context.now.origin context.now.request.method context.now.path edits.items bases.items)) }
{
    let entry = entry_of(context, edits, bases)?;
    if is_too_large(&entry) {
        return Err(Stop::Refused(refusal(context.alloc, 413, b"entry-size")?));
    }
    Ok(Replied {
        response,
        entry: Some(entry),
    })
}
