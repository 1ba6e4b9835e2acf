//! [`Answer`]: the bytes of an answer.
ghost use Rattle.std.specs.Prelude.{◌≡◌, ◌==◌, true, IfOk};
ghost use Rattle.http_out.specs.Text.{response_text};
ghost use Rattle.http_out.specs.Calendar.{date_text};
ghost use Rattle.pod_core.specs.Output as output;
ghost use Rattle.pod_core.specs.World.{Connection as WorldConnection, IsNextEvent};
ghost use Rattle.pod_base.specs.declared.heard.Heard.TheVariants as heard;
ghost use Rattle.reply_laws.specs.Sent.{IsSent};
ghost use Rattle.token_table.specs.Credentials.{asked_view};
ghost use Rattle.request_history.specs.Answers.{asked_by};

use http_out::bytes_of;
use pod_base::{Bytes, Mem, Moment, Request, Response, Text};
use pod_core::{closes_after, refusal_of};
use std::alloc::Global;
use token_table::Asked;

/// The status of a switch of protocols.
const SWITCHING: u16 = 101;

/// The bytes of an answer, and whether it switches protocols.
#[derive(Drop)]
pub(crate) struct Answer {
    pub(crate) text: Bytes,
    pub(crate) switched: bool,
}

/// Who made a request, as [`Asked`] says it.
#[derive(Drop)]
pub(crate) enum Requester {
    Public,
    Known(Text),
    Refused,
}

/// Keeps who made a request, beside the bytes of its answer.
pub(crate) fn keep_requester(alloc: Global, asked: &Asked<'_>) -> Mem<Requester>
    ensures { IfOk result (λ requester. asked_by requester ≡ asked_view asked.now) }
{
    match asked {
        Asked::Public => Ok(Requester::Public),
        Asked::Known(agent) => {
            let agent = agent.copy(alloc)?;
            Ok(Requester::Known(agent))
        }
        Asked::Refused => Ok(Requester::Refused),
    }
}

/// The bytes of the answer to a request of that number, at that moment, with this response.
pub(crate) fn response_bytes(
    alloc: Global,
    response: &Response,
    request: &Request,
    number: u64,
    moment: Moment,
) -> Mem<Bytes>
    requires { IsSent response.now }
    ensures { IfOk result (λ text. text ≡ response_text response.now (date_text moment.0)
        (output.closes_after request.now number)) }
{
    let close = closes_after(request, number);
    let text = bytes_of(alloc, response, moment, close)?;
    Ok(text)
}

/// Whether an answer with this response switches protocols.
pub(crate) fn switches(response: &Response) -> bool
    ensures { result ≡ (response.now.status == 101) }
{
    response.status == SWITCHING
}

/// The bytes of the answer to a malformed message, at that moment: its refusal.
pub(crate) fn refusal_bytes(alloc: Global, status: u16, moment: Moment) -> Mem<Bytes>
    requires { (connection : WorldConnection) × IsNextEvent connection (heard.Bad status) }
    ensures { IfOk result (λ text. text
        ≡ response_text (output.refusal_of status) (date_text moment.0) true) }
{
    http_conn::laws::refusal_statuses();
    let response = refusal_of(alloc, status)?;
    let text = bytes_of(alloc, &response, moment, true)?;
    Ok(text)
}
