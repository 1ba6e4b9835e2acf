//! [`answer`]: the one reply of a pod to a request.
ghost use Rattle.std.specs.Prelude.{IfOk, IfSome};
ghost use Rattle.pod_command.specs.Encodable.{IsEncodable};
ghost use Rattle.pod_core.specs.Answers.{IsComplete, IsReplyOfAlike};
ghost use Rattle.pod_reply.specs.Replies.{reply_of};
ghost use Rattle.pod_reply.specs.Reply.{IsReply};
ghost use Rattle.pod_rows.specs.Apply.{Applies};
ghost use Rattle.reply_laws.specs.Laws.{IsNoFailure};
ghost use Rattle.reply_laws.specs.Sent.{IsSent};
ghost use Rattle.token_table.specs.Credentials.{asked_view};

use pod_base::{Mem, Request, Stamp};
use pod_reply::{Replied, reply};
use pod_rows::PodState;
use std::alloc::Global;
use token_table::Asked;

/// The one reply of a pod to a request, whose next change has that number. Its entry, where it has
/// one, gets that number and that stamp.
pub fn answer<S: PodState>(
    alloc: Global,
    state: &S,
    request: &Request,
    asked: &Asked<'_>,
    seq: u64,
    stamp: Stamp,
) -> Mem<Replied>
    // The reply is that of the definition.
    ensures reply { IfOk result (λ replied. IsReply (S.pod state.now) request.now
        (asked_view asked.now) seq stamp (reply_of replied)) }

    // Its entry, where it has one, applies to the pod, whose next number this is.
    ensures applies { IfOk result (λ replied. IfSome replied.entry (Applies
        (S.pod state.now) seq)) }

    // So it has a stored form.
    ensures encodable { IfOk result (λ replied. IfSome replied.entry IsEncodable) }

    // Its bytes can be written: the status has three digits, and each field is one line.
    ensures sent { IfOk result (λ replied. IsSent replied.response) }

    // It is no server error: these come from memory and disks alone.
    ensures status { IfOk result (λ replied. IsNoFailure replied.response.status) }

    // It has an entry exactly where a change succeeded.
    ensures complete { IfOk result (λ replied. IsComplete request.now.method (reply_of replied)) }

    // Each pod that is alike for the agent has the same reply: nothing is revealed that the agent
    // may not read.
    ensures alike { IfOk result (λ replied. IsReplyOfAlike (S.pod state.now) request.now
        (asked_view asked.now) seq stamp (reply_of replied)) }
{
    let replied = reply(alloc, state, request, asked, seq, stamp)?;
    state.is_well_formed();
    reply_laws::applies();
    reply_laws::encodable();
    reply_laws::sent();
    reply_laws::status();
    reply_laws::complete();
    reply_laws::isolation_law();
    Ok(replied)
}
