//! The reply to a GET or HEAD.

ghost use Rattle.std.specs.Prelude.{◌≡◌};
ghost use Rattle.pod_reply.specs.Ranks.{Ends};
ghost use Rattle.pod_reply.specs.ReadReplies as spec;
ghost use Rattle.pod_reply.specs.Replies.{unchanged};
ghost use Rattle.pod_representations.specs.Offers.{chosen};

use crate::context::Context;
use crate::response_and_entry::{Replied, unchanged};
use crate::shared_refusals::find_row;
use crate::stop::{Rank, Stop};
use conditional_req::Verdict;
use pod_access::allow_field;
use pod_command::Row;
use pod_representations::{chosen, read_verdict, represent, show};
use pod_responses::{accept_of, not_modified, refusal, upgraded};
use pod_rows::PodState;
use request_fields::upgrade_key;

/// The reply to a GET or HEAD of a row: 406 `accept`, or, of the offer that the request chooses,
/// 304, 412 `condition` or the representation by the verdict on the preconditions.
fn read_chosen<S: PodState>(context: &Context<'_, S>, row: &Row) -> Rank<Replied>
    ensures { Ends result (λ reply. reply ≡ unchanged (spec.chosen_read context.now.pod
        context.now.request context.now.path context.now.origin.agent row.now
        (chosen row.now context.now.request.fields))) }
{
    let (method, fields) = (context.request.method, &context.request.fields);
    let Some(media) = chosen(context.alloc, row, fields)? else {
        return Err(Stop::Refused(refusal(context.alloc, 406, b"accept")?));
    };
    let shown = represent(context.alloc, context.state, row, media)?;
    match read_verdict(context.conditions, method, &shown) {
        Verdict::NotModified => {
            let response = not_modified(context.alloc, &shown.tag, shown.modified)?;
            Err(Stop::Refused(response))
        }
        Verdict::Failed => Err(Stop::Refused(refusal(context.alloc, 412, b"condition")?)),
        Verdict::Go => {
            let path = context.path;
            let granted = allow_field(context.alloc, context.state, path, &context.origin.agent)?;
            let base = context.state.base();
            let response = show(context.alloc, base, path, &shown, granted, method, fields)?;
            Ok(unchanged(response))
        }
    }
}

/// The reply to a granted GET or HEAD.
#[tactic(auto, unfolding(crate::specs::ReadReplies::read_reply))]
pub(crate) fn read<S: PodState>(context: &Context<'_, S>) -> Rank<Replied>
    ensures { Ends result (λ reply. reply ≡ unchanged (spec.read_reply context.now.pod
        context.now.request context.now.path context.now.origin.agent)) }
{
    let row = find_row(context)?;
    match upgrade_key(context.request) {
        Some(key) => {
            let accept = accept_of(context.alloc, key)?;
            Ok(unchanged(upgraded(context.alloc, accept)?))
        }
        None => read_chosen(context, row),
    }
}
