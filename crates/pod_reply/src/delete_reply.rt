//! The reply to a DELETE.

ghost use Rattle.std.specs.Prelude.{◌≡◌, IfOk};
ghost use Rattle.pod_reply.specs.DeleteReplies as spec;
ghost use Rattle.pod_reply.specs.Ranks.{Ends};

use crate::context::Context;
use crate::response_and_entry::{Replied, change_reply};
use crate::shared_refusals::{find_row, refuse_condition, refuse_room};
use crate::stop::{Rank, refuse_if};
use pod_base::{List, Mem, Moment};
use pod_command::{Basis, Edit};
use pod_edits::{deletion, has_children, removal};
use pod_path::Path;
use pod_responses::changed;
use pod_rows::PodState;
use std::alloc::Global;

/// The edits in the reply to a DELETE of a path.
fn delete_edits<S: PodState>(
    alloc: Global,
    state: &S,
    path: &Path,
    modified: Moment,
) -> Mem<List<Edit>>
    ensures { IfOk result (λ edits. edits.items
        ≡ spec.delete_edits (S.pod state.now) path.now modified) }
{
    if path.is_auxiliary() {
        removal(alloc, path.copy(alloc)?)
    } else {
        deletion(alloc, state, path, modified)
    }
}

/// The reply to a granted DELETE.
#[tactic(auto, unfolding(crate::specs::DeleteReplies::delete_reply))]
pub(crate) fn delete<S: PodState>(context: &Context<'_, S>, bases: List<Basis>) -> Rank<Replied>
    ensures { Ends result (λ reply. reply ≡ spec.delete_reply context.now.pod context.now.request
        context.now.path context.now.origin bases.items) }
{
    find_row(context)?;
    let children = has_children(context.alloc, context.state, context.path)?;
    refuse_if(context.alloc, children, 409, b"not-empty")?;
    refuse_room(context, 0)?;
    refuse_condition(context)?;
    let modified = context.origin.stamp.moment;
    let edits = delete_edits(context.alloc, context.state, context.path, modified)?;
    change_reply(context, changed(context.alloc), edits, bases)
}
