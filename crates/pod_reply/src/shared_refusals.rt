//! The ranks that several methods share: the place in the tree, the number of rows, the
//! preconditions of a change, and what its new triples state.

ghost use Rattle.std.specs.Prelude.{◌≡◌, List, Some, ⊤, codes, not};
ghost use Rattle.pod_command.specs.declared.row.Row.{Row as TheRow};
ghost use Rattle.pod_edits.specs.Places.{IsPlaceOf};
ghost use Rattle.pod_edits.specs.Refusals.{added_rows, states_containment};
ghost use Rattle.pod_reply.specs.Obstacles as spec;
ghost use Rattle.pod_reply.specs.PutReplies.{place_refusal};
ghost use Rattle.pod_reply.specs.Ranks.{Passes};
ghost use Rattle.pod_reply.specs.Shapes.{IsPlaced};
ghost use Rattle.pod_responses.specs.Responses as responses;
ghost use Rattle.pod_rows.specs.Pod.{is_row, row_at};

use crate::context::Context;
use crate::stop::{Rank, Stop, refuse_if};
use conditional_req::Verdict;
use pod_command::Row;
use pod_edits::{Place, breaks_guard, exceeds_rows, lacks_subject, meets_twin, states_containment};
use pod_path::Path;
use pod_representations::change_verdict;
use pod_responses::refusal;
use pod_rows::PodState;
use rdf_graph::Triple;
use std::alloc::Global;

/// The row at a request's path, or the refusal 404 `missing` that methods share, where there is
/// none.
pub(crate) fn find_row<'a, S: PodState>(context: &'a Context<'_, S>) -> Rank<&'a Row>
    ensures { Passes result (spec.refuse_if (not (is_row context.now.pod.rows context.now.path))
        (responses.refusal 404 (codes "missing")))
        (λ row. row_at context.now.pod.rows context.now.path ≡ Some row.now) }
{
    match context.row {
        Some(row) => Ok(row),
        None => Err(Stop::Refused(refusal(context.alloc, 404, b"missing")?)),
    }
}

/// The refusal 507 `rows` that methods share, where there would be too many rows or changes.
#[tactic(auto, unfolding(pod_edits::specs::Refusals::lacks_number))]
pub(crate) fn refuse_room<S: PodState>(context: &Context<'_, S>, added: usize) -> Rank<()>
    ensures { Passes result (spec.no_room context.now.pod context.now.origin.seq added) (λ _. ⊤) }
{
    let holds = exceeds_rows(context.state, added) || 1 << 63 <= context.origin.seq;
    refuse_if(context.alloc, holds, 507, b"rows")
}

/// How many rows a new path adds, for the refusal 507 `rows`.
fn added_rows(path: &Path, place: &Place) -> usize
    ensures { (rows : List TheRow) → IsPlaceOf rows path.now place.now
        → result ≡ added_rows rows path.now }
{
    if path.is_auxiliary() {
        1
    } else {
        place.added_rows()
    }
}

/// The refusal 409 `twin`, 409 `subject` or 507 `rows` that methods share, of a path that is no
/// row.
#[tactic(auto, unfolding(crate::specs::Obstacles::new_path_refusal))]
fn refuse_new_path<S: PodState>(context: &Context<'_, S>, place: &Place) -> Rank<()>
    requires { IsPlaceOf context.now.pod.rows context.now.path place.now }
    ensures { Passes result (spec.new_path_refusal context.now.pod context.now.origin.seq
        context.now.path) (λ _. ⊤) }
{
    let twin = meets_twin(context.alloc, context.state, context.path, place)?;
    refuse_if(context.alloc, twin, 409, b"twin")?;
    let subject = lacks_subject(context.state, context.path);
    refuse_if(context.alloc, subject, 409, b"subject")?;
    refuse_room(context, added_rows(context.path, place))
}

/// The refusals that PUT and PATCH share by the place of their path, whether or not it is a row.
pub(crate) fn refuse_place<S: PodState>(context: &Context<'_, S>, place: &Option<Place>) -> Rank<()>
    requires { IsPlaced context.now.pod.rows context.now.path place.now }
    ensures { Passes result (place_refusal context.now.pod context.now.origin.seq context.now.path
        (is_row context.now.pod.rows context.now.path)) (λ _. ⊤) }
{
    match place {
        Some(place) => refuse_new_path(context, place),
        None => refuse_room(context, 0),
    }
}

/// The refusal 412 `condition` that methods share, where the preconditions of a change fail at the
/// row of the path, or without one.
#[tactic(auto, unfolding(crate::specs::Obstacles::condition_refusal))]
pub(crate) fn refuse_condition<S: PodState>(context: &Context<'_, S>) -> Rank<()>
    ensures { Passes result (spec.condition_refusal context.now.pod context.now.request
        context.now.path) (λ _. ⊤) }
{
    let (state, row, method) = (context.state, context.row, context.request.method);
    match change_verdict(context.alloc, state, row, context.conditions, method)? {
        Verdict::Go => Ok(()),
        Verdict::NotModified | Verdict::Failed => {
            Err(Stop::Refused(refusal(context.alloc, 412, b"condition")?))
        }
    }
}

/// The refusal 409 `contains` that methods share, where the triples of a container state what it
/// contains.
pub(crate) fn refuse_containment(alloc: Global, path: &Path, triples: &[Triple]) -> Rank<()>
    ensures { Passes result (spec.refuse_if (states_containment path.now triples.now)
        (spec.conflict (codes "contains"))) (λ _. ⊤) }
{
    refuse_if(alloc, states_containment(path, triples), 409, b"contains")
}

/// The refusal 409 `contains` or 409 `owner` that methods share, by the new triples of the path.
#[tactic(auto, unfolding(crate::specs::Obstacles::content_refusal))]
pub(crate) fn refuse_content<S: PodState>(context: &Context<'_, S>, triples: &[Triple]) -> Rank<()>
    ensures { Passes result (spec.content_refusal context.now.pod context.now.path triples.now)
        (λ _. ⊤) }
{
    refuse_containment(context.alloc, context.path, triples)?;
    let breaks = breaks_guard(context.state, context.path, triples);
    refuse_if(context.alloc, breaks, 409, b"owner")
}
