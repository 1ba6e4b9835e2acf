//! The reply to a PUT, and how a row is made.

ghost use Rattle.std.specs.Prelude.{◌≡◌, IfOk};
ghost use Rattle.pod_reply.specs.PutReplies as spec;
ghost use Rattle.pod_reply.specs.Ranks.{Ends};
ghost use Rattle.pod_reply.specs.Shapes.{IsPlaced};
ghost use Rattle.pod_rows.specs.Pod.{is_row};
ghost use Rattle.pod_rows.specs.View.{triples_in};

use crate::context::Context;
use crate::response_and_entry::{Replied, change_reply};
use crate::shared_refusals::{refuse_condition, refuse_content, refuse_place};
use crate::stop::Rank;
use pod_base::{List, Mem, Moment, Response};
use pod_command::{Basis, Content, Edit, Row};
use pod_edits::{Place, creation, kind_of, replacement};
use pod_path::Path;
use pod_responses::{changed, created};
use pod_rows::PodState;
use rdf_graph::Triple;
use std::alloc::Global;

/// The row that a PUT or POST makes at a path with this content.
pub(crate) fn row_of(alloc: Global, path: &Path, content: Content, modified: Moment) -> Mem<Row>
    ensures { IfOk result (λ row. row ≡ spec.row_of path.now content modified) }
{
    let kind = kind_of(path, &content);
    let path = path.copy(alloc)?;
    Ok(Row {
        path,
        kind,
        content,
        modified,
    })
}

/// The triples of the content of a PUT or POST; none of bytes.
pub(crate) fn triples_in(content: &Content) -> &[Triple]
    ensures { result.now ≡ triples_in content.now }
{
    match content {
        Content::Graph(stored) => stored.graph().as_slice(),
        Content::Bytes { ctype: _, bytes: _ } => &[],
    }
}

/// The response to a PUT: 201 for a new row, 204 for one that existed.
fn made_response<S: PodState>(context: &Context<'_, S>, place: &Option<Place>) -> Mem<Response>
    requires { IsPlaced context.now.pod.rows context.now.path place.now }
    ensures { IfOk result (λ response. response ≡ spec.made_response context.now.pod
        context.now.path (is_row context.now.pod.rows context.now.path)) }
{
    let path = context.path;
    match place {
        Some(_) => created(context.alloc, context.state.base(), path, path),
        None => Ok(changed(context.alloc)),
    }
}

/// The edits in the reply to a PUT, which make a row at its place, or replace the one at its path.
fn making_edits<S: PodState>(
    alloc: Global,
    state: &S,
    row: Row,
    place: Option<Place>,
) -> Mem<List<Edit>>
    requires { IsPlaced (S.pod state.now).rows row.path place }
    ensures { IfOk result (λ edits. edits.items ≡ spec.making_edits (S.pod state.now) row
        (is_row (S.pod state.now).rows row.path)) }
{
    match place {
        Some(place) => if row.path.is_auxiliary() {
            replacement(alloc, row)
        } else {
            creation(alloc, row, place)
        },
        None => replacement(alloc, row),
    }
}

/// The success of a PUT: a row is made, or replaces the one at its path.
pub(crate) fn make<S: PodState>(
    context: &Context<'_, S>,
    place: Option<Place>,
    bases: List<Basis>,
    content: Content,
) -> Rank<Replied>
    requires { IsPlaced context.now.pod.rows context.now.path place }
    ensures { Ends result (λ reply. reply ≡ spec.make_reply context.now.pod context.now.request
        context.now.path context.now.origin bases.items
        (spec.row_of context.now.path content context.now.origin.stamp.moment)
        (is_row context.now.pod.rows context.now.path)) }
{
    let path = context.path;
    let row = row_of(context.alloc, path, content, context.origin.stamp.moment)?;
    let response = made_response(context, &place)?;
    let edits = making_edits(context.alloc, context.state, row, place)?;
    change_reply(context, response, edits, bases)
}

/// The reply to a granted PUT of this content.
#[tactic(auto, unfolding(crate::specs::PutReplies::put_reply))]
pub(crate) fn put<S: PodState>(
    context: &Context<'_, S>,
    place: Option<Place>,
    bases: List<Basis>,
    content: Content,
) -> Rank<Replied>
    requires { IsPlaced context.now.pod.rows context.now.path place }
    ensures { Ends result (λ reply. reply ≡ spec.put_reply context.now.pod context.now.request
        context.now.path context.now.origin bases.items content) }
{
    refuse_place(context, &place)?;
    refuse_condition(context)?;
    refuse_content(context, triples_in(&content))?;
    make(context, place, bases, content)
}
