//! The reply to a PATCH.

ghost use Rattle.std.specs.Prelude.{◌≡◌, [], IfOk, ⊤};
ghost use Rattle.std.specs.Option.{option_copied};
ghost use Rattle.patch_outcome.specs.Outcomes.{HasGraphs};
ghost use Rattle.pod_reply.specs.PatchReplies as spec;
ghost use Rattle.pod_reply.specs.Ranks.{Ends, Passes};
ghost use Rattle.pod_reply.specs.Shapes.{IsPlaced};

use crate::context::Context;
use crate::put_reply::make;
use crate::response_and_entry::{Replied, change_reply};
use crate::shared_refusals::{refuse_condition, refuse_place};
use crate::stop::{Rank, Stop, refuse_if};
use patch_outcome::{PatchRefusal, outcome, update_outcome};
use pod_base::{List, Mem};
use pod_command::{Basis, Content, Row, StoredGraph};
use pod_edits::{Place, breaks_guard, change as change_edits, is_bytes, is_root_list};
use pod_path::Path;
use pod_responses::{changed, refusal};
use pod_rows::PodState;
use rdf_graph::{Change, Graph, changed as changed_graph};
use request_body::RequestBody;
use std::alloc::Global;

/// Whether the row that a PATCH changes holds bytes.
fn holds_bytes(row: Option<&Row>) -> bool
    ensures { result ≡ spec.is_bytes_row (option_copied row.entry) }
{
    match row {
        Some(row) => is_bytes(row.kind),
        None => false,
    }
}

/// The refusals of a PATCH before its patch is applied: 409 `not-graph`, those of its place, and
/// 412 `condition`.
#[tactic(auto, unfolding(crate::specs::PatchReplies::patch_refusal))]
fn refuse_patch<S: PodState>(context: &Context<'_, S>, place: &Option<Place>) -> Rank<()>
    requires { IsPlaced context.now.pod.rows context.now.path place.now }
    ensures { Passes result (spec.patch_refusal context.now.pod context.now.request
        context.now.origin.seq context.now.path) (λ _. ⊤) }
{
    let bytes = holds_bytes(context.row);
    refuse_if(context.alloc, bytes, 409, b"not-graph")?;
    refuse_place(context, place)?;
    refuse_condition(context)
}

/// The graph that a PATCH changes; this empty one where there is no row or it holds bytes.
fn patched_graph<'a>(row: Option<&'a Row>, empty: &'a Graph) -> &'a Graph
    requires { empty.now ≡ [] }
    ensures { result.now ≡ spec.patched_triples (option_copied row.entry) }
{
    match row {
        Some(row) => match &row.content {
            Content::Graph(stored) => stored.graph(),
            Content::Bytes { ctype: _, bytes: _ } => empty,
        },
        None => empty,
    }
}

/// What the body of a PATCH does to a graph.
fn apply(
    alloc: Global,
    path: &Path,
    graph: &Graph,
    body: &RequestBody,
) -> Mem<Result<Change, PatchRefusal>>
    requires { spec.IsPatchBody body.now }
    ensures { IfOk result (spec.IsBodyOutcome body.now path.now graph.now) }
{
    match body {
        RequestBody::Patch(patch) => outcome(alloc, path.is_container(), graph, patch),
        RequestBody::Update(named) => update_outcome(alloc, path.is_container(), graph, named),
        RequestBody::Nothing | RequestBody::Content(_) => unreachable!(),
    }
}

/// The triples of the outcome of a PATCH are graphs. It does nothing.
fn has_graphs(outcome: &Result<Change, PatchRefusal>)
    ensures { HasGraphs outcome.now }
{
    if let Ok(change) = outcome {
        let _removed = change.removed.as_slice();
        let _added = change.added.as_slice();
    }
}

/// The graph that a PATCH leaves, after its change.
fn graph_after_change(alloc: Global, graph: &Graph, change: &Change) -> Mem<Graph>
    ensures { IfOk result (λ new. new ≡ spec.triples_after graph.now change.now) }
{
    let _old = graph.as_slice();
    let _added = change.added.as_slice();
    let new = changed_graph(alloc, graph, change)?;
    let _new = new.as_slice();
    Ok(new)
}

/// The refusal 409 `owner` of a PATCH, where the graph of the path after its change takes control
/// from the owner.
#[tactic(auto, unfolding(pod_edits::specs::Refusals::breaks_guard))]
fn refuse_guard<S: PodState>(context: &Context<'_, S>, change: &Change) -> Rank<()>
    ensures { Passes result (spec.guard_refusal context.now.pod context.now.path change.now)
        (λ _. ⊤) }
{
    if !is_root_list(context.path) {
        return Ok(());
    }
    let empty = Graph::new(context.alloc);
    let graph = patched_graph(context.row, &empty);
    let after = graph_after_change(context.alloc, graph, change)?;
    let breaks = breaks_guard(context.state, context.path, after.as_slice());
    refuse_if(context.alloc, breaks, 409, b"owner")
}

/// The reply to a PATCH by the outcome of its patch: its refusal, 409 `owner`, or the success: a
/// row is changed, or a new one is made.
fn reply_by<S: PodState>(
    context: &Context<'_, S>,
    place: Option<Place>,
    bases: List<Basis>,
    outcome: Result<Change, PatchRefusal>,
) -> Rank<Replied>
    requires { IsPlaced context.now.pod.rows context.now.path place }
    ensures { Ends result (λ reply. reply ≡ spec.outcome_reply context.now.pod context.now.request
        context.now.path context.now.origin bases.items outcome) }
{
    let alloc = context.alloc;
    match outcome {
        Err(refused) => Err(Stop::Refused(refusal(alloc, 409, refused.word().as_bytes())?)),
        Ok(change) => {
            refuse_guard(context, &change)?;
            match place {
                Some(place) => {
                    let graph = graph_after_change(alloc, &Graph::new(alloc), &change)?;
                    let content = Content::Graph(StoredGraph::new(alloc, graph));
                    make(context, Some(place), bases, content)
                }
                None => {
                    let (path, modified) = (context.path.copy(alloc)?, context.origin.stamp.moment);
                    let edits = change_edits(alloc, path, change, modified)?;
                    change_reply(context, changed(alloc), edits, bases)
                }
            }
        }
    }
}

/// The reply to a granted PATCH with this body.
pub(crate) fn patch<S: PodState>(
    context: &Context<'_, S>,
    place: Option<Place>,
    bases: List<Basis>,
    body: &RequestBody,
) -> Rank<Replied>
    requires place { IsPlaced context.now.pod.rows context.now.path place }
    requires body { spec.IsPatchBody body.now }
    ensures { Ends result (spec.IsPatchReply context.now.pod context.now.request context.now.path
        context.now.origin bases.items body.now) }
{
    refuse_patch(context, &place)?;
    let empty = Graph::new(context.alloc);
    let graph = patched_graph(context.row, &empty);
    let outcome = apply(context.alloc, context.path, graph, body)?;
    has_graphs(&outcome);
    reply_by(context, place, bases, outcome)
}
