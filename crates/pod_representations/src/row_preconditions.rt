//! The verdict on the preconditions of a request at a row.

ghost use Rattle.std.specs.Prelude.{◌≡◌, ◌∷◌, [], IfOk, Some};
ghost use Rattle.std.specs.Option.{option_copied};
ghost use Rattle.conditional_req.specs.Verdicts as verdicts;
ghost use Rattle.pod_representations.specs.Preconditions as spec;
ghost use Rattle.pod_representations.specs.Representations as shows;
ghost use Rattle.pod_representations.specs.declared.row_offers.Media.TheVariants.{Turtle, JsonLd};

use crate::representation::{Shown, bytes_tag, graph_tag, is_container};
use crate::row_offers::Media;
use conditional_req::{Conditions, Current, Tag, Verdict, judge};
use pod_base::{Mem, Method, Moment};
use pod_command::{Content, Row, StoredGraph};
use pod_rows::{PodState, container_view};
use rdf_graph::Graph;
use std::alloc::Global;

/// The verdict on preconditions at a row whose representations have these tags.
fn judge_tags(conditions: &Conditions, method: Method, tags: &[Tag], modified: Moment) -> Verdict
    ensures { result ≡ verdicts.verdict conditions.now method
        (Some (verdicts.validators tags.now modified.0)) }
{
    let current = Current { tags, modified };
    judge(conditions, method, Some(&current))
}

/// The verdict on the preconditions of a GET or HEAD, for which this representation of a row was
/// chosen. It takes no memory.
#[tactic(auto, unfolding(crate::specs::Preconditions::read_verdict))]
pub fn read_verdict(conditions: &Conditions, method: Method, shown: &Shown) -> Verdict
    ensures { result ≡ spec.read_verdict conditions.now method shown.now }
{
    judge_tags(conditions, method, &[shown.tag], shown.modified)
}

/// The verdict on preconditions by the tags of a row's graph in both types.
fn judge_graph(
    alloc: Global,
    conditions: &Conditions,
    method: Method,
    stored: &StoredGraph,
    graph: &Graph,
    modified: Moment,
) -> Mem<Verdict>
    ensures { IfOk result (λ verdict. verdict ≡ verdicts.verdict conditions.now method
        (Some (verdicts.validators
        (shows.graph_tag Turtle graph.now ∷ shows.graph_tag JsonLd graph.now ∷ []) modified.0))) }
{
    let turtle = graph_tag(alloc, stored, graph, Media::Turtle)?;
    let json_ld = graph_tag(alloc, stored, graph, Media::JsonLd)?;
    Ok(judge_tags(conditions, method, &[turtle, json_ld], modified))
}

/// The verdict on preconditions by the tags of all representations of a row.
fn judge_offers<S: PodState>(
    alloc: Global,
    state: &S,
    row: &Row,
    conditions: &Conditions,
    method: Method,
) -> Mem<Verdict>
    ensures { IfOk result (λ verdict. verdict ≡ verdicts.verdict conditions.now method
        (Some (spec.offered_validators (S.pod state.now) row.now))) }
{
    match &row.content {
        Content::Graph(stored) => {
            if is_container(row.kind) {
                let view = container_view(alloc, state, &row.path)?;
                judge_graph(alloc, conditions, method, stored, &view, row.modified)
            } else {
                judge_graph(
                    alloc,
                    conditions,
                    method,
                    stored,
                    stored.graph(),
                    row.modified,
                )
            }
        }
        Content::Bytes { ctype, bytes } => {
            let tag = bytes_tag(alloc, ctype, bytes);
            Ok(judge_tags(conditions, method, &[tag], row.modified))
        }
    }
}

/// The verdict on the preconditions of a request other than GET and HEAD, at a path with this row
/// or with none. It compares with the tags of all representations of the row. Texts of graphs are
/// made only where a field lists tags, and none for `*` or for dates.
pub fn change_verdict<S: PodState>(
    alloc: Global,
    state: &S,
    row: Option<&Row>,
    conditions: &Conditions,
    method: Method,
) -> Mem<Verdict>
    ensures { IfOk result (λ verdict. verdict
        ≡ spec.change_verdict (S.pod state.now) (option_copied row.entry) conditions.now method) }
{
    match row {
        Some(row) => {
            if conditions.compares_tags() {
                judge_offers(alloc, state, row, conditions, method)
            } else {
                Ok(judge_tags(conditions, method, &[], row.modified))
            }
        }
        None => Ok(judge(conditions, method, None)),
    }
}
