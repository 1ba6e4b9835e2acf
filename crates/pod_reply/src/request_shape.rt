//! [`shape_of`]: what of a request decides its needs.

ghost use Rattle.std.specs.Prelude.{◌≡◌, IfOk};
ghost use Rattle.std.specs.List.{list_any};
ghost use Rattle.pod_rows.specs.Pod.{Pod};
ghost use Rattle.pod_reply.specs.Shapes as spec;

use crate::context::Context;
use pod_access::Shape;
use pod_base::Mem;
use pod_edits::{Place, find_place};
use pod_path::Path;
use pod_rows::PodState;
use request_body::RequestBody;
use sparql_patch::Named;
use std::alloc::Global;

/// Whether the update in a request names a triple that it inserts, for the shape of the request.
fn names_insertion(named: &[Named]) -> bool
    ensures { result ≡ list_any spec.is_insertion named.now }
{
    named.iter().any(|naming| naming.insert)
}

/// Whether the update in a request names a triple that it deletes, for the shape of the request.
fn names_deletion(named: &[Named]) -> bool
    ensures { result ≡ list_any spec.is_deletion named.now }
{
    named.iter().any(|naming| !naming.insert)
}

/// Whether the shape of a request has conditions: its body is a patch with some.
fn has_conditions(body: &RequestBody) -> bool
    ensures { result ≡ spec.has_conditions body.now }
{
    match body {
        RequestBody::Patch(patch) => !patch.conditions.is_empty(),
        _ => false,
    }
}

/// Whether the shape of a request has deletions: its body deletes triples, or names some as
/// deleted.
fn has_deletions(body: &RequestBody) -> bool
    ensures { result ≡ spec.has_deletions body.now }
{
    match body {
        RequestBody::Patch(patch) => !patch.deletions.is_empty(),
        RequestBody::Update(named) => names_deletion(named.as_slice()),
        _ => false,
    }
}

/// Whether the shape of a request has insertions: its body inserts triples, or names some as
/// inserted.
fn has_insertions(body: &RequestBody) -> bool
    ensures { result ≡ spec.has_insertions body.now }
{
    match body {
        RequestBody::Patch(patch) => !patch.insertions.is_empty(),
        RequestBody::Update(named) => names_insertion(named.as_slice()),
        _ => false,
    }
}

/// Where the path of a request would go in the tree, if it is no row, for the shape of the request.
pub(crate) fn place_of<S: PodState>(context: &Context<'_, S>) -> Mem<Option<Place>>
    ensures { IfOk result (spec.IsPlaced context.now.pod.rows context.now.path) }
{
    match context.row {
        Some(_) => Ok(None),
        None => Ok(Some(find_place(context.alloc, context.state, context.path)?)),
    }
}

/// The nearest ancestor that the shape of a request names: of its path, where that is no row; else
/// the path itself.
fn above_of(alloc: Global, path: &Path, place: &Option<Place>) -> Mem<Path>
    ensures { IfOk result (λ above. (pod : Pod) → spec.IsPlaced pod.rows path.now place.now
        → above ≡ spec.above_of pod path.now) }
{
    match place {
        Some(place) => place.nearest.copy(alloc),
        None => path.copy(alloc),
    }
}

/// The shape of a request with this body, which decides its needs.
pub(crate) fn shape_of<S: PodState>(
    context: &Context<'_, S>,
    place: &Option<Place>,
    body: &RequestBody,
) -> Mem<Shape>
    requires { spec.IsPlaced context.now.pod.rows context.now.path place.now }
    ensures { IfOk result (λ shape. shape ≡ spec.shape_of context.now.pod context.now.request
        context.now.path body.now) }
{
    let above = above_of(context.alloc, context.path, place)?;
    Ok(Shape {
        method: context.request.method,
        path: context.path.copy(context.alloc)?,
        exists: place.is_none(),
        above,
        conditions: has_conditions(body),
        deletions: has_deletions(body),
        insertions: has_insertions(body),
        tags: context.conditions.needs_read(),
    })
}
