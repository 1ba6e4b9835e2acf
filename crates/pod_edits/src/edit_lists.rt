//! The edits of each kind of change.

ghost use Rattle.std.specs.Prelude.{◌≡◌, ◌++◌, ◌∷◌, [], List as TheList, IfOk, OnOk};
ghost use Rattle.pod_command.specs.declared.row.Row.{Row as TheRow};
ghost use Rattle.pod_edits.specs.Edits.{change_edits, container_row, creation_edits};
ghost use Rattle.pod_edits.specs.Edits.{deletion_edits, put_edits, removal_edits, remove_if};
ghost use Rattle.pod_edits.specs.Edits.{touch_if};
ghost use Rattle.pod_edits.specs.Places.{IsPlaceOf};

use crate::new_row_place::Place;
use pod_base::{List, Mem, Moment};
use pod_command::{Content, Edit, Kind, Row, StoredGraph};
use pod_path::Path;
use pod_rows::PodState;
use rdf_graph::{Change, Graph};
use std::alloc::Global;

/// An empty container, which an edit of a creation puts.
fn container_row(alloc: Global, path: &Path, modified: Moment) -> Mem<Row>
    ensures { IfOk result (λ row. row ≡ container_row modified path.now) }
{
    Ok(Row {
        path: path.copy(alloc)?,
        kind: Kind::Container,
        content: Content::Graph(StoredGraph::new(alloc, Graph::new(alloc))),
        modified,
    })
}

/// One edit as a list of edits.
fn single_edit(alloc: Global, edit: Edit) -> Mem<List<Edit>>
    ensures { IfOk result (λ edits. edits.items ≡ edit ∷ []) }
{
    let mut edits = Vec::with_capacity(alloc, 1)?;
    edits.push(edit)?;
    Ok(List::from_vec(edits))
}

/// The edits of a new row that is no access list and no description, by its place.
pub fn creation(alloc: Global, row: Row, place: Place) -> Mem<List<Edit>>
    ensures { IfOk result (λ edits. (rows : TheList TheRow) → IsPlaceOf rows row.path place
        → edits.items ≡ creation_edits rows row) }
{
    let modified = row.modified;
    let mut edits = Vec::with_capacity(alloc, place.missing.len().saturating_add(2))?;
    for path in place.missing.as_slice() {
        edits.push(Edit::Put(container_row(alloc, path, modified)?))?;
    }
    edits.push(Edit::Put(row))?;
    push_touch(&mut edits, Some(place.nearest), modified)?;
    Ok(List::from_vec(edits))
}

/// The edits of a PUT of a row, and of a new access list or description.
pub fn replacement(alloc: Global, row: Row) -> Mem<List<Edit>>
    ensures { IfOk result (λ edits. edits.items ≡ put_edits row) }
{
    single_edit(alloc, Edit::Put(row))
}

/// The edits of a PATCH of a row.
pub fn change(alloc: Global, path: Path, change: Change, modified: Moment) -> Mem<List<Edit>>
    ensures { IfOk result (λ edits. edits.items ≡ change_edits path change modified) }
{
    single_edit(
        alloc,
        Edit::Change {
            path,
            change,
            modified,
        },
    )
}

/// Appends the edit that removes a path, where it is a row.
fn push_removal<S: PodState>(edits: &mut Vec<Edit>, state: &S, path: Option<Path>) -> Mem<()>
    ensures { OnOk result (edits.new.items
        ≡ edits.old.items ++ remove_if (S.pod state.now).rows path) }
{
    match path {
        Some(path) => {
            if state.taken(&path) {
                edits.push(Edit::Remove { path })?;
            }
            Ok(())
        }
        None => Ok(()),
    }
}

/// Appends the edit that touches a path, if there is one.
fn push_touch(edits: &mut Vec<Edit>, path: Option<Path>, modified: Moment) -> Mem<()>
    ensures { OnOk result (edits.new.items ≡ edits.old.items ++ touch_if path modified) }
{
    match path {
        Some(path) => {
            edits.push(Edit::Touch { path, modified })?;
            Ok(())
        }
        None => Ok(()),
    }
}

/// The edits of a DELETE of what is no access list and no description. It looks up the two
/// auxiliaries of the path.
pub fn deletion<S: PodState>(
    alloc: Global,
    state: &S,
    path: &Path,
    modified: Moment,
) -> Mem<List<Edit>>
    ensures { IfOk result (λ edits. edits.items
        ≡ deletion_edits (S.pod state.now).rows path.now modified) }
{
    let mut edits = Vec::with_capacity(alloc, 4)?;
    edits.push(Edit::Remove {
        path: path.copy(alloc)?,
    })?;
    push_removal(&mut edits, state, path.acl(alloc)?)?;
    push_removal(&mut edits, state, path.meta(alloc)?)?;
    push_touch(&mut edits, path.parent(alloc)?, modified)?;
    Ok(List::from_vec(edits))
}

/// The edits of a DELETE of an access list or a description.
pub fn removal(alloc: Global, path: Path) -> Mem<List<Edit>>
    ensures { IfOk result (λ edits. edits.items ≡ removal_edits path) }
{
    single_edit(alloc, Edit::Remove { path })
}
