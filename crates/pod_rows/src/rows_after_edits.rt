//! What edits make of rows.
ghost use Rattle.std.specs.Prelude.{◌≡◌, IfOk, option_copied, Some};
ghost use Rattle.pod_rows.specs.Apply.{put_row, remove_row, changed_row, with_moment, edited};
ghost use Rattle.pod_rows.specs.Apply.{change_found, touch_found, remove_found, after_edits};
ghost use Rattle.pod_rows.specs.Apply.{is_before};
ghost use Rattle.pod_rows.specs.GraphSets.{changed_graph};
ghost use Rattle.pod_rows.specs.Pod.{row_at};
ghost use Rattle.pod_rows.specs.RowLists.{items_if};

use pod_base::{Mem, Moment};
use pod_command::{Content, Edit, Row, StoredGraph};
use pod_path::Path;
use rdf_graph::{Change, Graph, changed};
use std::alloc::Global;
use std::cmp::Ordering;

/// Whether the first path is before the second in byte order, where an edit puts a row.
fn is_before(path: &Path, other: &Path) -> bool
    ensures { result ≡ is_before path.now other.now }
{
    path.as_str().cmp(other.as_str()) == Ordering::Less
}

/// Copies of the rows that edits begin with, in their order.
pub(crate) fn copy_rows(alloc: Global, rows: &[Row]) -> Mem<Vec<Row>>
    ensures { IfOk result (λ copies. copies.items ≡ rows.now) }
{
    let mut copies = Vec::with_capacity(alloc, rows.len())?;
    for row in rows {
        let copy = row.copy(alloc)?;
        copies.push(copy)?;
    }
    Ok(copies)
}

/// The row at a path that an edit changes, among rows in any order.
fn row_at<'a>(rows: &'a [Row], path: &Path) -> Option<&'a Row>
    ensures { option_copied result ≡ row_at rows.entry.now path.now }
{
    rows.iter().find(|row| row.path.as_str() == path.as_str())
}

/// The rows after an edit that puts this one, which replaces the one at its path.
fn put_row(alloc: Global, rows: &[Row], row: &Row) -> Mem<Vec<Row>>
    ensures { IfOk result (λ all. all.items ≡ put_row rows.now row.now) }
{
    let mut all = Vec::new(alloc);
    for other in rows {
        if is_before(&other.path, &row.path) {
            let copy = other.copy(alloc)?;
            all.push(copy)?;
        }
    }
    let copy = row.copy(alloc)?;
    all.push(copy)?;
    for later in rows {
        if is_before(&row.path, &later.path) {
            let copy = later.copy(alloc)?;
            all.push(copy)?;
        }
    }
    Ok(all)
}

/// The rows after an edit that removes the one at the path.
fn remove_row(alloc: Global, rows: &[Row], path: &Path) -> Mem<Vec<Row>>
    ensures { IfOk result (λ all. all.items ≡ remove_row rows.now path.now) }
{
    let mut all = Vec::new(alloc);
    for row in rows {
        if row.path.as_str() != path.as_str() {
            let copy = row.copy(alloc)?;
            all.push(copy)?;
        }
    }
    Ok(all)
}

/// The graph of a row after an edit with this change.
fn changed_graph(alloc: Global, graph: &Graph, change: &Change) -> Mem<Graph>
    ensures { IfOk result (λ new. new
        ≡ changed_graph graph.now change.now.removed change.now.added) }
{
    let _old = graph.as_slice();
    let _added = change.added.as_slice();
    let new = changed(alloc, graph, change)?;
    let _new = new.as_slice();
    Ok(new)
}

/// The row after an edit that changes its graph, at another moment; none where it has no graph, or
/// its graph lacks a removed triple.
pub fn changed_row(alloc: Global, row: &Row, change: &Change, modified: Moment) -> Mem<Option<Row>>
    ensures { IfOk result (λ new. new
        ≡ changed_row change.now modified row.now row.now.content) }
{
    let Content::Graph(stored) = &row.content else {
        return Ok(None);
    };
    let graph = stored.graph();
    if !change.fits(graph) {
        return Ok(None);
    }
    let path = row.path.copy(alloc)?;
    let graph = changed_graph(alloc, graph, change)?;
    Ok(Some(Row {
        path,
        kind: row.kind,
        content: Content::Graph(StoredGraph::new(alloc, graph)),
        modified,
    }))
}

/// The row after an edit that touches it, at another moment.
pub fn with_moment(alloc: Global, row: &Row, modified: Moment) -> Mem<Row>
    ensures { IfOk result (λ new. new ≡ with_moment row.now modified) }
{
    let path = row.path.copy(alloc)?;
    let content = row.content.copy(alloc)?;
    Ok(Row {
        path,
        kind: row.kind,
        content,
        modified,
    })
}

/// The rows after an edit that changes the row at a path; none where there is no row, or the change
/// doesn't fit.
fn change_at(
    alloc: Global,
    rows: &[Row],
    path: &Path,
    change: &Change,
    modified: Moment,
) -> Mem<Option<Vec<Row>>>
    ensures { IfOk result (λ new. items_if new
        ≡ change_found rows.now change.now modified (row_at rows.now path.now)) }
{
    let Some(row) = row_at(rows, path) else {
        return Ok(None);
    };
    match changed_row(alloc, row, change, modified)? {
        Some(new) => {
            let all = put_row(alloc, rows, &new)?;
            Ok(Some(all))
        }
        None => Ok(None),
    }
}

/// The rows after an edit that touches the row at a path, at another moment; none where there is no
/// row.
fn touch_at(alloc: Global, rows: &[Row], path: &Path, modified: Moment) -> Mem<Option<Vec<Row>>>
    ensures { IfOk result (λ new. items_if new
        ≡ touch_found rows.now modified (row_at rows.now path.now)) }
{
    let Some(row) = row_at(rows, path) else {
        return Ok(None);
    };
    let new = with_moment(alloc, row, modified)?;
    let all = put_row(alloc, rows, &new)?;
    Ok(Some(all))
}

/// The rows after an edit that removes the row at a path; none where there is no row.
fn remove_at(alloc: Global, rows: &[Row], path: &Path) -> Mem<Option<Vec<Row>>>
    ensures { IfOk result (λ new. items_if new
        ≡ remove_found rows.now (row_at rows.now path.now)) }
{
    let Some(row) = row_at(rows, path) else {
        return Ok(None);
    };
    let all = remove_row(alloc, rows, &row.path)?;
    Ok(Some(all))
}

/// The rows after one edit; none where the edit can't be carried out.
fn edited(alloc: Global, rows: &[Row], edit: &Edit) -> Mem<Option<Vec<Row>>>
    ensures { IfOk result (λ new. items_if new ≡ edited rows.now edit.now) }
{
    match edit {
        Edit::Put(row) => {
            let all = put_row(alloc, rows, row)?;
            Ok(Some(all))
        }
        Edit::Change {
            path,
            change,
            modified,
        } => change_at(alloc, rows, path, change, *modified),
        Edit::Touch { path, modified } => touch_at(alloc, rows, path, *modified),
        Edit::Remove { path } => remove_at(alloc, rows, path),
    }
}

/// The rows after edits in their order; none where one of them can't be carried out.
pub(crate) fn after_edits(alloc: Global, rows: &[Row], edits: &[Edit]) -> Mem<Option<Vec<Row>>>
    ensures { IfOk result (λ new. items_if new ≡ after_edits (Some rows.now) edits.now) }
{
    let mut now = copy_rows(alloc, rows)?;
    for edit in edits {
        match edited(alloc, now.as_slice(), edit)? {
            Some(next) => now = next,
            None => return Ok(None),
        }
    }
    Ok(Some(now))
}
