//! What edits make of rows in pages. The new rows keep the marks that their paths had.
ghost use Rattle.std.specs.Prelude.{◌≡◌, ◌++◌, IfOk, IsSome, option_copied, Some};
ghost use Rattle.std.specs.List.{flat_map};
ghost use Rattle.pod_rows.specs.Apply.{after_edits, edited, put_row, remove_row};
ghost use Rattle.pod_rows.specs.Apply.{change_found, touch_found, remove_found};
ghost use Rattle.pod_rows.specs.Pod.{row_at};
ghost use Rattle.row_pages.specs.Items.{rows_of};
ghost use Rattle.pod_pages.specs.Edited.{AreMarkedBy, AreMarkedIf, placed_by, rows_if};
ghost use Rattle.pod_pages.specs.Effects.{effects_of};

use crate::entry_effects::{Effect, effect_of};
use pod_base::{Mem, Moment};
use pod_command::{Edit, Row};
use pod_path::Path;
use pod_rows::{changed_row, with_moment};
use rdf_graph::Change;
use row_pages::{Item, Rows};
use std::alloc::Global;

/// The row in pages at a path that an edit changes.
pub(crate) fn row_at<'a>(rows: &'a Rows, path: &Path) -> Option<&'a Row>
    ensures { option_copied result ≡ row_at (rows_of rows.entry.now) path.now }
{
    match rows.find(path.as_str().as_bytes()) {
        Some(item) => Some(item.row()),
        None => None,
    }
}

/// The item of a row that an edit puts, with the mark of its path in the old rows.
fn placed(alloc: Global, old: &Rows, row: Row) -> Mem<Item>
    ensures { IfOk result (λ item. item ≡ placed_by old.now row) }
{
    match old.find(row.path.as_str().as_bytes()) {
        Some(item) => {
            let placed = Item::new(alloc, row, item.list(), item.is_own())?;
            Ok(placed)
        }
        None => {
            let placed = Item::new(alloc, row, 0, false)?;
            Ok(placed)
        }
    }
}

/// The rows in pages after an edit that puts this one, which replaces the one at its path.
fn put_row(alloc: Global, old: &Rows, rows: &Rows, row: Row) -> Mem<Rows>
    ensures rows { IfOk result (λ new. rows_of new ≡ put_row (rows_of rows.now) row) }
    ensures marks { AreMarkedBy old.now rows.now → IfOk result (AreMarkedBy old.now) }
{
    let item = placed(alloc, old, row)?;
    let next = rows.put(alloc, &item)?;
    Ok(next)
}

/// The rows in pages after an edit that changes the row at a path; none where there is no row, or
/// the change doesn't fit.
fn change_at(
    alloc: Global,
    old: &Rows,
    rows: &Rows,
    path: &Path,
    change: &Change,
    modified: Moment,
) -> Mem<Option<Rows>>
    ensures rows { IfOk result (λ new. rows_if new ≡ change_found (rows_of rows.now)
        change.now modified (row_at (rows_of rows.now) path.now)) }
    ensures marks { AreMarkedBy old.now rows.now → IfOk result (AreMarkedIf old.now) }
{
    let Some(row) = row_at(rows, path) else {
        return Ok(None);
    };
    match changed_row(alloc, row, change, modified)? {
        Some(new) => {
            let all = put_row(alloc, old, rows, new)?;
            Ok(Some(all))
        }
        None => Ok(None),
    }
}

/// The rows in pages after an edit that touches the row at a path, at another moment; none where
/// there is no row.
fn touch_at(
    alloc: Global,
    old: &Rows,
    rows: &Rows,
    path: &Path,
    modified: Moment,
) -> Mem<Option<Rows>>
    ensures rows { IfOk result (λ new. rows_if new ≡ touch_found (rows_of rows.now) modified
        (row_at (rows_of rows.now) path.now)) }
    ensures marks { AreMarkedBy old.now rows.now → IfOk result (AreMarkedIf old.now) }
{
    let Some(row) = row_at(rows, path) else {
        return Ok(None);
    };
    let new = with_moment(alloc, row, modified)?;
    let all = put_row(alloc, old, rows, new)?;
    Ok(Some(all))
}

/// The rows in pages after an edit that removes the row at a path; none where there is no row.
fn remove_at(alloc: Global, old: &Rows, rows: &Rows, path: &Path) -> Mem<Option<Rows>>
    ensures rows { IfOk result (λ new. rows_if new ≡ remove_found (rows_of rows.now)
        (row_at (rows_of rows.now) path.now)) }
    ensures marks { AreMarkedBy old.now rows.now → IfOk result (AreMarkedIf old.now) }
{
    let Some(row) = row_at(rows, path) else {
        return Ok(None);
    };
    let all = rows.without(alloc, row.path.as_str().as_bytes())?;
    Ok(Some(all))
}

/// The rows in pages after one edit; none where the edit can't be carried out.
fn edited(alloc: Global, old: &Rows, rows: &Rows, edit: &Edit) -> Mem<Option<Rows>>
    ensures rows { IfOk result (λ new. rows_if new ≡ edited (rows_of rows.now) edit.now) }
    ensures marks { AreMarkedBy old.now rows.now → IfOk result (AreMarkedIf old.now) }
{
    match edit {
        Edit::Put(row) => {
            let row = row.copy(alloc)?;
            let all = put_row(alloc, old, rows, row)?;
            Ok(Some(all))
        }
        Edit::Change {
            path,
            change,
            modified,
        } => change_at(alloc, old, rows, path, change, *modified),
        Edit::Touch { path, modified } => touch_at(alloc, old, rows, path, *modified),
        Edit::Remove { path } => remove_at(alloc, old, rows, path),
    }
}

/// The rows in pages after edits in their order, and none where one of them can't be carried out.
/// It appends the effects of the edits.
pub(crate) fn after_edits(
    alloc: Global,
    seq: u64,
    old: &Rows,
    edits: &[Edit],
    effects: &mut Vec<Effect>,
) -> Mem<Option<Rows>>
    ensures rows { IfOk result (λ new. rows_if new
        ≡ after_edits (Some (rows_of old.now)) edits.now) }
    ensures marks { IfOk result (AreMarkedIf old.now) }
    ensures effects { IfOk result (λ new. IsSome new → effects.new.items
        ≡ effects.old.items ++ effects_of seq (Some (rows_of old.now)) edits.now) }
{
    old.are_in_order();
    let mut now = old.share(alloc)?;
    for edit in edits {
        let effect = effect_of(alloc, seq, &now, edit)?;
        effects.push(effect)?;
        let after = edited(alloc, old, &now, edit)?;
        match after {
            Some(next) => now = next,
            None => return Ok(None),
        }
    }
    Ok(Some(now))
}
