//! An entry that puts one row, which is no access list: the row with the list that governs it.
ghost use Rattle.std.specs.Prelude.{◌≡◌, ◌++◌, ◌∷◌, [], IfOk, IfSome, OnOk, is_some, option_copied};
ghost use Rattle.row_pages.specs.Items.{item_at, put_item};
ghost use Rattle.pod_pages.specs.Marks.{mark, path_mark};
ghost use Rattle.pod_pages.specs.Effects.{effect_on, put_kind};
ghost use Rattle.pod_pages.specs.Placings.{IsEditPlacing, IsPlacing, mark_found, row_if, row_made};
ghost use Rattle.pod_pages.specs.Versions.{path_of_edit};

use crate::entry_effects::{Effect, put_effect};
use crate::row_marks::{Mark, path_mark};
use pod_base::Mem;
use pod_command::{Edit, Entry, Row};
use pod_path::Path;
use pod_rows::{changed_row, with_moment};
use row_pages::{Item, Rows};
use std::alloc::Global;

/// The item that an entry puts, and whether it replaces one.
#[derive(Drop)]
pub(crate) struct Placing {
    pub item: Item,
    pub replaces: bool,
}

/// The path of an entry's single edit.
pub(crate) fn edit_path(edit: &Edit) -> &Path
    ensures { result.now ≡ path_of_edit edit.entry.now }
{
    match edit {
        Edit::Put(row) => &row.path,
        Edit::Change {
            path,
            change: _,
            modified: _,
        } => path,
        Edit::Touch { path, modified: _ } => path,
        Edit::Remove { path } => path,
    }
}

/// The row of an item that a single Put replaces.
fn row_of<'a>(item: Option<&'a Item>) -> Option<&'a Row>
    ensures { option_copied result ≡ row_if (option_copied item.entry) }
{
    match item {
        Some(item) => Some(item.row()),
        None => None,
    }
}

/// The row that a single edit puts in place of this one, if it puts a row.
fn row_made(alloc: Global, edit: &Edit, row: Option<&Row>) -> Mem<Option<Row>>
    ensures { IfOk result (λ made. made ≡ row_made edit.now (option_copied row.entry)) }
{
    match edit {
        Edit::Put(new) => {
            let new = new.copy(alloc)?;
            Ok(Some(new))
        }
        Edit::Change {
            path: _,
            change,
            modified,
        } => match row {
            Some(row) => changed_row(alloc, row, change, *modified),
            None => Ok(None),
        },
        Edit::Touch { path: _, modified } => match row {
            Some(row) => {
                let new = with_moment(alloc, row, *modified)?;
                Ok(Some(new))
            }
            None => Ok(None),
        },
        Edit::Remove { path: _ } => Ok(None),
    }
}

/// The mark of the item at the path of a single Put, or else the one that the path has without an
/// item.
fn mark_found(rows: &Rows, item: Option<&Item>, path: &Path) -> Option<Mark>
    ensures { result ≡ mark_found (option_copied item.entry) (path_mark rows.now path.now) }
{
    match item {
        Some(item) => Some(Mark {
            list: item.list(),
            own: item.is_own(),
        }),
        None => path_mark(rows, path),
    }
}

/// The item of a single row that is put at a path.
fn placed_at(
    alloc: Global,
    rows: &Rows,
    old: Option<&Item>,
    path: &Path,
    row: Row,
) -> Mem<Option<Placing>>
    ensures row { IfOk result (λ found. IfSome found (λ placing. placing.item.row ≡ row)) }
    ensures replaces { IfOk result (λ found. IfSome found
        (λ placing. placing.replaces ≡ is_some (option_copied old.entry))) }
    ensures marked { IfOk result (λ found. IfSome found
        (λ placing. mark_found (option_copied old.entry) (path_mark rows.now path.now)
        ≡ Some (mark placing.item.list placing.item.own))) }
{
    match mark_found(rows, old, path) {
        Some(mark) => {
            let item = Item::new(alloc, row, mark.list, mark.own)?;
            Ok(Some(Placing {
                item,
                replaces: old.is_some(),
            }))
        }
        None => Ok(None),
    }
}

/// What a single edit puts, where it puts a row that is no access list.
fn edit_placing(alloc: Global, rows: &Rows, edit: &Edit) -> Mem<Option<Placing>>
    ensures { IfOk result (λ found. IfSome found (IsEditPlacing rows.now edit.now)) }
{
    let path = edit_path(edit);
    if path.is_acl() {
        return Ok(None);
    }
    let old = rows.find(path.as_str().as_bytes());
    match row_made(alloc, edit, row_of(old))? {
        Some(row) => {
            let found = placed_at(alloc, rows, old, path, row)?;
            Ok(found)
        }
        None => Ok(None),
    }
}

/// What an entry puts, where it does no more than put a single row that is no access list.
pub(crate) fn placing_of(alloc: Global, rows: &Rows, entry: &Entry) -> Mem<Option<Placing>>
    ensures { IfOk result (λ found. IfSome found (IsPlacing rows.now entry.now)) }
{
    match entry.edits.as_slice().split_first() {
        Some((edit, more)) => {
            if more.is_empty() {
                edit_placing(alloc, rows, edit)
            } else {
                Ok(None)
            }
        }
        None => Ok(None),
    }
}

/// The rows with the single item that is put, and its effect appended.
pub(crate) fn put_placing(
    alloc: Global,
    rows: Rows,
    seq: u64,
    placing: Placing,
    effects: &mut Vec<Effect>,
) -> Mem<Rows>
    requires { placing.replaces ≡ is_some (item_at rows placing.item.row.path) }
    ensures rows { IfOk result (λ new. new ≡ put_item rows placing.item) }
    ensures effects { OnOk result (effects.new.items ≡ effects.old.items
        ++ effect_on seq placing.item.row.path (put_kind placing.replaces) ∷ []) }
{
    let Placing { item, replaces } = placing;
    let effect = put_effect(alloc, seq, item.row(), replaces)?;
    effects.push(effect)?;
    let rows = rows.into_with(alloc, item, replaces)?;
    Ok(rows)
}
