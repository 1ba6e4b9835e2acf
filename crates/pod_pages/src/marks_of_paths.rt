//! Resolves again which list governs rows.
ghost use Rattle.std.specs.Prelude.{◌≡◌, ◌||◌, IfOk, IsTrue, List, ℕ, Bool, Some, bytes_eq};
ghost use Rattle.std.specs.Prelude.{is_some};
ghost use Rattle.access_index.specs.Listing.{is_listed};
ghost use Rattle.row_pages.specs.Items.{item_at, put_item};
ghost use Rattle.pod_pages.specs.Marks.{mark, with_mark};
ghost use Rattle.pod_pages.specs.Numbering.{AreMarked, HaveMarks, is_below};

use crate::mark_all_rows::{is_most, marked_whole};
use crate::row_marks::{Mark, path_mark};
use pod_base::Mem;
use pod_path::Path;
use row_pages::{Item, Rows};
use std::alloc::Global;

/// Whether the item at a path has the mark already.
fn is_marked(item: &Item, by: Mark) -> bool
    ensures { IsTrue result → mark item.now.list item.now.own ≡ by }
{
    item.list() == by.list && item.is_own() == by.own
}

/// The rows with the mark at the path of an item of theirs. Nothing is put where the item has it
/// already.
pub(crate) fn put_marked(alloc: Global, rows: &Rows, item: &Item, by: Mark) -> Mem<Rows>
    ensures { IfOk result (λ new. item_at rows.now item.now.row.path ≡ Some item.now
        → new ≡ put_item rows.now (with_mark item.now (Some by))) }
{
    rows.are_in_order();
    if is_marked(item, by) {
        let same = rows.share(alloc)?;
        return Ok(same);
    }
    let marked = item.governed_by(by.list, by.own)?;
    let next = rows.put(alloc, &marked)?;
    Ok(next)
}

/// The rows with the one at a path, if there is one, marked by the lists of `numbers`.
fn marked_at(alloc: Global, numbers: &Rows, rows: &Rows, path: &Path) -> Mem<Rows>
    ensures { IfOk result (λ new. (done : List ℕ → Bool) → HaveMarks numbers.now
        → AreMarked numbers.now done rows.now
        → AreMarked numbers.now (λ p. bytes_eq path.now p || done p) new) }
{
    rows.are_in_order();
    match rows.find(path.as_str().as_bytes()) {
        Some(item) => match path_mark(numbers, path) {
            Some(mark) => {
                let next = put_marked(alloc, rows, item, mark)?;
                Ok(next)
            }
            None => {
                let same = rows.share(alloc)?;
                Ok(same)
            }
        },
        None => {
            let same = rows.share(alloc)?;
            Ok(same)
        }
    }
}

/// The rows with those at these paths marked by the lists of `numbers`.
pub(crate) fn marked_paths(alloc: Global, numbers: &Rows, rows: &Rows, paths: &[Path]) -> Mem<Rows>
    ensures { IfOk result (λ new. (done : List ℕ → Bool) → HaveMarks numbers.now
        → AreMarked numbers.now done rows.now
        → AreMarked numbers.now (λ p. is_listed paths.now p || done p) new) }
{
    let mut now = rows.share(alloc)?;
    for path in paths {
        let next = marked_at(alloc, numbers, &now, path)?;
        now = next;
    }
    Ok(now)
}

/// The rows with those at the paths of these items marked by the lists of `numbers`.
fn marked_items(alloc: Global, numbers: &Rows, rows: &Rows, items: &[Item]) -> Mem<Rows>
    ensures { IfOk result (λ new. (done : List ℕ → Bool) → HaveMarks numbers.now
        → AreMarked numbers.now done rows.now
        → AreMarked numbers.now (λ p. is_some (item_at items.now p) || done p) new) }
{
    if is_most(items.len(), numbers.len()) {
        let whole = marked_whole(alloc, numbers)?;
        return Ok(whole);
    }
    let mut now = rows.share(alloc)?;
    for item in items {
        let next = marked_at(alloc, numbers, &now, &item.row().path)?;
        now = next;
    }
    Ok(now)
}

/// The rows with those whose paths begin with a subject's marked by the lists of `numbers`.
pub(crate) fn marked_below(
    alloc: Global,
    numbers: &Rows,
    rows: &Rows,
    subjects: &[Path],
) -> Mem<Rows>
    ensures { IfOk result (λ new. (done : List ℕ → Bool) → HaveMarks numbers.now
        → AreMarked numbers.now done rows.now
        → AreMarked numbers.now (λ p. is_below subjects.now p || done p) new) }
{
    let mut now = rows.share(alloc)?;
    for subject in subjects {
        let items = numbers.below(alloc, subject.as_str().as_bytes())?;
        let next = marked_items(alloc, numbers, &now, items.as_slice())?;
        now = next;
    }
    Ok(now)
}
