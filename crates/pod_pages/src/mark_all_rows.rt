//! Resolves which list governs each row, at once: the pages are built anew, and none is replaced.
ghost use Rattle.std.specs.Prelude.{◌≡◌, ◌<◌, ◌/◌, ◌↔◌, IfOk, IsTrue, List, ℕ, Bool, Some, map};
ghost use Rattle.row_pages.specs.Items.{item_at};
ghost use Rattle.pod_pages.specs.Marks.{marked_by, number_within, path_mark, text_above};
ghost use Rattle.pod_pages.specs.Numbering.{AreMarked, HaveMarks};

use crate::limits::MARKED_SHARE;
use crate::row_marks::{Mark, mark_by, number_within, own_of, path_mark};
use pod_base::Mem;
use pod_path::{parent_text, subject_text};
use row_pages::{Item, Rows};
use std::alloc::Global;

/// Whether so many of the rows are to be marked that all are better marked at once.
pub(crate) fn is_most(part: usize, whole: usize) -> bool
    ensures { IsTrue result ↔ (whole / MARKED_SHARE < part) }
{
    whole / MARKED_SHARE < part
}

/// The number that a container hands down when all rows are marked, where `known` is that of
/// another one.
fn handed_down(numbers: &Rows, container: &[u8], other: &[u8], known: Option<u32>) -> Option<u32>
    requires { known ≡ number_within numbers.now other.now }
    ensures { result ≡ number_within numbers.now container.now }
{
    if container == other {
        return known;
    }
    number_within(numbers, container)
}

/// The mark of an item of `numbers` when all rows are marked; the container above it hands down the
/// number `above`.
fn item_mark(numbers: &Rows, item: &Item, above: Option<u32>) -> Option<Mark>
    requires found { item_at numbers.now item.now.row.path ≡ Some item.now }
    requires above { above ≡ number_within numbers.now (text_above item.now.row.path) }
    ensures { result ≡ path_mark numbers.now item.now.row.path }
{
    let path = &item.row().path;
    if path.is_root() {
        return path_mark(numbers, path);
    }
    if subject_text(path.as_str()).is_some() {
        return path_mark(numbers, path);
    }
    mark_by(own_of(Some(item)), above)
}

/// The item of `numbers` with its mark when all rows are marked; the container above it hands down
/// the number `above`.
fn marked_item(numbers: &Rows, item: &Item, above: Option<u32>) -> Mem<Item>
    requires found { item_at numbers.now item.now.row.path ≡ Some item.now }
    requires above { above ≡ number_within numbers.now (text_above item.now.row.path) }
    ensures { IfOk result (λ marked. marked ≡ marked_by numbers.now item.now) }
{
    match item_mark(numbers, item, above) {
        Some(mark) => item.governed_by(mark.list, mark.own),
        None => item.copy(),
    }
}

/// All items of `numbers`, each with its mark. Neighbours share what their container hands down.
fn marked_copies(alloc: Global, numbers: &Rows, items: &[Item]) -> Mem<Vec<Item>>
    requires { items.now ≡ numbers.now }
    ensures { IfOk result (λ marked. marked.items ≡ map (marked_by numbers.now) items.now) }
{
    numbers.are_in_order();
    let mut marked = Vec::with_capacity(alloc, items.len())?;
    let mut container: &[u8] = b"";
    let mut list = number_within(numbers, container);
    for item in items {
        let above = parent_text(item.row().path.as_str()).as_bytes();
        list = handed_down(numbers, above, container, list);
        container = above;
        let copy = marked_item(numbers, item, list)?;
        marked.push(copy)?;
    }
    Ok(marked)
}

/// All rows of `numbers`, marked at once by its lists.
pub(crate) fn marked_whole(alloc: Global, numbers: &Rows) -> Mem<Rows>
    ensures { IfOk result (λ new. (done : List ℕ → Bool) → HaveMarks numbers.now
        → AreMarked numbers.now done new) }
{
    numbers.are_in_order();
    let items = numbers.below(alloc, b"")?;
    let marked = marked_copies(alloc, numbers, items.as_slice())?;
    let all = Rows::of(alloc, marked.as_slice())?;
    Ok(all)
}
