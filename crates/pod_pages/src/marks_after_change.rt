//! Which list governs each row after a change of some rows.
ghost use Rattle.std.specs.Prelude.{◌≡◌, ◌||◌, IfOk, false};
ghost use Rattle.access_index.specs.Listing.{is_listed};
ghost use Rattle.access_index.specs.Tables.{ArePlain, list_subjects};
ghost use Rattle.row_pages.specs.Items.{rows_of};
ghost use Rattle.pod_pages.specs.Numbering.{AreMarked, AreReady, AreResolved, HaveMarks};
ghost use Rattle.pod_pages.specs.Numbering.{is_below};

use crate::list_numbers::{changed_subjects, free_gone, numbered};
use crate::list_table::ListTable;
use crate::mark_all_rows::{is_most, marked_whole};
use crate::marks_of_paths::{marked_below, marked_paths};
use access_index::list_subjects;
use iri_ref::Iri;
use pod_base::Mem;
use pod_path::Path;
use row_pages::Rows;
use std::alloc::Global;

/// Rows with the marks of the lists that govern them, and the table of these lists.
#[derive(Drop)]
pub(crate) struct Resolved {
    pub rows: Rows,
    pub table: ListTable,
}

/// The rows after a change of lists, where all that it reaches is marked anew.
fn marked(
    alloc: Global,
    numbers: &Rows,
    touched: &[Path],
    subjects: &[Path],
    changed: &[Path],
) -> Mem<Rows>
    ensures { IfOk result (λ new. HaveMarks numbers.now → AreMarked numbers.now
        (λ p. is_below changed.now p || (is_listed subjects.now p
        || (is_listed touched.now p || false))) new) }
{
    if is_most(touched.len(), numbers.len()) {
        let whole = marked_whole(alloc, numbers)?;
        return Ok(whole);
    }
    let first = marked_paths(alloc, numbers, numbers, touched)?;
    let second = marked_paths(alloc, numbers, &first, subjects)?;
    let third = marked_below(alloc, numbers, &second, changed)?;
    Ok(third)
}

/// The rows and their lists after a change of the access lists of some subjects.
fn relisted(
    alloc: Global,
    base: &Iri,
    old: &Rows,
    table: &ListTable,
    rows: &Rows,
    touched: &[Path],
    subjects: &[Path],
) -> Mem<Resolved>
    ensures rows { IfOk result (λ new. AreReady base.now old.now table.now rows.now touched.now
        → subjects.now ≡ list_subjects touched.now → ArePlain subjects.now
        → rows_of new.rows ≡ rows_of rows.now) }
    ensures resolved { IfOk result (λ new.
        AreReady base.now old.now table.now rows.now touched.now
        → subjects.now ≡ list_subjects touched.now → ArePlain subjects.now
        → AreResolved base.now new.rows new.table) }
{
    let mut places = table.copy_places(alloc)?;
    free_gone(alloc, old, rows, &mut places, subjects)?;
    let numbers = numbered(alloc, base, rows, &mut places, subjects)?;
    let changed = changed_subjects(alloc, old, rows, subjects)?;
    let rows = marked(alloc, &numbers, touched, subjects, changed.as_slice())?;
    let table = ListTable::new(alloc, places)?;
    Ok(Resolved { rows, table })
}

/// The rows and their lists after a change of the rows at some paths: they have the marks of the
/// old rows, whose lists are those of the table. Without a changed list the table is shared.
pub(crate) fn marked_again(
    alloc: Global,
    base: &Iri,
    old: &Rows,
    table: &ListTable,
    rows: &Rows,
    touched: &[Path],
) -> Mem<Resolved>
    ensures rows { IfOk result (λ new. AreReady base.now old.now table.now rows.now touched.now
        → rows_of new.rows ≡ rows_of rows.now) }
    ensures resolved { IfOk result (λ new.
        AreReady base.now old.now table.now rows.now touched.now
        → AreResolved base.now new.rows new.table) }
{
    let subjects = list_subjects(alloc, touched)?;
    if subjects.is_empty() {
        let rows = marked_paths(alloc, rows, rows, touched)?;
        let table = table.share()?;
        return Ok(Resolved { rows, table });
    }
    let resolved = relisted(alloc, base, old, table, rows, touched, subjects.as_slice())?;
    Ok(resolved)
}
