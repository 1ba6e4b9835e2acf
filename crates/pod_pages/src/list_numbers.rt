//! Gives numbers to access lists that are new, and frees the numbers of those that are gone.
ghost use Rattle.std.specs.Prelude.{◌≡◌, ◌∷◌, [], IfOk, OnOk, List, ℕ};
ghost use Rattle.std.specs.Prelude.{Bool, None};
ghost use Rattle.std.specs.Prelude.{false, true, if◌then◌else◌, length, option_copied};
ghost use Rattle.std.specs.Prelude.{bytes_eq, string_bytes};
ghost use Rattle.std.specs.List.{AllByRecursion};
ghost use Rattle.pod_rows.specs.Access.{has_own_list, list_path};
ghost use Rattle.pod_rows.specs.Pod.{row_at};
ghost use Rattle.access_index.specs.Listing.{is_listed};
ghost use Rattle.row_pages.specs.Items.{Placed, item_at, rows_of};
ghost use Rattle.pod_pages.specs.Lists.{list_at};
ghost use Rattle.pod_pages.specs.Numbering.{AreNumbered, IsNumberFor, IsTree, Places};
ghost use Rattle.pod_pages.specs.Numbering.{changed_of, is_changed, is_freed, is_number, frees};
ghost use Rattle.pod_pages.specs.Numbering.{list_rules, rules_found, rules_if};

use crate::list_table::{AccessList, Place, SharedList, free_list, free_number, set_list};
use crate::marks_of_paths::put_marked;
use crate::row_marks::{Mark, own_number};
use acl_rules::Rules;
use iri_ref::Iri;
use pod_base::{Mem, NoMemory};
use pod_command::Row;
use pod_path::Path;
use pod_rows::rules_in;
use row_pages::{Item, Rows};
use std::alloc::Global;

/// The text of the path of a subject's access list, which has a number.
fn list_path(alloc: Global, subject: &Path) -> Mem<String>
    ensures { IfOk result (λ text. string_bytes text ≡ list_path subject.now) }
{
    let text = subject.as_str();
    let mut path = String::with_capacity(alloc, text.len().saturating_add(4))?;
    path.push_str(text)?;
    path.push_str(".acl")?;
    Ok(path)
}

/// The row of a subject's access list, which has a number.
fn list_row<'a>(alloc: Global, rows: &'a Rows, subject: &Path) -> Mem<Option<&'a Row>>
    ensures { IfOk result (λ row. option_copied row
        ≡ row_at (rows_of rows.entry.now) (list_path subject.now)) }
{
    let path = list_path(alloc, subject)?;
    match rows.find(path.as_str().as_bytes()) {
        Some(item) => Ok(Some(item.row())),
        None => Ok(None),
    }
}

/// Whether the subject has an access list of its own, which has a number.
fn has_own_list(alloc: Global, rows: &Rows, subject: &Path) -> Mem<bool>
    ensures { IfOk result (λ has. has ≡ has_own_list (rows_of rows.now) subject.now) }
{
    let path = list_path(alloc, subject)?;
    Ok(rows.find(path.as_str().as_bytes()).is_some())
}

/// The rules of a subject's access list, if it has one that gets a number.
fn list_rules(alloc: Global, base: &Iri, rows: &Rows, subject: &Path) -> Mem<Option<Rules>>
    ensures { IfOk result (λ rules. rules_if rules
        ≡ rules_found base.now (row_at (rows_of rows.now) (list_path subject.now))) }
{
    match list_row(alloc, rows, subject)? {
        Some(row) => {
            let rules = rules_in(alloc, base, &row.content)?;
            Ok(Some(rules))
        }
        None => Ok(None),
    }
}

/// The number of an access list as an item has it.
fn item_number(number: usize) -> Mem<u32>
    ensures { IfOk result (λ same. same ≡ number) }
{
    match u32::try_from(number) {
        Ok(number) => Ok(number),
        Err(_) => Err(NoMemory),
    }
}

/// The number for an item's access list, its own where it has one, and else a free one.
fn number_for(item: &Item, places: &[Place]) -> Mem<u32>
    ensures { IfOk result (λ number. IsNumberFor item.now places.now number) }
{
    if item.is_own() {
        return Ok(item.list());
    }
    item_number(free_number(places))
}

/// The rows and the numbered lists with the list of a subject that is a row.
fn with_list(
    alloc: Global,
    rows: &Rows,
    places: &mut Vec<Place>,
    subject: &Path,
    rules: Rules,
) -> Mem<Rows>
    ensures numbered { IfOk result (λ new. (base : List ℕ) (first : List Placed)
        (pending : List (List ℕ)) → IsTree (rows_of first)
        → has_own_list (rows_of first) subject.now ≡ true
        → rules.list ≡ list_rules base (rows_of first) subject.now
        → AreNumbered base first (subject.now ∷ pending) rows.now places.old.items
        → AreNumbered base first pending new places.new.items) }
    ensures others { IfOk result (λ new. (path : List ℕ) → bytes_eq subject.now path ≡ false
        → item_at new path ≡ item_at rows.now path) }
{
    rows.are_in_order();
    match rows.find(subject.as_str().as_bytes()) {
        Some(item) => {
            let number = number_for(item, places.as_slice())?;
            let at = subject.copy(alloc)?;
            let list = SharedList::new(alloc, AccessList { at, rules })?;
            set_list(places, number as usize, list)?;
            let mark = Mark {
                list: number,
                own: true,
            };
            let next = put_marked(alloc, rows, item, mark)?;
            Ok(next)
        }
        None => {
            let same = rows.share(alloc)?;
            Ok(same)
        }
    }
}

/// The rows where the subject's row has no list of its own, and no number of one.
fn without_list(alloc: Global, rows: &Rows, subject: &Path) -> Mem<Rows>
    ensures numbered { IfOk result (λ new. (base : List ℕ) (first : List Placed)
        (pending : List (List ℕ)) (places : Places)
        → has_own_list (rows_of first) subject.now ≡ false
        → AreNumbered base first (subject.now ∷ pending) rows.now places
        → AreNumbered base first pending new places) }
    ensures others { IfOk result (λ new. (path : List ℕ) → bytes_eq subject.now path ≡ false
        → item_at new path ≡ item_at rows.now path) }
{
    rows.are_in_order();
    match rows.find(subject.as_str().as_bytes()) {
        Some(item) => {
            let mark = Mark {
                list: item.list(),
                own: false,
            };
            let next = put_marked(alloc, rows, item, mark)?;
            Ok(next)
        }
        None => {
            let same = rows.share(alloc)?;
            Ok(same)
        }
    }
}

/// The rows and the numbered lists where the subject has a list exactly if its list is a row.
fn numbered_one(
    alloc: Global,
    base: &Iri,
    rows: &Rows,
    places: &mut Vec<Place>,
    subject: &Path,
) -> Mem<Rows>
    ensures numbered { IfOk result (λ new. (first : List Placed) (pending : List (List ℕ))
        → IsTree (rows_of first)
        → AreNumbered base.now first (subject.now ∷ pending) rows.now places.old.items
        → AreNumbered base.now first pending new places.new.items) }
    ensures others { IfOk result (λ new. (path : List ℕ) → bytes_eq subject.now path ≡ false
        → item_at new path ≡ item_at rows.now path) }
{
    let found = list_rules(alloc, base, rows, subject)?;
    match found {
        Some(rules) => {
            let next = with_list(alloc, rows, places, subject, rules)?;
            Ok(next)
        }
        None => {
            let next = without_list(alloc, rows, subject)?;
            Ok(next)
        }
    }
}

/// The rows and the numbered lists where each of the subjects has a list exactly if its list is a
/// row.
pub(crate) fn numbered(
    alloc: Global,
    base: &Iri,
    rows: &Rows,
    places: &mut Vec<Place>,
    subjects: &[Path],
) -> Mem<Rows>
    ensures numbered { IfOk result (λ new. IsTree (rows_of rows.now)
        → AreNumbered base.now rows.now subjects.now rows.now places.old.items
        → AreNumbered base.now rows.now [] new places.new.items) }
    ensures others { IfOk result (λ new. (path : List ℕ) → is_listed subjects.now path ≡ false
        → item_at new path ≡ item_at rows.now path) }
{
    let mut now = rows.share(alloc)?;
    for subject in subjects {
        let next = numbered_one(alloc, base, &now, places, subject)?;
        now = next;
    }
    Ok(now)
}

/// Frees the number of an access list, if there is one.
fn free_some(places: &mut Vec<Place>, number: Option<u32>)
    ensures { (k : ℕ) → list_at places.new.items k
        ≡ (if is_number k number then None else list_at places.old.items k) }
{
    match number {
        Some(number) => free_list(places, number as usize),
        None => {}
    }
}

/// Frees the number of a subject's access list, where it is no row any more.
fn free_one(
    alloc: Global,
    old: &Rows,
    rows: &Rows,
    places: &mut Vec<Place>,
    subject: &Path,
) -> Mem<()>
    ensures { OnOk result ((k : ℕ) → list_at places.new.items k
        ≡ (if frees (rows_of rows.now) old.now k subject.now then None
        else list_at places.old.items k)) }
{
    if has_own_list(alloc, rows, subject)? {
        return Ok(());
    }
    free_some(places, own_number(old, subject.as_str().as_bytes()));
    Ok(())
}

/// Frees the numbers of the subjects' access lists that are no rows any more.
pub(crate) fn free_gone(
    alloc: Global,
    old: &Rows,
    rows: &Rows,
    places: &mut Vec<Place>,
    subjects: &[Path],
) -> Mem<()>
    ensures { OnOk result ((k : ℕ) → list_at places.new.items k
        ≡ (if is_freed (rows_of rows.now) old.now subjects.now k then None
        else list_at places.old.items k)) }
{
    for subject in subjects {
        free_one(alloc, old, rows, places, subject)?;
    }
    Ok(())
}

/// Whether the subject's access list came or went, so that numbers change.
fn is_changed(alloc: Global, old: &Rows, rows: &Rows, subject: &Path) -> Mem<bool>
    ensures { IfOk result (λ changed. changed
        ≡ is_changed (rows_of old.now) (rows_of rows.now) subject.now) }
{
    let before = has_own_list(alloc, old, subject)?;
    let after = has_own_list(alloc, rows, subject)?;
    if before { Ok(!after) } else { Ok(after) }
}

/// The subjects whose access lists came or went, so that numbers change.
pub(crate) fn changed_subjects(
    alloc: Global,
    old: &Rows,
    rows: &Rows,
    subjects: &[Path],
) -> Mem<Vec<Path>>
    ensures { IfOk result (λ changed. changed.items
        ≡ changed_of (rows_of old.now) (rows_of rows.now) subjects.now) }
{
    let mut changed = Vec::new(alloc);
    for subject in subjects {
        if is_changed(alloc, old, rows, subject)? {
            let subject = subject.copy(alloc)?;
            changed.push(subject)?;
        }
    }
    Ok(changed)
}
