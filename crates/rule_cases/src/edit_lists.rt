//! Cases of the edits of changes.

use crate::changes::after_text;
use crate::edit_words::edit_of;
use crate::row_text::row_text;
use crate::row_words::row_of;
use case_words::{number_of, path_or_root};
use pod_base::{List, Mem, Moment};
use pod_command::{Edit, Row};
use pod_edits::{change, creation, deletion, find_place, removal, replacement};
use pod_rows::{PlainRows, PodState};
use std::alloc::Global;

/// An edit: a word, and its row or its path.
fn edit_text(alloc: Global, edit: &Edit) -> Mem<String> {
    match edit {
        Edit::Put(row) => {
            let shown = row_text(alloc, row)?;
            Ok(format!(in alloc; "put {}", shown.as_str())?)
        }
        Edit::Change {
            path,
            change,
            modified,
        } => {
            let (removed, added) = (change.removed.len(), change.added.len());
            let moment = modified.0;
            Ok(format!(in alloc; "change {} {moment} -{removed} +{added}", path.as_str())?)
        }
        Edit::Touch { path, modified } => {
            let moment = modified.0;
            Ok(format!(in alloc; "touch {} {moment}", path.as_str())?)
        }
        Edit::Remove { path } => Ok(format!(in alloc; "remove {}", path.as_str())?),
    }
}

/// Edits with a comma after each.
fn push_edits(alloc: Global, edits: &[Edit]) -> Mem<String> {
    let mut text = String::new(alloc);
    for edit in edits {
        let shown = edit_text(alloc, edit)?;
        text.push_str(shown.as_str())?;
        text.push_str(", ")?;
    }
    Ok(text)
}

/// Edits, and the pod after them.
fn edits_text(alloc: Global, state: &PlainRows, edits: List<Edit>) -> Mem<String> {
    let text = push_edits(alloc, edits.as_slice());
    let after = after_text(alloc, state, edits);
    Ok(format!(in alloc; "{}then {}", text?, after?)?)
}

fn created<S: PodState>(alloc: Global, state: &S, row: Row) -> Mem<Option<List<Edit>>> {
    match state.find(&row.path) {
        Some(_) => Ok(None),
        None => {
            let place = find_place(alloc, state, &row.path)?;
            Ok(Some(creation(alloc, row, place)?))
        }
    }
}

/// The edits of a new row.
pub(crate) fn create(alloc: Global, state: &PlainRows, text: &str) -> Mem<String> {
    match created(alloc, state, row_of(alloc, text)?)? {
        Some(edits) => edits_text(alloc, state, edits),
        None => Ok(String::from_str(alloc, "a row")?),
    }
}

/// The edits of a row in place of another, or of a new access list or description.
pub(crate) fn replace(alloc: Global, state: &PlainRows, text: &str) -> Mem<String> {
    let edits = replacement(alloc, row_of(alloc, text)?)?;
    edits_text(alloc, state, edits)
}

/// The edits of a change of a row.
pub(crate) fn patch(alloc: Global, state: &PlainRows, text: &str) -> Mem<String> {
    match edit_of(alloc, text)? {
        Edit::Change {
            path,
            change: graphs,
            modified,
        } => {
            let edits = change(alloc, path, graphs, modified)?;
            edits_text(alloc, state, edits)
        }
        _ => Ok(String::from_str(alloc, "no case")?),
    }
}

/// The edits of a removal of what is no access list and no description.
pub(crate) fn delete(alloc: Global, state: &PlainRows, at: &str, moment: &str) -> Mem<String> {
    let at = path_or_root(alloc, at)?;
    let edits = deletion(alloc, state, &at, Moment(number_of(moment)))?;
    edits_text(alloc, state, edits)
}

/// The edits of a removal of an access list or a description.
pub(crate) fn remove(alloc: Global, state: &PlainRows, at: &str) -> Mem<String> {
    let edits = removal(alloc, path_or_root(alloc, at)?)?;
    edits_text(alloc, state, edits)
}
