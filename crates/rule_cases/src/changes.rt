//! Cases of changes of a pod.

use crate::edit_words::{edit_of, entry_of};
use crate::row_text::{rows_text, yes_or_no};
use case_words::number_of;
use pod_base::{List, Mem};
use pod_command::{Edit, Entry};
use pod_records::fits as fits_touched;
use pod_rows::{PlainRows, PodState, fits, snapshot};
use std::alloc::Global;

/// The entry of the edits of these texts.
fn entry_of_texts(alloc: Global, seq: &str, texts: &[&str]) -> Mem<Entry> {
    let mut edits = Vec::new(alloc);
    for text in texts {
        edits.push(edit_of(alloc, text)?)?;
    }
    entry_of(alloc, number_of(seq), List::from_vec(edits))
}

/// The state after an entry, if it applies.
fn applied(alloc: Global, state: &PlainRows, entry: &Entry) -> Mem<Option<PlainRows>> {
    if fits(alloc, state, entry)? {
        Ok(Some(state.after(alloc, entry)?))
    } else {
        Ok(None)
    }
}

fn state_text<S: PodState>(alloc: Global, state: &S) -> Mem<String> {
    let snapshot = snapshot(alloc, state)?;
    let rows = rows_text(alloc, snapshot.rows.as_slice())?;
    let (count, next) = (state.count(), snapshot.seq);
    Ok(format!(in alloc; "{count} rows, next {next}: {rows}")?)
}

/// The pod after an entry. Both tests of whether it applies say the same.
fn applied_text(alloc: Global, state: &PlainRows, entry: &Entry) -> Mem<String> {
    let touched = fits_touched(alloc, state, entry)?;
    match applied(alloc, state, entry)? {
        Some(after) if touched => state_text(alloc, &after),
        None if !touched => Ok(String::from_str(alloc, "doesn't apply")?),
        _ => Ok(String::from_str(alloc, "the tests differ")?),
    }
}

/// The pod after an entry of these edits with the next number.
pub(crate) fn after_text(alloc: Global, state: &PlainRows, edits: List<Edit>) -> Mem<String> {
    let entry = entry_of(alloc, state.next(), edits)?;
    applied_text(alloc, state, &entry)
}

/// The pod after an entry.
pub(crate) fn after(alloc: Global, state: &PlainRows, seq: &str, edits: &[&str]) -> Mem<String> {
    let entry = entry_of_texts(alloc, seq, edits)?;
    applied_text(alloc, state, &entry)
}

/// Whether an entry applies to the pod that it makes.
pub(crate) fn twice(alloc: Global, state: &PlainRows, seq: &str, edits: &[&str]) -> Mem<String> {
    let entry = entry_of_texts(alloc, seq, edits)?;
    match applied(alloc, state, &entry)? {
        Some(after) => yes_or_no(alloc, fits(alloc, &after, &entry)?),
        None => Ok(String::from_str(alloc, "doesn't apply")?),
    }
}
