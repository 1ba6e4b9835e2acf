//! Cases of what is in the way of a change.

use crate::row_text::{paths_text, yes_or_no};
use crate::row_words::graph_of;
use case_words::{number_of, path_or_root};
use pod_base::Mem;
use pod_edits::{
    breaks_guard, exceeds_rows, find_place, has_children, is_bytes, lacks_number, lacks_subject,
    meets_twin, states_containment,
};
use pod_path::Path;
use pod_rows::{PlainRows, PodState};
use std::alloc::Global;

fn place_text<S: PodState>(alloc: Global, state: &S, at: &Path) -> Mem<String> {
    match state.find(at) {
        Some(_) => Ok(String::from_str(alloc, "a row")?),
        None => {
            let place = find_place(alloc, state, at)?;
            let missing = paths_text(alloc, place.missing.as_slice())?;
            Ok(format!(in alloc;
                "under {}, missing {}",
                place.nearest.as_str(),
                missing.as_str()
            )?)
        }
    }
}

/// The nearest container above a path, and the missing ones.
pub(crate) fn place(alloc: Global, state: &PlainRows, at: &str) -> Mem<String> {
    place_text(alloc, state, &path_or_root(alloc, at)?)
}

fn twin_text<S: PodState>(alloc: Global, state: &S, at: &Path) -> Mem<String> {
    match state.find(at) {
        Some(_) => Ok(String::from_str(alloc, "a row")?),
        None => {
            let place = find_place(alloc, state, at)?;
            yes_or_no(alloc, meets_twin(alloc, state, at, &place)?)
        }
    }
}

/// Whether a twin is in the way of a new path.
pub(crate) fn twin(alloc: Global, state: &PlainRows, at: &str) -> Mem<String> {
    twin_text(alloc, state, &path_or_root(alloc, at)?)
}

/// Whether the subject of a path is a row, where it has one.
pub(crate) fn subject(alloc: Global, state: &PlainRows, at: &str) -> Mem<String> {
    yes_or_no(alloc, !lacks_subject(state, &path_or_root(alloc, at)?))
}

/// Whether a path has no children, or that its row holds bytes.
pub(crate) fn empty(alloc: Global, state: &PlainRows, at: &str) -> Mem<String> {
    let at = path_or_root(alloc, at)?;
    if state.find(&at).is_some_and(|row| is_bytes(row.kind)) {
        return Ok(String::from_str(alloc, "bytes")?);
    }
    yes_or_no(alloc, !has_children(alloc, state, &at)?)
}

/// Whether there is room for so many rows more, and a number for a change.
pub(crate) fn room(alloc: Global, state: &PlainRows, added: &str) -> Mem<String> {
    if lacks_number(state) {
        return Ok(String::from_str(alloc, "no number")?);
    }
    let added = number_of(added).min(99_999) as usize;
    yes_or_no(alloc, !exceeds_rows(state, added))
}

/// Whether a graph at a path states what a container contains.
pub(crate) fn contains(alloc: Global, at: &str, text: &str) -> Mem<String> {
    let path = path_or_root(alloc, at)?;
    let graph = graph_of(alloc, text)?;
    yes_or_no(alloc, states_containment(&path, graph.as_slice()))
}

/// Whether a graph at a path breaks the guard.
pub(crate) fn guard(alloc: Global, state: &PlainRows, at: &str, text: &str) -> Mem<String> {
    let path = path_or_root(alloc, at)?;
    let graph = graph_of(alloc, text)?;
    yes_or_no(alloc, breaks_guard(state, &path, graph.as_slice()))
}
