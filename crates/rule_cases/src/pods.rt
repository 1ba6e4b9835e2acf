//! Cases of a pod as it is.

ghost use Rattle.std.specs.Prelude.{◌≡◌};
ghost use Rattle.pod_rows.specs.Pod.{is_row};

use crate::pod_words::how_word;
use crate::row_text::{paths_text, row_text, yes_or_no};
use crate::row_words::BASE;
use acl_rules::Groups;
use case_words::{path_or_root, pod_iri, shown_whole};
use pod_base::Mem;
use pod_path::{Path, Taken};
use pod_rows::{PlainRows, PodState, container_view};
use rdf_graph::Term;
use std::alloc::Global;
use turtle_text::write;

/// Whether there is a row at the path, over any state.
fn is_taken<S: PodState>(state: &S, at: &Path) -> bool
    ensures { result ≡ is_row (S.pod state.now).rows at.now }
{
    state.taken(at)
}

fn found_text<S: PodState>(alloc: Global, state: &S, at: &Path) -> Mem<String> {
    match state.find(at) {
        Some(row) => row_text(alloc, row),
        None => {
            let taken = is_taken(state, at) || state.taken_text(at.as_str());
            Ok(String::from_str(alloc, if taken { "taken" } else { "none" })?)
        }
    }
}

/// The row at a path.
pub(crate) fn row(alloc: Global, state: &PlainRows, at: &str) -> Mem<String> {
    found_text(alloc, state, &path_or_root(alloc, at)?)
}

/// The children of a container.
pub(crate) fn children(alloc: Global, state: &PlainRows, at: &str) -> Mem<String> {
    let found = state.children(alloc, &path_or_root(alloc, at)?)?;
    paths_text(alloc, found.as_slice())
}

fn effective_text<S: PodState>(alloc: Global, state: &S, at: &Path) -> Mem<String> {
    let found = state.effective(at);
    let how = how_word(found.how);
    let mut text = format!(in alloc; "{} {how}", found.at.as_str())?;
    for rule in found.rules.list.as_slice() {
        if let Term::Iri(node) = &rule.node {
            text.push(' ')?;
            text.push_str(node.as_str())?;
        }
    }
    Ok(text)
}

/// The access list that governs a path, and the nodes of its rules.
pub(crate) fn effective(alloc: Global, state: &PlainRows, at: &str) -> Mem<String> {
    effective_text(alloc, state, &path_or_root(alloc, at)?)
}

/// The view of a container.
pub(crate) fn view(alloc: Global, state: &PlainRows, at: &str) -> Mem<String> {
    let graph = container_view(alloc, state, &path_or_root(alloc, at)?)?;
    let text = write(alloc, &graph)?;
    let shown = shown_whole(alloc, text.as_slice())?;
    Ok(format!(in alloc; "{} bytes: {shown}", text.len())?)
}

/// Whether an agent is a member of a group, by the document at a path.
pub(crate) fn member(
    alloc: Global,
    state: &PlainRows,
    doc: &str,
    group: &str,
    agent: &str,
) -> Mem<String> {
    let group = pod_iri(alloc, BASE, group)?;
    let agent = pod_iri(alloc, BASE, agent)?;
    let doc = path_or_root(alloc, doc)?;
    yes_or_no(alloc, state.member(&doc, group.as_str(), agent.as_str()))
}
