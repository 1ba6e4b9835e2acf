//! How states and versions are shown.

use crate::pod_words::how_word;
use crate::row_words::kind_word;
use pod_base::Mem;
use pod_command::{Content, Row};
use pod_pages::{EffectKind, Version};
use pod_path::Path;
use pod_rows::{Effective, PodState};
use rdf_graph::Term;
use std::alloc::Global;

/// The last part of a rule's node.
fn push_node(text: &mut String, node: &Term) -> Mem<()> {
    if let Term::Iri(iri) = node {
        if let Some((_, number)) = iri.as_str().split_once('#') {
            text.push_str(number)?;
        }
    }
    Ok(())
}

/// The path whose list it is, how it governs, and the numbers of its rules.
fn effective_text(alloc: Global, found: &Effective<'_>) -> Mem<String> {
    let how = how_word(found.how);
    let mut text = format!(in alloc; "{} {how} ", found.at.as_str())?;
    for rule in found.rules.list.as_slice() {
        push_node(&mut text, &rule.node)?;
    }
    Ok(text)
}

/// A row as its path, its kind, its moment, and how much it holds.
fn row_text(alloc: Global, row: &Row) -> Mem<String> {
    let kind = kind_word(row.kind);
    let size = match &row.content {
        Content::Graph(stored) => stored.graph().as_slice().len(),
        Content::Bytes { ctype: _, bytes } => bytes.as_slice().len(),
    };
    let moment = row.modified.0;
    Ok(format!(in alloc; "{} {kind} {moment} {size}", row.path.as_str())?)
}

/// Appends what a state has at a path.
fn push_place<S: PodState>(alloc: Global, text: &mut String, state: &S, path: &Path) -> Mem<()> {
    if let Some(row) = state.find(path) {
        let shown = row_text(alloc, row)?;
        text.push_str(shown.as_str())?;
    }
    let governs = effective_text(alloc, &state.effective(path))?;
    let taken = state.taken(path) && state.taken_text(path.as_str());
    let member = state.member(path, "http://e.example/group", state.owner().as_str());
    let shown = format!(in alloc; " {} {taken} {member}:", governs.as_str())?;
    text.push_str(shown.as_str())?;
    let children = state.children(alloc, path)?;
    for child in children.as_slice() {
        text.push_str(child.as_str())?;
        text.push(' ')?;
    }
    text.push_str("; ")?;
    Ok(())
}

/// What a state has at a path.
pub(crate) fn place_text<S: PodState>(alloc: Global, state: &S, path: &Path) -> Mem<String> {
    let mut text = String::new(alloc);
    push_place(alloc, &mut text, state, path)?;
    Ok(text)
}

/// All that a state has at these paths, and its rows.
fn state_text<S: PodState>(alloc: Global, state: &S, paths: &[Path]) -> Mem<String> {
    let (count, next) = (state.count(), state.next());
    let mut text = format!(in alloc;
        "{count} {next} {} {}: ",
        state.base().as_str(),
        state.owner().as_str()
    )?;
    for path in paths {
        push_place(alloc, &mut text, state, path)?;
    }
    let rows = state.rows(alloc)?;
    for row in rows.as_slice() {
        let shown = row_text(alloc, row)?;
        text.push_str(shown.as_str())?;
        text.push('|')?;
    }
    Ok(text)
}

/// Whether two states have the same at these paths, and the same rows.
pub(crate) fn is_same<S: PodState, T: PodState>(
    alloc: Global,
    one: &S,
    other: &T,
    paths: &[Path],
) -> Mem<bool> {
    let wanted = state_text(alloc, one, paths)?;
    let found = state_text(alloc, other, paths)?;
    Ok(found.as_str() == wanted.as_str())
}

/// What governs each row of a version.
pub(crate) fn access_text(alloc: Global, version: &Version) -> Mem<String> {
    let mut text = String::new(alloc);
    let rows = version.rows(alloc)?;
    for row in rows.as_slice() {
        let found = effective_text(alloc, &version.effective(&row.path))?;
        let shown = format!(in alloc; "{}: {}; ", row.path.as_str(), found.as_str())?;
        text.push_str(shown.as_str())?;
    }
    Ok(text)
}

fn effect_name(kind: EffectKind) -> &'static str {
    match kind {
        EffectKind::Create => "create",
        EffectKind::Update => "update",
        EffectKind::Delete => "delete",
    }
}

/// The effects that a version keeps.
pub(crate) fn effects_text(alloc: Global, version: &Version) -> Mem<String> {
    let mut text = format!(in alloc; "from {}:", version.oldest())?;
    for effect in version.effects() {
        let name = effect_name(effect.kind);
        let shown = format!(in alloc; " {} {name} {}", effect.seq, effect.path.as_str())?;
        text.push_str(shown.as_str())?;
    }
    Ok(text)
}
