//! Terms, patches, changes and updates as cases show them.

use case_words::shown_whole;
use graph_patch::{Patch, Pattern, Slot};
use pod_base::{List, Mem};
use rdf_graph::{Change, Term, Triple};
use sparql_patch::Named;
use std::alloc::Global;

/// The text of a term.
pub(crate) fn term(alloc: Global, term: &Term) -> Mem<String> {
    let mut text = Vec::new(alloc);
    term.append_to(alloc, &mut text)?;
    Ok(shown_whole(alloc, text.as_slice())?)
}

/// Appends a slot and a space.
fn push_slot(alloc: Global, text: &mut Vec<u8>, slot: &Slot) -> Mem<()> {
    match slot {
        Slot::Fixed(term) => term.append_to(alloc, text)?,
        Slot::Var(name) => {
            text.push(b'?')?;
            text.extend_from_slice(name.as_str().as_bytes())?;
        }
    }
    text.push(b' ')?;
    Ok(())
}

/// Appends patterns, each with a mark before it.
fn push_patterns(
    alloc: Global,
    text: &mut Vec<u8>,
    mark: &[u8],
    patterns: &List<Pattern>,
) -> Mem<()> {
    for pattern in patterns.as_slice() {
        text.extend_from_slice(mark)?;
        push_slot(alloc, text, &pattern.s)?;
        push_slot(alloc, text, &pattern.p)?;
        push_slot(alloc, text, &pattern.o)?;
    }
    Ok(())
}

/// The conditions with `? ` before each, then the deletions with `- ` and the insertions with `+ `.
pub(crate) fn patch(alloc: Global, patch: &Patch) -> Mem<String> {
    let mut text = Vec::new(alloc);
    push_patterns(alloc, &mut text, b"? ", &patch.conditions)?;
    push_patterns(alloc, &mut text, b"- ", &patch.deletions)?;
    push_patterns(alloc, &mut text, b"+ ", &patch.insertions)?;
    Ok(shown_whole(alloc, text.as_slice())?)
}

/// Appends a mark and a triple, with a space after each term.
fn push_triple(alloc: Global, text: &mut Vec<u8>, mark: &[u8], triple: &Triple) -> Mem<()> {
    text.extend_from_slice(mark)?;
    triple.s.append_to(alloc, text)?;
    text.push(b' ')?;
    triple.p.append_to(alloc, text)?;
    text.push(b' ')?;
    triple.o.append_to(alloc, text)?;
    text.push(b' ')?;
    Ok(())
}

/// Appends triples, each with a mark before it.
fn push_triples(alloc: Global, text: &mut Vec<u8>, mark: &[u8], triples: &[Triple]) -> Mem<()> {
    for triple in triples {
        push_triple(alloc, text, mark, triple)?;
    }
    Ok(())
}

/// What is removed with `- ` before each triple, then what is added with `+ `.
pub(crate) fn change(alloc: Global, change: &Change) -> Mem<String> {
    let mut text = Vec::new(alloc);
    push_triples(alloc, &mut text, b"- ", change.removed.as_slice())?;
    push_triples(alloc, &mut text, b"+ ", change.added.as_slice())?;
    Ok(shown_whole(alloc, text.as_slice())?)
}

/// What an update names, with `+ ` before an inserted triple and `- ` before a deleted one.
pub(crate) fn update(alloc: Global, named: &List<Named>) -> Mem<String> {
    let mut text = Vec::new(alloc);
    for naming in named.as_slice() {
        let mark: &[u8] = if naming.insert { b"+ " } else { b"- " };
        push_triple(alloc, &mut text, mark, &naming.triple)?;
    }
    Ok(shown_whole(alloc, text.as_slice())?)
}
