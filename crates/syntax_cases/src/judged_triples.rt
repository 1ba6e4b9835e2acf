//! Cases of `n3_patch::judge`. Triples are separated by `;`: three words, before which `N|` says
//! that the triple stands in the formula of that number.

use crate::nodes::{node, words_of};
use crate::print;
use n3_patch::{Judgement, PatchTriple, judge};
use pod_base::{Mem, NoMemory};
use std::alloc::Global;

/// Appends the triple of a text.
fn push_triple(alloc: Global, triples: &mut Vec<PatchTriple>, text: &str) -> Mem<()> {
    let (formula, words) = match text.split_once('|') {
        Some((number, words)) => (Some(number.parse::<usize>().unwrap_or(0)), words),
        None => (None, text),
    };
    let (subject, predicate, object) = words_of(words);
    triples.push(PatchTriple {
        subject: node(alloc, subject)?,
        predicate: node(alloc, predicate)?,
        object: node(alloc, object)?,
        formula,
    })?;
    Ok(())
}

fn triples(alloc: Global, field: &str) -> Mem<Vec<PatchTriple>> {
    let mut triples = Vec::new(alloc);
    for text in field.split(';') {
        if !text.is_empty() {
            push_triple(alloc, &mut triples, text)?;
        }
    }
    Ok(triples)
}

/// The patch of the triples of a field, or the first broken rule.
pub(crate) fn judged(alloc: Global, field: &str) -> Mem<String> {
    let triples = triples(alloc, field)?;
    match judge(alloc, triples.as_slice()) {
        Ok(patch) => print::patch(alloc, &patch),
        Err(Judgement::Broken(rule)) => Ok(format!(in alloc; "{rule:?}")?),
        Err(Judgement::TooLarge) => Ok(String::from_str(alloc, "too large")?),
        Err(Judgement::NoMemory) => Err(NoMemory),
    }
}
