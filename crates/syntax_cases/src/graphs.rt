//! Cases of `rdf_graph` and `graph_patch`: graphs, changes and patches. A graph or a list of
//! patterns is a field of three words for each triple, and `;` after each but the last. A word is
//! one of `marked_term`, where `"` begins an integer, or begins with `?` for a variable.

use crate::{graph_patches, print};
use case_words::{marked_graph, marked_term, shown_whole, text, triples_text};
use graph_patch::{Found, Mapping, Pattern, Slot, solutions};
use pod_base::{List, Mem, NoMemory, Text};
use rdf_graph::vocabulary::XSD_INTEGER;
use rdf_graph::{Graph, Term};
use std::alloc::Global;

/// The term of a word.
fn term(alloc: Global, word: &str) -> Mem<Term> {
    marked_term(alloc, word, XSD_INTEGER)
}

fn slot(alloc: Global, word: &str) -> Mem<Slot> {
    match word.strip_prefix("?") {
        Some(name) => Ok(Slot::Var(Text::of(alloc, name)?)),
        None => Ok(Slot::Fixed(term(alloc, word)?)),
    }
}

/// Appends the pattern of three words.
fn push_pattern(alloc: Global, patterns: &mut Vec<Pattern>, row: &str) -> Mem<()> {
    let mut words = row.split(' ');
    if let (Some(s), Some(p), Some(o)) = (words.next(), words.next(), words.next()) {
        patterns.push(Pattern {
            s: slot(alloc, s)?,
            p: slot(alloc, p)?,
            o: slot(alloc, o)?,
        })?;
    }
    Ok(())
}

/// The patterns of a field.
pub(crate) fn patterns(alloc: Global, field: &str) -> Mem<List<Pattern>> {
    let mut patterns = Vec::new(alloc);
    for row in field.split(';') {
        push_pattern(alloc, &mut patterns, row)?;
    }
    Ok(List::from_vec(patterns))
}

/// The graph of a field, without what is no triple of RDF.
pub(crate) fn graph(alloc: Global, field: &str) -> Mem<Graph> {
    marked_graph(alloc, field, XSD_INTEGER)
}

/// What a name stands for in a mapping.
fn bound(alloc: Global, mapping: &Mapping, name: &str) -> Mem<String> {
    match mapping.get(name) {
        Some(term) => print::term(alloc, term),
        None => Ok(String::from_str(alloc, "no term")?),
    }
}

/// What a name stands for in the one mapping of the conditions.
fn solve(alloc: Global, graph: &Graph, conditions: &str, name: &str) -> Mem<String> {
    let conditions = patterns(alloc, conditions)?;
    match solutions(alloc, graph, &conditions) {
        Ok(Found::Nothing) => Ok(String::from_str(alloc, "nothing")?),
        Ok(Found::Many) => Ok(String::from_str(alloc, "many")?),
        Ok(Found::One(mapping)) => bound(alloc, &mapping, name),
        Err(NoMemory) => Err(NoMemory),
    }
}

/// A term, or none for `-`.
fn wanted(alloc: Global, word: &str) -> Mem<Option<Term>> {
    if word == "-" {
        return Ok(None);
    }
    Ok(Some(term(alloc, word)?))
}

/// The triples with the wanted terms.
fn matching(alloc: Global, graph: &Graph, words: [&str; 3]) -> Mem<String> {
    let [s, p, o] = words;
    let (s, p, o) = (wanted(alloc, s)?, wanted(alloc, p)?, wanted(alloc, o)?);
    match graph.matching(alloc, s.as_ref(), p.as_ref(), o.as_ref()) {
        Ok(found) => triples_text(alloc, found.as_slice()),
        Err(NoMemory) => Err(NoMemory),
    }
}

/// The triples that a walk gives.
fn walked(
    alloc: Global,
    graph: &Graph,
    s: Option<&Term>,
    p: Option<&Term>,
    o: Option<&Term>,
) -> Mem<String> {
    let mut text = Vec::new(alloc);
    for triple in graph.walk(s, p, o) {
        triple.append_to(alloc, &mut text)?;
    }
    Ok(shown_whole(alloc, text.as_slice())?)
}

fn walk(alloc: Global, graph: &Graph, words: [&str; 3]) -> Mem<String> {
    let [s, p, o] = words;
    let (s, p, o) = (wanted(alloc, s)?, wanted(alloc, p)?, wanted(alloc, o)?);
    walked(alloc, graph, s.as_ref(), p.as_ref(), o.as_ref())
}

/// The list of a graph: how many triples it has, and which.
fn list(alloc: Global, old: &str) -> Mem<String> {
    let list = graph(alloc, old)?.into_list();
    let lines = triples_text(alloc, list.as_slice())?;
    Ok(format!(in alloc; "{} [{lines}]", list.len())?)
}

/// The graph of the list of a graph.
fn in_order(alloc: Global, old: &str) -> Mem<String> {
    let graph = Graph::in_order(graph(alloc, old)?.into_list());
    let lines = triples_text(alloc, graph.as_slice())?;
    Ok(format!(in alloc; "{} [{lines}]", graph.len())?)
}

fn has_iris(alloc: Global, graph: &Graph, words: [&str; 3]) -> Mem<String> {
    let [s, p, o] = words;
    let (s, p, o) = (text(alloc, s)?, text(alloc, p)?, text(alloc, o)?);
    let has = graph.has_iris(s.as_str(), p.as_str(), o.as_str());
    Ok(format!(in alloc; "{has}")?)
}

fn compare(alloc: Global, one: &str, other: &str) -> Mem<String> {
    let order = slot(alloc, one)?.cmp(&slot(alloc, other)?);
    Ok(format!(in alloc; "{order:?}")?)
}

/// What `rdf_graph` or `graph_patch` returns for a call on a graph, which is the first argument.
fn call_on(alloc: Global, graph: &Graph, case: &[&str]) -> Mem<String> {
    match case {
        ["text", _] => triples_text(alloc, graph.as_slice()),
        ["size", _] => Ok(format!(in alloc; "{}", graph.encoded_size())?),
        ["solutions", _, conditions, name] => solve(alloc, graph, conditions, name),
        ["matching", _, s, p, o] => matching(alloc, graph, [s, p, o]),
        ["has_iris", _, s, p, o] => has_iris(alloc, graph, [s, p, o]),
        ["walk", _, s, p, o] => walk(alloc, graph, [s, p, o]),
        _ => graph_patches::call_on(alloc, graph, case),
    }
}

/// What `rdf_graph` or `graph_patch` returns for a call and its arguments.
pub(crate) fn call(alloc: Global, case: &[&str]) -> Mem<String> {
    match case {
        ["into_list", only] => list(alloc, only),
        ["in_order", only] => in_order(alloc, only),
        ["cmp", one, other] => compare(alloc, one, other),
        [
            "has_fixed_predicate",
            conditions,
            deletions,
            insertions,
            iri,
        ] => {
            let parts = [*conditions, *deletions, *insertions];
            graph_patches::has_fixed_predicate(alloc, parts, iri)
        }
        [_, old, ..] => call_on(alloc, &graph(alloc, old)?, case),
        _ => Ok(String::from_str(alloc, "no case")?),
    }
}
