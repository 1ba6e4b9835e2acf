//! The figure `graph`: the graph of shuffled triples is built at once, and each of them looked up.
//! Then a copy of the graph is changed.
ghost use Rattle.std.specs.Prelude.{All, IfOk};
ghost use Rattle.rdf_graph.specs.Triple.{IsRdf};

use crate::process_usage::used_micros;
use iri_ref::Iri;
use pod_base::List;
use rdf_graph::{Graph, Term, Triple};
use std::alloc::Global;

/// The triple of these IRIs.
pub fn make_triple(alloc: Global, s: &str, p: &str, o: &str) -> anyhow::Result<Triple>
    ensures { IfOk result IsRdf }
{
    let s = Iri::read(alloc, s)?;
    let p = Iri::read(alloc, p)?;
    let o = Iri::read(alloc, o)?;
    Ok(Triple {
        s: Term::Iri(s),
        p: Term::Iri(p),
        o: Term::Iri(o),
    })
}

/// The number of a step, when all numbers below the count are gone through in another order: the
/// count shares no factor with 7919.
fn shuffled_number(step: usize, count: usize) -> usize {
    step.wrapping_mul(7919) % count.max(1)
}

/// The triple from a numbered node to itself.
fn make_numbered(alloc: Global, number: usize) -> anyhow::Result<Triple>
    ensures { IfOk result IsRdf }
{
    let text = format!(in alloc; "http://e.example/n{number}")?;
    make_triple(alloc, text.as_str(), "http://e.example/p", text.as_str())
}

/// The triples of all numbers below the count, out of order, so many times over.
fn make_triples(alloc: Global, count: usize, rounds: usize) -> anyhow::Result<List<Triple>>
    ensures { IfOk result (λ triples. All IsRdf triples.items) }
{
    let mut triples = Vec::new(alloc);
    for step in 0..count.saturating_mul(rounds) {
        let number = shuffled_number(step, count);
        let triple = make_numbered(alloc, number)?;
        triples.push(triple)?;
    }
    Ok(List::from_vec(triples))
}

/// How many triples of the list the graph has.
fn count_found(graph: &Graph, triples: &[Triple]) -> usize {
    triples
        .iter()
        .filter(|triple| graph.contains(triple))
        .count()
}

/// Prints how many triples have the subject of a numbered one, and whether a copy of the graph
/// loses that one, and does so again.
fn change_copy(
    rt: &HostRuntime,
    alloc: Global,
    graph: &Graph,
    number: usize,
) -> anyhow::Result<()> {
    let triple = make_numbered(alloc, number)?;
    let matching = graph.matching(alloc, Some(&triple.s), None, None)?.len();
    let mut copy = graph.copy(alloc)?;
    let lost = copy.remove(&triple);
    let again = copy.remove(&triple);
    println!(rt;
        "triples of node {number}: {matching}; a copy loses one: {lost}, again: {again}, of {} left",
        copy.len()
    )?;
    Ok(())
}

/// Builds the graph of so many triples, each given so many times, looks each of them up, and prints
/// how many it found, and the times if asked. Then it changes a copy.
pub fn build_graph(
    rt: &HostRuntime,
    alloc: Global,
    count: usize,
    rounds: usize,
    times: bool,
) -> anyhow::Result<()> {
    let triples = make_triples(alloc, count, rounds)?;
    let wanted = make_triples(alloc, count, 1)?;
    let start = used_micros(rt)?;
    let graph = Graph::of(triples);
    let built = used_micros(rt)?;
    let found = count_found(&graph, wanted.as_slice());
    let searched = used_micros(rt)?.saturating_sub(built);
    println!(rt; "{} triples, {found} found", graph.len())?;
    if times {
        let built = built.saturating_sub(start);
        println!(rt; "built in {built} microseconds, searched in {searched}")?;
    }
    change_copy(rt, alloc, &graph, 77)
}
