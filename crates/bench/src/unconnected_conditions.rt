//! Conditions that nothing connects are solved apart: seven pairs of them have many mappings each,
//! and an eighth has none, which is found at once.
ghost use Rattle.std.specs.Prelude.{IfOk};
ghost use Rattle.rdf_graph.specs.Triple.{IsRdf};

use crate::graph_figure::make_triple;
use graph_patch::{Found, Pattern, Slot, solutions};
use iri_ref::Iri;
use pod_base::{List, Text};
use rdf_graph::{Graph, Term, Triple};
use std::alloc::Global;

/// The predicates of the graph, of which no object of the first is a subject of the third.
const FIRST: &str = "http://e.example/p";

const SECOND: &str = "http://e.example/q";

const THIRD: &str = "http://e.example/r";

/// A triple between numbered nodes.
fn numbered(alloc: Global, s: usize, p: &str, o: usize) -> anyhow::Result<Triple>
    ensures { IfOk result IsRdf }
{
    let s = format!(in alloc; "http://e.example/n{s}")?;
    let o = format!(in alloc; "http://e.example/n{o}")?;
    make_triple(alloc, s.as_str(), p, o.as_str())
}

/// A graph of 3,334 triples of each predicate. Each object of the first is a subject of the second.
fn make_graph(alloc: Global) -> anyhow::Result<Graph> {
    let mut graph = Graph::new(alloc);
    for number in 0..3_334 {
        graph.insert(alloc, numbered(alloc, number, FIRST, number + 10_000)?)?;
        graph.insert(alloc, numbered(alloc, number + 10_000, SECOND, number)?)?;
        graph.insert(alloc, numbered(alloc, number + 20_000, THIRD, number)?)?;
    }
    Ok(graph)
}

/// The variable of a letter and a number.
fn variable(alloc: Global, letter: char, number: usize) -> anyhow::Result<Slot> {
    let name = format!(in alloc; "{letter}{number}")?;
    Ok(Slot::Var(Text::of(alloc, name.as_str())?))
}

/// A condition between two variables of a number.
fn condition(
    alloc: Global,
    letters: (char, char),
    number: usize,
    predicate: &str,
) -> anyhow::Result<Pattern> {
    Ok(Pattern {
        s: variable(alloc, letters.0, number)?,
        p: Slot::Fixed(Term::Iri(Iri::read(alloc, predicate)?)),
        o: variable(alloc, letters.1, number)?,
    })
}

/// Eight pairs of conditions, of which each has a variable in common.
fn make_conditions(alloc: Global) -> anyhow::Result<List<Pattern>> {
    let mut conditions = Vec::new(alloc);
    for number in 0..8 {
        let second = if number < 7 { SECOND } else { THIRD };
        conditions.push(condition(alloc, ('a', 'b'), number, FIRST)?)?;
        conditions.push(condition(alloc, ('b', 'c'), number, second)?)?;
    }
    Ok(List::from_vec(conditions))
}

/// Prints how many mappings the conditions have.
pub fn solve_apart(rt: &HostRuntime, alloc: Global) -> anyhow::Result<()> {
    let graph = make_graph(alloc)?;
    let conditions = make_conditions(alloc)?;
    let mappings = match solutions(alloc, &graph, &conditions)? {
        Found::Nothing => "none",
        Found::One(_mapping) => "one",
        Found::Many => "many",
    };
    println!(rt;
        "{} conditions in unconnected pairs over {} triples: {mappings}",
        conditions.len(),
        graph.len()
    )?;
    Ok(())
}
