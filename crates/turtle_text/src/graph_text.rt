//! The text of a graph.

ghost use Rattle.std.specs.Prelude.{◌≡◌, ◌++◌, ◌<◌, length, IfOk, OnOk};
ghost use Rattle.std.specs.List.{flat_map};
ghost use Rattle.rdf_graph.specs.Graph.{graph_text};
ghost use Rattle.rdf_graph.specs.Triple.{line};

use crate::graph_text_len::{len, lines_len};
use pod_base::{Bytes, Mem, NoMemory};
use rdf_graph::{Graph, Triple};
use std::alloc::Global;

/// How many lines are measured before they are appended.
const RUN_LIMIT: usize = 32;

/// The length of a graph's text as a count of items, at most `usize::MAX`.
fn count_of(len: u64) -> usize {
    usize::try_from(len).unwrap_or(usize::MAX)
}

/// Appends the lines of triples to a graph's text. After an `Err` only a part of them may have been
/// appended.
fn append_lines(alloc: Global, into: &mut Vec<u8>, triples: &[Triple]) -> Mem<()>
    ensures { OnOk result (into.new.items ≡ into.old.items ++ flat_map line triples.now) }
{
    for triple in triples {
        triple.append_to(alloc, into)?;
    }
    Ok(())
}

/// Appends the lines of the first triples to a graph's text, at most `RUN_LIMIT`, and returns the
/// other triples. The lines are measured first: that brings the triples' terms into the processor's
/// caches, many at a time, where copying would wait for each of them.
fn append_run<'a>(alloc: Global, into: &mut Vec<u8>, triples: &'a [Triple]) -> Mem<&'a [Triple]>
    requires { 0 < length triples.now }
    ensures text { IfOk result (λ left. into.new.items ++ flat_map line left.now
        ≡ into.old.items ++ flat_map line triples.now) }
    ensures shorter { IfOk result (λ left. length left.now < length triples.now) }
{
    let count = triples.len().min(RUN_LIMIT);
    into.reserve(count_of(lines_len(&triples[..count])))?;
    append_lines(alloc, into, &triples[..count])?;
    Ok(&triples[count..])
}

/// Appends the lines of triples to a graph's text, run by run. After an `Err` only a part of them
/// may have been appended.
fn append_runs(alloc: Global, into: &mut Vec<u8>, triples: &[Triple]) -> Mem<()>
    ensures { OnOk result (into.new.items ≡ into.old.items ++ flat_map line triples.now) }
{
    let mut rest = triples;
    while !rest.is_empty() {
        rest = append_run(alloc, into, rest)?;
    }
    Ok(())
}

/// The text of a graph in Turtle: a line for each triple, in byte order of the lines. A line is
/// subject, space, predicate, space, object, space, `.` and LF. In a literal `\`, `"`, LF and CR
/// are written as `\\`, `\"`, `\n` and `\r`, and all else as it is.
pub fn write(alloc: Global, graph: &Graph) -> Mem<Bytes>
    ensures { IfOk result (λ bytes. bytes ≡ graph_text graph.now) }
{
    let mut text = Vec::with_capacity(alloc, count_of(len(graph)))?;
    append_runs(alloc, &mut text, graph.as_slice())?;
    match Bytes::from_vec(alloc, text) {
        Ok(bytes) => Ok(bytes),
        Err(_bytes) => Err(NoMemory),
    }
}
