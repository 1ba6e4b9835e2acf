//! The patch that an update spells at a graph.

ghost use Rattle.std.specs.Prelude.{◌≡◌, ◌++◌, ◌∷◌, [], ◌||◌, not, IfOk, OnOk};
ghost use Rattle.std.specs.BTreeSet.{contains};
ghost use Rattle.graph_patch.specs.Patch.{IsBound};
ghost use Rattle.rdf_graph.specs.Triple.{triple_cmp};
ghost use Rattle.rdf_graph.specs.declared.triple.Triple.{Triple};
ghost use Rattle.sparql_patch.specs.NamedUpdate.{IsSpelledAt, has_triple, pattern_of, triple_eq};
ghost use Rattle.sparql_patch.specs.Progress.{IsTaken, ReadsOne};

use crate::named::Named;
use graph_patch::{Patch, Pattern, Slot};
use pod_base::{List, Mem, NoMemory};
use rdf_graph::{Graph, Triple};
use std::alloc::Global;
use std::collections::BTreeSet;

/// Puts the triple of a naming among those whose patterns are spelled, and returns whether it is
/// new.
#[tactic(auto, using(crate::proofs::TripleLemmas::tied_is_eq))]
fn insert_new(alloc: Global, seen: &mut BTreeSet<Triple>, triple: &Triple) -> Mem<bool>
    ensures new { IfOk result (λ new. new ≡ not (contains triple_cmp seen.old triple.now)) }
    ensures members { OnOk result ((t : Triple) → contains triple_cmp seen.new t
        ≡ (triple_eq t triple.now || contains triple_cmp seen.old t)) }
{
    let triple = triple.copy(alloc)?;
    Ok(seen.insert(triple)?)
}

/// Appends the pattern of a triple to the patch that an update spells.
fn push_pattern(alloc: Global, patterns: &mut List<Pattern>, triple: &Triple) -> Mem<()>
    ensures { OnOk result (patterns.new.items ≡ patterns.old.items ++ pattern_of triple.now ∷ []) }
{
    let s = Slot::Fixed(triple.s.copy(alloc)?);
    let p = Slot::Fixed(triple.p.copy(alloc)?);
    let o = Slot::Fixed(triple.o.copy(alloc)?);
    match patterns.push(alloc, Pattern { s, p, o }) {
        Ok(()) => Ok(()),
        Err(_) => Err(NoMemory),
    }
}

/// Whether the graph at which an update spells its patch has the triple.
#[tactic(auto, using(crate::proofs::TripleLemmas::has_triple_decides))]
fn has(graph: &Graph, triple: &Triple) -> bool
    ensures { result ≡ has_triple graph.now triple.now }
{
    graph.contains(triple)
}

/// Takes a naming that is the last one of its triple into the patch that an update spells. A
/// deletion that isn't in the graph is passed over.
fn take_last(alloc: Global, patch: &mut Patch, naming: &Named, graph: &Graph) -> Mem<()>
    ensures { OnOk result (IsTaken graph.now naming.now patch.old patch.new) }
{
    if naming.insert {
        push_pattern(alloc, &mut patch.insertions, &naming.triple)
    } else if has(graph, &naming.triple) {
        push_pattern(alloc, &mut patch.deletions, &naming.triple)
    } else {
        Ok(())
    }
}

/// Reads a naming for the patch that an update spells, before those that are read.
fn read_one(
    alloc: Global,
    seen: &mut BTreeSet<Triple>,
    patch: &mut Patch,
    naming: &Named,
    graph: &Graph,
) -> Mem<()>
    ensures { OnOk result (ReadsOne graph.now naming.now seen.old patch.old seen.new patch.new) }
{
    if insert_new(alloc, seen, &naming.triple)? {
        take_last(alloc, patch, naming, graph)?;
    }
    Ok(())
}

/// The patch that the namings of an update, in their order, spell at a graph. One pass over the
/// namings, with a look-up each among their triples and in the graph; deletions and insertions come
/// from the last naming on.
pub fn spelled(alloc: Global, named: &List<Named>, graph: &Graph) -> Mem<Patch>
    ensures spelled { IfOk result (IsSpelledAt graph.now named.now.items) }
    ensures bound { IfOk result IsBound }
{
    let mut patch = Patch {
        conditions: List::new(alloc),
        deletions: List::new(alloc),
        insertions: List::new(alloc),
    };
    let mut seen = BTreeSet::new(alloc);
    let namings = named.as_slice();
    let mut left = namings.len();
    while left > 0 {
        left -= 1;
        read_one(alloc, &mut seen, &mut patch, &namings[left], graph)?;
    }
    Ok(patch)
}
