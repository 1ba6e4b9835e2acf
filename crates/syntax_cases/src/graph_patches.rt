//! Cases of patches of graphs: what a patch leaves, its predicates, the size of its instances, and
//! whether a change fits a graph.
ghost use Rattle.graph_patch.specs.Patch.{BindsPatterns, IsBound};

use crate::graphs::{graph, patterns};
use case_words::{text, triples_text};
use graph_patch::{Mapping, Patch, PatchFault, instantiate, the_mapping};
use pod_base::{Mem, NoMemory};
use rdf_graph::{Change, Graph, changed};
use std::alloc::Global;

/// The patch of three fields: conditions, deletions and insertions.
fn read_patch(alloc: Global, parts: [&str; 3]) -> Mem<Patch> {
    let [conditions, deletions, insertions] = parts;
    Ok(Patch {
        conditions: patterns(alloc, conditions)?,
        deletions: patterns(alloc, deletions)?,
        insertions: patterns(alloc, insertions)?,
    })
}

fn fault_text(alloc: Global, fault: PatchFault) -> Mem<String> {
    match fault {
        PatchFault::NoMemory => Err(NoMemory),
        fault => Ok(format!(in alloc; "{fault:?}")?),
    }
}

fn bool_text(alloc: Global, value: bool) -> Mem<String> {
    Ok(format!(in alloc; "{value}")?)
}

/// The graph that a copy of a change leaves.
fn after(alloc: Global, graph: &Graph, change: &Change) -> Mem<String> {
    let copy = change.copy(alloc)?;
    match changed(alloc, graph, &copy) {
        Ok(new) => triples_text(alloc, new.as_slice()),
        Err(NoMemory) => Err(NoMemory),
    }
}

/// The graph that a patch leaves, or its fault.
fn patched(alloc: Global, graph: &Graph, patch: &Patch) -> Mem<String> {
    if !patch.is_bound() {
        return Ok(String::from_str(alloc, "free variable")?);
    }
    match instantiate(alloc, graph, patch) {
        Ok(change) => after(alloc, graph, &change),
        Err(fault) => fault_text(alloc, fault),
    }
}

/// Whether a change that removes and adds these triples fits a graph.
fn fits(alloc: Global, old: &Graph, removed: &str, added: &str) -> Mem<String> {
    let change = Change {
        removed: graph(alloc, removed)?,
        added: graph(alloc, added)?,
    };
    bool_text(alloc, change.fits(old))
}

/// Whether a patch has a predicate, whatever its mapping.
pub(crate) fn has_fixed_predicate(alloc: Global, parts: [&str; 3], iri: &str) -> Mem<String> {
    let iri = text(alloc, iri)?;
    let patch = read_patch(alloc, parts)?;
    bool_text(alloc, patch.has_fixed_predicate(iri.as_str()))
}

/// Whether a patch has a predicate under its mapping in a graph.
fn has_predicate(alloc: Global, graph: &Graph, patch: &Patch, iri: &str) -> Mem<String> {
    let iri = text(alloc, iri)?;
    match the_mapping(alloc, graph, &patch.conditions) {
        Ok(mapping) => bool_text(alloc, patch.has_predicate(&mapping, iri.as_str())),
        Err(fault) => fault_text(alloc, fault),
    }
}

/// The size of the instances of a patch under a mapping.
fn show_size(alloc: Global, patch: &Patch, mapping: &Mapping) -> Mem<String>
    requires deletions { BindsPatterns mapping.now.pairs.items patch.now.deletions.items }
    requires insertions { BindsPatterns mapping.now.pairs.items patch.now.insertions.items }
{
    let size = patch.instances_size(mapping);
    Ok(format!(in alloc; "{size}")?)
}

/// The size of the instances of a patch under its mapping in a graph.
fn size_in(alloc: Global, graph: &Graph, patch: &Patch) -> Mem<String>
    requires { IsBound patch.now }
{
    match the_mapping(alloc, graph, &patch.conditions) {
        Ok(mapping) => show_size(alloc, patch, &mapping),
        Err(fault) => fault_text(alloc, fault),
    }
}

/// The size of the instances of a patch in a graph, where the conditions have its variables.
fn instances_size(alloc: Global, graph: &Graph, patch: &Patch) -> Mem<String> {
    if !patch.is_bound() {
        return Ok(String::from_str(alloc, "free variable")?);
    }
    size_in(alloc, graph, patch)
}

/// What a patch returns for a call on a graph.
fn call_of(alloc: Global, graph: &Graph, name: &str, patch: &Patch) -> Mem<String> {
    match name {
        "patch" => patched(alloc, graph, patch),
        "instances_size" => instances_size(alloc, graph, patch),
        _ => Ok(String::from_str(alloc, "no case")?),
    }
}

/// The answer to a call on a graph, which is the first argument.
pub(crate) fn call_on(alloc: Global, graph: &Graph, case: &[&str]) -> Mem<String> {
    match case {
        ["fits", _, removed, added] => fits(alloc, graph, removed, added),
        ["has_predicate", _, conditions, deletions, insertions, iri] => {
            let patch = read_patch(alloc, [conditions, deletions, insertions])?;
            has_predicate(alloc, graph, &patch, iri)
        }
        [name, _, conditions, deletions, insertions] => {
            let patch = read_patch(alloc, [conditions, deletions, insertions])?;
            call_of(alloc, graph, name, &patch)
        }
        _ => Ok(String::from_str(alloc, "no case")?),
    }
}
