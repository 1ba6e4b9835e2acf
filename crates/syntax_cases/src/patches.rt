//! Cases of the two languages of patches, `n3_patch` and `sparql_patch`, and of `patch_outcome`.

use crate::{documents, judged_triples, named_triples, outcomes, print};
use iri_ref::Iri;
use n3_patch::N3Fault;
use pod_base::{Mem, NoMemory};
use sparql_patch::SparqlFault;
use std::alloc::Global;

fn patch_fault_text(alloc: Global, fault: N3Fault) -> Mem<String> {
    match fault {
        N3Fault::Syntax { at } => Ok(format!(in alloc; "syntax {at}")?),
        N3Fault::Constraint(rule) => Ok(format!(in alloc; "{rule:?}")?),
        N3Fault::TooLarge => Ok(String::from_str(alloc, "too large")?),
        N3Fault::NoMemory => Err(NoMemory),
    }
}

/// The patch of a text, or its fault.
pub(crate) fn read(alloc: Global, base: &Iri, text: &[u8]) -> Mem<String> {
    match n3_patch::read(alloc, base, text) {
        Ok(patch) => print::patch(alloc, &patch),
        Err(fault) => patch_fault_text(alloc, fault),
    }
}

fn update_fault_text(alloc: Global, fault: SparqlFault) -> Mem<String> {
    match fault {
        SparqlFault::Syntax { at } => Ok(format!(in alloc; "syntax {at}")?),
        SparqlFault::Blank => Ok(String::from_str(alloc, "blank node")?),
        SparqlFault::TooLarge => Ok(String::from_str(alloc, "too large")?),
        SparqlFault::NoMemory => Err(NoMemory),
    }
}

/// What an update names, or its fault.
pub(crate) fn read_update(alloc: Global, base: &Iri, text: &[u8]) -> Mem<String> {
    match sparql_patch::read(alloc, base, text) {
        Ok(named) => print::update(alloc, &named),
        Err(fault) => update_fault_text(alloc, fault),
    }
}

/// What the libraries return for a call on a patch.
pub(crate) fn call(alloc: Global, case: &[&str]) -> Mem<String> {
    match case {
        ["judge", triples] => judged_triples::judged(alloc, triples),
        ["outcome", kind, graph, parts] => outcomes::patched(alloc, kind, graph, parts),
        _ => documents::call(alloc, "patch", case),
    }
}

/// What the libraries return for a call on an update.
pub(crate) fn update(alloc: Global, case: &[&str]) -> Mem<String> {
    match case {
        ["spelled", named, graph] => named_triples::spelled(alloc, named, graph),
        ["outcome", kind, graph, named] => outcomes::updated(alloc, kind, graph, named),
        _ => documents::call(alloc, "update", case),
    }
}
