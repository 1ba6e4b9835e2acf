//! Cases of what a patch, and an update, make of a row's graph. The patch is that of its parts in
//! N3, where `e:` is `http://e.example/`. What is removed is shown with `- ` before each triple,
//! and what is added with `+ `.

ghost use Rattle.std.specs.Prelude.{IfOk, IfSome};
ghost use Rattle.graph_patch.specs.Patch.{IsBound};

use crate::named_triples::{graph, namings};
use crate::print;
use case_words::iri_or_bad;
use graph_patch::Patch;
use n3_patch::{N3Fault, read};
use patch_outcome::{PatchRefusal, outcome, update_outcome};
use pod_base::{Mem, NoMemory};
use rdf_graph::{Change, Graph};
use std::alloc::Global;

const PREFIXES: &str = "@prefix solid: <http://www.w3.org/ns/solid/terms#>. \
    @prefix ldp: <http://www.w3.org/ns/ldp#>. @prefix e: <http://e.example/>. \
    <> a solid:InsertDeletePatch; ";

/// The patch of parts in N3; none where they are no patch.
fn patch(alloc: Global, parts: &str) -> Mem<Option<Patch>>
    ensures { IfOk result (λ patch. IfSome patch IsBound) }
{
    let text = format!(in alloc; "{PREFIXES}{parts}.")?;
    let base = iri_or_bad(alloc, "http://e.example/d")?;
    match read(alloc, &base, text.as_bytes()) {
        Ok(patch) => Ok(Some(patch)),
        Err(N3Fault::NoMemory) => Err(NoMemory),
        Err(_) => Ok(None),
    }
}

/// The change, or the word of the refusal.
fn outcome_text(alloc: Global, outcome: Mem<Result<Change, PatchRefusal>>) -> Mem<String> {
    match outcome? {
        Ok(change) => print::change(alloc, &change),
        Err(refusal) => Ok(String::from_str(alloc, refusal.word())?),
    }
}

fn patched_at(alloc: Global, kind: &str, graph: &Graph, parts: &str) -> Mem<String> {
    match patch(alloc, parts)? {
        Some(patch) => outcome_text(alloc, outcome(alloc, kind == "container", graph, &patch)),
        None => Ok(String::from_str(alloc, "no patch")?),
    }
}

/// The outcome of a patch.
pub(crate) fn patched(alloc: Global, kind: &str, triples: &str, parts: &str) -> Mem<String> {
    let graph = graph(alloc, triples)?;
    patched_at(alloc, kind, &graph, parts)
}

fn updated_at(alloc: Global, kind: &str, graph: &Graph, field: &str) -> Mem<String> {
    let named = namings(alloc, field)?;
    outcome_text(
        alloc,
        update_outcome(alloc, kind == "container", graph, &named),
    )
}

/// The outcome of an update.
pub(crate) fn updated(alloc: Global, kind: &str, triples: &str, field: &str) -> Mem<String> {
    let graph = graph(alloc, triples)?;
    updated_at(alloc, kind, &graph, field)
}
