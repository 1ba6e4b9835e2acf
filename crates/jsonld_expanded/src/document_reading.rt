//! Reading a document.

ghost use Rattle.std.specs.Prelude.{◌≡◌, ◌<◌, ◌≤◌, All, IfOk, OnOk, IsErrOf};
ghost use Rattle.rdf_graph.specs.Graph.{SameSet};
ghost use Rattle.rdf_graph.specs.Triple.{IsRdf};
ghost use Rattle.serde_json.specs.View.{view};
ghost use Rattle.jsonld_expanded.specs.Walks.{HasLabelsOf, HasNoWalk, IsWalkOf};
ghost use Rattle.jsonld_expanded.specs.declared.fault.Refusal.TheVariants as Refusal;
ghost use Rattle.jsonld_expanded.specs.declared.fault.JsonLdFault.TheVariants as JsonLdFault;
ghost use Rattle.jsonld_expanded.specs.Outcomes.{IsDocumentOf, IsJson, IsNotJson, IsOutOfProfile};
ghost use Rattle.jsonld_expanded.specs.Outcomes.{IsTooLarge};

use crate::fault::{JsonLdFault, Refusal, fault_of};
use crate::used_labels::{Labels, insert_labels};
use crate::value_count::has_few_values;
use crate::vocabulary_iris::Words;
use crate::walk_scope::Scope;
use crate::walk_state::Walk;
use iri_ref::Iri;
use pod_base::{List, Mem};
use rdf_graph::{Graph, TRIPLES_LIMIT};
use serde_json::Value;
use std::alloc::Global;
use std::collections::BTreeSet;

/// Reads the graph of a document of expanded JSON-LD.
///
/// Its references are resolved against the base, and its unnamed nodes are labelled in the order of
/// the walk. The faults come in the order of [`JsonLdFault`].
///
/// Out of memory is also a text of more than [`VALUES_LIMIT`](crate::VALUES_LIMIT) values, whatever
/// else is wrong with it, and a document whose walk makes terms of more than
/// [`MADE_LIMIT`](crate::MADE_LIMIT) bytes before it is found to be out of the profile.
pub fn read(alloc: Global, base: &Iri, bytes: &[u8]) -> Result<Graph, JsonLdFault>
    ensures graph { IfOk result (IsDocumentOf base.now bytes.now) }
    ensures not_json { IsErrOf result JsonLdFault.NotJson → IsNotJson bytes.now }
    ensures out_of_profile { IsErrOf result JsonLdFault.OutOfProfile
        → IsOutOfProfile base.now bytes.now }
    ensures too_large { IsErrOf result JsonLdFault.TooLarge → IsTooLarge base.now bytes.now }
{
    let value = json_of(alloc, bytes)?;
    match walk_of(alloc, base, &value) {
        Ok(walk) => graph_of(walk),
        Err(refusal) => Err(fault_of(refusal)),
    }
}

/// Reads the JSON value of a document's bytes.
fn json_of(alloc: Global, bytes: &[u8]) -> Result<Value, JsonLdFault>
    ensures value { IfOk result (λ v. IsJson bytes.now (view v)) }
    ensures not_json { IsErrOf result JsonLdFault.NotJson → IsNotJson bytes.now }
    ensures in_profile { IsErrOf result JsonLdFault.OutOfProfile → ⊥ }
    ensures small { IsErrOf result JsonLdFault.TooLarge → ⊥ }
{
    if !has_few_values(bytes) {
        return Err(JsonLdFault::NoMemory);
    }
    match Value::from_slice(alloc, bytes) {
        Ok(value) => Ok(value),
        Err(fault) => if fault.is_memory() {
            Err(JsonLdFault::NoMemory)
        } else {
            Err(JsonLdFault::NotJson)
        },
    }
}

/// The scope in which a JSON value is read, which a walk over it depends on.
fn scope_of<'a>(alloc: Global, base: &'a Iri, value: &Value) -> Mem<Scope<'a>>
    ensures base { IfOk result (λ s. s.base.now ≡ base.now) }
    ensures labels { IfOk result (λ s. HasLabelsOf s (view value.now)) }
{
    let mut labels: Labels = BTreeSet::new(alloc);
    insert_labels(alloc, &mut labels, false, value)?;
    let words = Words::new(alloc)?;
    Ok(Scope {
        alloc,
        base,
        labels,
        words,
    })
}

/// Reads a JSON value of a document in one whole walk.
fn walk_of(alloc: Global, base: &Iri, value: &Value) -> Result<Walk, Refusal>
    ensures walked { IfOk result (IsWalkOf base.now (view value.now)) }
    ensures out { IsErrOf result Refusal.OutOfProfile → HasNoWalk base.now (view value.now) }
{
    let scope = scope_of(alloc, base, value)?;
    let mut walk = Walk::new(alloc);
    scope.document(&mut walk, value)?;
    Ok(walk)
}

/// The graph that is read from a document, with the triples of a walk.
fn graph_of(walk: Walk) -> Result<Graph, JsonLdFault>
    requires { All IsRdf walk.triples.items }
    ensures graph { IfOk result (λ g. SameSet g walk.triples.items) }
    ensures within { OnOk result (walk.size ≤ TRIPLES_LIMIT) }
    ensures too_large { IsErrOf result JsonLdFault.TooLarge → TRIPLES_LIMIT < walk.size }
    ensures json { IsErrOf result JsonLdFault.NotJson → ⊥ }
    ensures in_profile { IsErrOf result JsonLdFault.OutOfProfile → ⊥ }
{
    if walk.size > TRIPLES_LIMIT {
        return Err(JsonLdFault::TooLarge);
    }
    Ok(Graph::of(List::from_vec(walk.triples)))
}
