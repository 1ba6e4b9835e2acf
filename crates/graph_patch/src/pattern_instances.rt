//! What a mapping makes of the patterns of a patch.
ghost use Rattle.std.specs.Prelude.{◌≡◌, ◌≤◌, ◌+◌, ◌⊎◌, ◌↔◌, All, Contains, IfErr, IfOk, IsTrue};
ghost use Rattle.std.specs.Prelude.{MatchBool, None, Some};
ghost use Rattle.std.specs.Bool.{OnTrue};
ghost use Rattle.std.specs.List.{AllZip};
ghost use Rattle.graph_patch.specs.Patch.{AreInstances, BindsPatterns, instance_size, FitsGraph};
ghost use Rattle.graph_patch.specs.Patch.{HasPredicate, IsInstance, BindsPattern, BindsSlot};
ghost use Rattle.graph_patch.specs.Patch.{IsCheckFault, instances_size};
ghost use Rattle.graph_patch.specs.Pattern.{Instantiates, slot_term, value_of};
ghost use Rattle.rdf_graph.specs.Size.{change_size, saturated, triples_size};
ghost use Rattle.rdf_graph.specs.Triple.{IsRdf};
ghost use Rattle.rdf_graph.specs.TripleRef.{triple_of};
ghost use Rattle.rdf_graph.specs.declared.term.Term.TheVariants.{Iri as IriTerm};
ghost use Rattle.rdf_graph.specs.declared.triple.Triple.{Triple};

use crate::patch::{Patch, PatchFault};
use crate::pattern::{Mapping, Pattern, Slot, value};
use pod_base::{List, Mem, NoMemory, Text};
use rdf_graph::{
    Change, Graph, Term, Triple, TripleRef, are_rdf_parts, copy_parts, saturating_sum, size_of,
    size_of_parts,
};
use std::alloc::Global;

/// The most bytes that the triples which a patch makes may have in their stored form, repeats
/// included: 64 MiB.
pub const INSTANCES_LIMIT: u64 = 67_108_864;

impl Patch {
    /// Whether an instance of the patch's deletions or insertions has this IRI as its predicate,
    /// whatever the mapping.
    pub fn has_fixed_predicate(&self, iri: &str) -> bool
        ensures { IsTrue result
            ↔ (HasPredicate (λ name. None) self.now.deletions.items iri.now
            ⊎ HasPredicate (λ name. None) self.now.insertions.items iri.now) }
    {
        has_predicate(&[], self.deletions.as_slice(), iri)
            || has_predicate(&[], self.insertions.as_slice(), iri)
    }

    /// Whether under the mapping an instance of the patch's deletions or insertions has this IRI as
    /// its predicate.
    pub fn has_predicate(&self, mapping: &Mapping, iri: &str) -> bool
        ensures { IsTrue result
            ↔ (HasPredicate (value_of mapping.now.pairs.items) self.now.deletions.items iri.now
            ⊎ HasPredicate
            (value_of mapping.now.pairs.items) self.now.insertions.items iri.now) }
    {
        let pairs = mapping.pairs.as_slice();
        has_predicate(pairs, self.deletions.as_slice(), iri)
            || has_predicate(pairs, self.insertions.as_slice(), iri)
    }

    /// Whether the instances of the deletions under the mapping are in the graph, and then whether
    /// those of the insertions are triples of RDF: else `MissingDeletion` or `NotTriple`. Takes no
    /// memory.
    pub fn check(&self, graph: &Graph, mapping: &Mapping) -> Result<(), PatchFault>
        requires deletions { BindsPatterns mapping.now.pairs.items self.now.deletions.items }
        requires insertions { BindsPatterns mapping.now.pairs.items self.now.insertions.items }
        ensures fits { IfOk result
            (λ _. FitsGraph graph.now self.now (value_of mapping.now.pairs.items)) }
        ensures fault { IfErr result
            (IsCheckFault graph.now self.now (value_of mapping.now.pairs.items)) }
    {
        let _triples = graph.as_slice();
        let pairs = mapping.pairs.as_slice();
        if !are_in(graph, pairs, self.deletions.as_slice()) {
            return Err(PatchFault::MissingDeletion);
        }
        if !are_rdf(pairs, self.insertions.as_slice()) {
            return Err(PatchFault::NotTriple);
        }
        Ok(())
    }

    /// The encoded size of the instances of the deletions and insertions under the mapping, those
    /// that are equal counted as often as they are made. At most 2^64 - 1. Takes no memory. A
    /// caller that refuses a patch by this size bounds the encoded size of its change, by 16 bytes
    /// more.
    pub fn instances_size(&self, mapping: &Mapping) -> u64
        requires deletions { BindsPatterns mapping.now.pairs.items self.now.deletions.items }
        requires insertions { BindsPatterns mapping.now.pairs.items self.now.insertions.items }
        ensures { result
            ≡ saturated (instances_size
            (value_of mapping.now.pairs.items) self.now.deletions.items
            + instances_size (value_of mapping.now.pairs.items) self.now.insertions.items) }
    {
        let pairs = mapping.pairs.as_slice();
        saturating_sum(
            size_of_all(pairs, self.deletions.as_slice()),
            size_of_all(pairs, self.insertions.as_slice()),
        )
    }

    /// The change that the mapping makes of the patch: the instances of its deletions and of its
    /// insertions, each once. They share the memory of the mapping's and the patch's texts. The
    /// change's encoded size is at most `instances_size` and the two counts of 8 bytes each. Where
    /// `instances_size` exceeds [`INSTANCES_LIMIT`], they are out of memory, before any is made.
    pub fn change(&self, alloc: Global, mapping: &Mapping) -> Mem<Change>
        requires deletions { BindsPatterns mapping.now.pairs.items self.now.deletions.items }
        requires insertions { BindsPatterns mapping.now.pairs.items self.now.insertions.items }
        requires removed_rdf { (x : Triple)
            → IsInstance (value_of mapping.now.pairs.items) self.now.deletions.items x
            → IsRdf x }
        requires added_rdf { (x : Triple)
            → IsInstance (value_of mapping.now.pairs.items) self.now.insertions.items x
            → IsRdf x }
        ensures removed { IfOk result
            (λ change. AreInstances
            (value_of mapping.now.pairs.items) self.now.deletions.items change.removed) }
        ensures added { IfOk result
            (λ change. AreInstances
            (value_of mapping.now.pairs.items) self.now.insertions.items change.added) }
        ensures size { IfOk result
            (λ change. change_size change.removed change.added
            ≤ instances_size (value_of mapping.now.pairs.items) self.now.deletions.items
            + instances_size (value_of mapping.now.pairs.items) self.now.insertions.items
            + 16) }
    {
        if self.instances_size(mapping) > INSTANCES_LIMIT {
            return Err(NoMemory);
        }
        let pairs = mapping.pairs.as_slice();
        let removed = graph_of(alloc, pairs, self.deletions.as_slice())?;
        let added = graph_of(alloc, pairs, self.insertions.as_slice())?;
        Ok(Change { removed, added })
    }
}

/// The graph of the instances of the patterns under the pairs.
fn graph_of(alloc: Global, pairs: &[(Text, Term)], patterns: &[Pattern]) -> Mem<Graph>
    requires known { BindsPatterns pairs.now patterns.now }
    requires rdf { (x : Triple) → IsInstance (value_of pairs.now) patterns.now x → IsRdf x }
    ensures members { IfOk result (AreInstances (value_of pairs.now) patterns.now) }
    ensures size { IfOk result
        (λ triples. triples_size triples ≤ instances_size (value_of pairs.now) patterns.now) }
{
    let triples = instances(alloc, pairs, patterns)?;
    Ok(Graph::of(List::from_vec(triples)))
}

/// Whether some pattern's instance under the pairs has this IRI as its predicate.
fn has_predicate(pairs: &[(Text, Term)], patterns: &[Pattern], iri: &str) -> bool
    ensures { IsTrue result ↔ HasPredicate (value_of pairs.now) patterns.now iri.now }
{
    for pattern in patterns {
        if is_iri_in(pairs, &pattern.p, iri) {
            return true;
        }
    }
    false
}

/// Whether the slot's instance under the pairs is this IRI.
fn is_iri_in(pairs: &[(Text, Term)], slot: &Slot, iri: &str) -> bool
    ensures { IsTrue result ↔ (slot_term (value_of pairs.now) slot.now ≡ Some (IriTerm iri.now)) }
{
    match slot {
        Slot::Fixed(term) => is_this_iri(term, iri),
        Slot::Var(name) => match value(pairs, name.as_str()) {
            Some(term) => is_this_iri(term, iri),
            None => false,
        },
    }
}

/// Whether an instance's term is this IRI.
fn is_this_iri(term: &Term, iri: &str) -> bool
    ensures { IsTrue result ↔ (term.now ≡ IriTerm iri.now) }
{
    match term {
        Term::Iri(other) => other.as_str() == iri,
        _ => false,
    }
}

/// Whether the graph has all instances of the patterns under the pairs.
fn are_in(graph: &Graph, pairs: &[(Text, Term)], patterns: &[Pattern]) -> bool
    requires { BindsPatterns pairs.now patterns.now }
    ensures { MatchBool result
        ((x : Triple) → IsInstance (value_of pairs.now) patterns.now x → Contains graph.now x)
        ((x : Triple) × IsInstance (value_of pairs.now) patterns.now x
        × (Contains graph.now x → ⊥)) }
{
    for pattern in patterns {
        let triple = instance(pairs, pattern);
        if !graph.contains_parts(&triple) {
            return false;
        }
    }
    true
}

/// Whether all instances of the patterns under the pairs are triples of RDF.
fn are_rdf(pairs: &[(Text, Term)], patterns: &[Pattern]) -> bool
    requires { BindsPatterns pairs.now patterns.now }
    ensures { MatchBool result
        ((x : Triple) → IsInstance (value_of pairs.now) patterns.now x → IsRdf x)
        ((x : Triple) × IsInstance (value_of pairs.now) patterns.now x × (IsRdf x → ⊥)) }
{
    for pattern in patterns {
        let triple = instance(pairs, pattern);
        if !are_rdf_parts(&triple) {
            return false;
        }
    }
    true
}

/// The sum of the sizes of the patterns' instances under the pairs.
fn size_of_all(pairs: &[(Text, Term)], patterns: &[Pattern]) -> u64
    requires { BindsPatterns pairs.now patterns.now }
    ensures { result ≡ saturated (instances_size (value_of pairs.now) patterns.now) }
{
    let mut size = size_of(0);
    for pattern in patterns {
        size = saturating_sum(size, instance_size(pairs, pattern));
    }
    size
}

/// The size of the pattern's instance, the triple that the pairs make of it.
fn instance_size(pairs: &[(Text, Term)], pattern: &Pattern) -> u64
    requires { BindsPattern pairs.now pattern.now }
    ensures { result ≡ saturated (instance_size (value_of pairs.now) pattern.now) }
{
    size_of_parts(&instance(pairs, pattern))
}

/// The instances of the patterns, the triples that the pairs make of them.
fn instances(alloc: Global, pairs: &[(Text, Term)], patterns: &[Pattern]) -> Mem<Vec<Triple>>
    requires { BindsPatterns pairs.now patterns.now }
    ensures { IfOk result
        (λ triples. AllZip (Instantiates (value_of pairs.now)) patterns.now triples.items) }
{
    let mut triples = Vec::with_capacity(alloc, patterns.len())?;
    for pattern in patterns {
        let triple = copy_parts(alloc, &instance(pairs, pattern))?;
        triples.push(triple)?;
    }
    Ok(triples)
}

/// The instance of the pattern, the triple that the pairs make of it, by references.
fn instance<'a>(pairs: &'a [(Text, Term)], pattern: &'a Pattern) -> TripleRef<'a>
    requires { BindsPattern pairs.now pattern.now }
    ensures { Instantiates (value_of pairs.now) pattern.now (triple_of result) }
{
    TripleRef {
        s: term_in(pairs, &pattern.s),
        p: term_in(pairs, &pattern.p),
        o: term_in(pairs, &pattern.o),
    }
}

/// The term of the slot in an instance under the pairs.
fn term_in<'a>(pairs: &'a [(Text, Term)], slot: &'a Slot) -> &'a Term
    requires { BindsSlot pairs.now slot.now }
    ensures { slot_term (value_of pairs.now) slot.now ≡ Some result.now }
{
    match slot {
        Slot::Fixed(term) => term,
        Slot::Var(name) => match value(pairs, name.as_str()) {
            Some(term) => term,
            None => unreachable!(),
        },
    }
}
