//! The state of a walk over a document: its triples, their size, and the number of the next node.

ghost use Rattle.std.specs.Prelude.{◌≡◌, ◌+◌, ℕ, IfOk, OnOk};
ghost use Rattle.rdf_graph.specs.Size.{saturated};
ghost use Rattle.rdf_graph.specs.Term.{IsLiteral};
ghost use Rattle.rdf_graph.specs.declared.term.Term.TheVariants.{Iri as IriTerm};
ghost use Rattle.jsonld_expanded.specs.Expands.{Says, start};
ghost use Rattle.jsonld_expanded.specs.Walks.{Advances, Stands};

use iri_ref::Iri;
use pod_base::{Mem, NoMemory};
use rdf_graph::{TRIPLES_LIMIT, Term, Triple, copy_iri, saturating_sum};
use std::alloc::Global;

/// The most bytes that the terms that are made for one document have in their stored form. Each
/// object of a triple counts, and each node that is no object.
pub const MADE_LIMIT: u64 = 33_554_432;

#[derive(Drop)]
pub(crate) struct Walk {
    /// The triples, as long as their size is within the limit.
    pub(crate) triples: Vec<Triple>,
    /// The encoded size of all triples, repeats included; at most 2^64 - 1.
    pub(crate) size: u64,
    /// The least number that the next unnamed node may get.
    pub(crate) next: u64,
    /// How many bytes of terms may still be made.
    pub(crate) left: u64,
}

/// How many bytes of terms a walk may still make, after this one.
fn left_after(left: u64, term: &Term) -> Mem<u64> {
    match left.checked_sub(term.encoded_size()) {
        Some(left) => Ok(left),
        None => Err(NoMemory),
    }
}

/// The triple of these terms, for the state of a walk.
fn triple_of(alloc: Global, s: &Term, p: &Iri, o: Term) -> Mem<Triple>
    ensures subject { IfOk result (λ t. t.s ≡ s.now) }
    ensures predicate { IfOk result (λ t. t.p ≡ IriTerm p.now) }
    ensures object { IfOk result (λ t. t.o ≡ o) }
{
    let s = s.copy(alloc)?;
    let p = copy_iri(alloc, p)?;
    Ok(Triple {
        s,
        p: Term::Iri(p),
        o,
    })
}

impl Walk {
    /// The state of a walk that has not begun.
    pub(crate) fn new(alloc: Global) -> Walk
        ensures { Stands result start }
    {
        Walk {
            triples: Vec::new(alloc),
            size: 0,
            next: 0,
            left: MADE_LIMIT,
        }
    }

    /// Counts in the walk's state a term that was made and is no object of a triple.
    pub(crate) fn count_made(&mut self, term: &Term) -> Mem<()>
        ensures { OnOk result (Advances (λ a b. b ≡ a) self.old self.new) }
    {
        let left = left_after(self.left, term)?;
        self.left = left;
        Ok(())
    }

    /// Adds a triple to the walk's state, whose object was made for it.
    pub(crate) fn say(&mut self, alloc: Global, s: &Term, p: &Iri, o: Term) -> Mem<()>
        requires { ¬ IsLiteral s.now }
        ensures { OnOk result (Advances (Says s.now p.now o) self.old self.new) }
    {
        let left = left_after(self.left, &o)?;
        self.left = left;
        let triple = triple_of(alloc, s, p, o)?;
        self.size = saturating_sum(self.size, triple.encoded_size());
        if self.size > TRIPLES_LIMIT {
            return Ok(());
        }
        self.triples.push(triple)?;
        Ok(())
    }
}
