//! The triples of a patch document, as the parser produces them.

ghost use Rattle.std.specs.Prelude.{◌≡◌, ◌++◌, ◌∷◌, [], ℕ, List as ListOf, Some, IfOk, OnOk};
ghost use Rattle.turtle_reader.specs.Documents.{AreLazyLabelsOf};
ghost use Rattle.n3_patch.specs.Spells.{IsReferentNode, within_formula};
ghost use Rattle.n3_patch.specs.Reading.{IsReferentTriple};

use crate::size::{KEPT_BYTES_LIMIT, kept_bytes};
use crate::triples::{PatchNode, PatchTriple};
use pod_base::{List, Mem, NoMemory, Text};
use rdf_graph::Term;
use std::alloc::Global;
use std::collections::BTreeSet;
use turtle_grammar::{Start, Within};
use turtle_reader::{Language, LazyLabels, Referent, ResolvedTriple};

/// The triples so far, and the labels of unnamed nodes as soon as there is one.
#[derive(Drop)]
pub(crate) struct Made {
    pub(crate) list: List<PatchTriple>,
    pub(crate) labels: LazyLabels,
    /// The names of variables, each of which has its memory once.
    names: BTreeSet<Text>,
    /// How many bytes of triples it may still keep.
    left: u64,
}

/// An equal name of a patch document's variable, which shares its memory with the ones before.
fn shared(alloc: Global, names: &mut BTreeSet<Text>, name: Text) -> Mem<Text>
    ensures { IfOk result (λ one. one ≡ name) }
{
    match names.get(&name) {
        Some(known) => known.copy(alloc),
        None => {
            let copy = name.copy(alloc)?;
            let _ = names.insert(copy)?;
            Ok(name)
        }
    }
}

/// The node of a patch document that a collected triple's node refers to.
fn node_of(
    alloc: Global,
    bytes: &[u8],
    labels: &mut LazyLabels,
    names: &mut BTreeSet<Text>,
    referent: Referent,
) -> Mem<PatchNode>
    requires { AreLazyLabelsOf bytes.now labels.old }
    ensures labels { AreLazyLabelsOf bytes.now labels.new }
    ensures node { IfOk result (IsReferentNode bytes.now (Some referent)) }
{
    match referent {
        Referent::Term(term) => Ok(PatchNode::Term(term)),
        Referent::Variable(name) => Ok(PatchNode::Variable(shared(alloc, names, name)?)),
        Referent::Formula(index) => Ok(PatchNode::Formula(index)),
        Referent::Unnamed(number) => {
            let label = labels.label(alloc, bytes, number)?;
            Ok(PatchNode::Term(Term::Blank(label)))
        }
    }
}

/// The formula of a patch document that a collected triple is part of.
fn within_formula(within: Within) -> Option<usize>
    ensures { result ≡ within_formula within }
{
    match within {
        Within::Formula(index) => Some(index),
        _ => None,
    }
}

/// The triple of a patch document that is collected, over its nodes.
fn triple_of(
    alloc: Global,
    bytes: &[u8],
    labels: &mut LazyLabels,
    names: &mut BTreeSet<Text>,
    resolved: ResolvedTriple,
) -> Mem<PatchTriple>
    requires { AreLazyLabelsOf bytes.now labels.old }
    ensures labels { AreLazyLabelsOf bytes.now labels.new }
    ensures triple { IfOk result (IsReferentTriple bytes.now resolved) }
{
    let formula = within_formula(resolved.within);
    let subject = node_of(alloc, bytes, labels, names, resolved.subject)?;
    let predicate = node_of(alloc, bytes, labels, names, resolved.predicate)?;
    let object = node_of(alloc, bytes, labels, names, resolved.object)?;
    Ok(PatchTriple {
        subject,
        predicate,
        object,
        formula,
    })
}

impl Made {
    /// The triples of a patch document of which none are collected yet.
    pub(crate) fn new(alloc: Global) -> Made
        ensures list { result.list.items ≡ [] }
        ensures labels { (bytes : ListOf ℕ) → AreLazyLabelsOf bytes result.labels }
    {
        Made {
            list: List::new(alloc),
            labels: LazyLabels::new(),
            names: BTreeSet::new(alloc),
            left: KEPT_BYTES_LIMIT,
        }
    }

    /// Appends a triple of a patch document to those that are collected.
    fn push(&mut self, alloc: Global, triple: PatchTriple) -> Mem<()>
        ensures list { OnOk result (self.new.list.items ≡ self.old.list.items ++ triple ∷ []) }
        ensures labels { self.new.labels ≡ self.old.labels }
    {
        let Some(left) = self.left.checked_sub(kept_bytes(&triple)) else {
            return Err(NoMemory);
        };
        self.left = left;
        match self.list.push(alloc, triple) {
            Ok(()) => Ok(()),
            Err(_) => Err(NoMemory),
        }
    }
}

impl Language for Made {
    ghost use Rattle.turtle_grammar.specs.declared.symbol.Start.TheVariants.{Patch};
    ghost use Rattle.turtle_reader.specs.FirstFaults.{NeverLarge};
    ghost use Rattle.n3_patch.specs.Reading.{AreMade};

    ghost symbol = { Patch };

    ghost is_sound = { λ bytes made. AreLazyLabelsOf bytes made.labels };

    ghost is_kept = { λ bytes handed made. AreMade bytes handed made.list.items };

    ghost is_large = { λ base bytes. NeverLarge };

    fn start() -> Start {
        Start::Patch
    }

    fn keep(&mut self, alloc: Global, bytes: &[u8], triple: ResolvedTriple) -> Mem<()> {
        let triple = triple_of(alloc, bytes, &mut self.labels, &mut self.names, triple)?;
        self.push(alloc, triple)
    }

    fn judge(
        &mut self,
        _alloc: Global,
        _bytes: &[u8],
        _waiting: Option<ResolvedTriple>,
    ) -> Mem<bool> {
        Ok(false)
    }
}
