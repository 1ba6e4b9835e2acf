//! The triples of a document.

ghost use Rattle.std.specs.Prelude.{◌≡◌, ◌++◌, ◌∷◌, [], Some, IfOk, OnOk};
ghost use Rattle.rdf_graph.specs.Triple.{IsRdf};
ghost use Rattle.turtle_reader.specs.Documents.{AreLazyLabelsOf};
ghost use Rattle.turtle_text.specs.Triples.{IsReferentTerm, IsReferentTriple};
ghost use Rattle.turtle_text.specs.Progress.{IsKeptAnywhere, KeepsTriple};

use pod_base::{List, Mem, NoMemory};
use rdf_graph::{TRIPLES_LIMIT, Term, Triple, saturating_sum};
use std::alloc::Global;
use turtle_grammar::Start;
use turtle_reader::{Language, LazyLabels, Referent, ResolvedTriple};

/// The triples so far, the sum of their encoded sizes, and the labels of unnamed nodes as soon as
/// there is one.
#[derive(Drop)]
pub(crate) struct Triples {
    pub(crate) list: List<Triple>,
    pub(crate) size: u64,
    pub(crate) labels: LazyLabels,
}

/// The term that a node of a Turtle document refers to. A document has neither variables nor
/// formulas.
fn term_of(alloc: Global, bytes: &[u8], labels: &mut LazyLabels, referent: Referent) -> Mem<Term>
    requires { AreLazyLabelsOf bytes.now labels.old }
    ensures labels { AreLazyLabelsOf bytes.now labels.new }
    ensures term { IfOk result (IsReferentTerm bytes.now (Some referent)) }
{
    match referent {
        Referent::Term(term) => Ok(term),
        Referent::Unnamed(number) => match labels.label(alloc, bytes, number) {
            Ok(label) => Ok(Term::Blank(label)),
            Err(full) => Err(full),
        },
        _ => Err(NoMemory),
    }
}

/// The triple of a Turtle document, over the terms that its nodes refer to.
fn triple_of(
    alloc: Global,
    bytes: &[u8],
    labels: &mut LazyLabels,
    resolved: ResolvedTriple,
) -> Mem<Triple>
    requires { AreLazyLabelsOf bytes.now labels.old }
    ensures labels { AreLazyLabelsOf bytes.now labels.new }
    ensures triple { IfOk result (IsReferentTriple bytes.now resolved) }
{
    let s = term_of(alloc, bytes, labels, resolved.subject)?;
    let p = term_of(alloc, bytes, labels, resolved.predicate)?;
    let o = term_of(alloc, bytes, labels, resolved.object)?;
    Ok(Triple { s, p, o })
}

/// The triple of a Turtle document, which is one of RDF: no document produces another.
fn sound(triple: Triple) -> Mem<Triple>
    ensures same { IfOk result (λ t. t ≡ triple) }
    ensures rdf { IfOk result IsRdf }
{
    if triple.is_rdf() {
        Ok(triple)
    } else {
        Err(NoMemory)
    }
}

/// Appends a triple to the list of a document's triples.
fn push_item(alloc: Global, list: &mut List<Triple>, triple: Triple) -> Mem<()>
    ensures { OnOk result (list.new.items ≡ list.old.items ++ triple ∷ []) }
{
    match list.push(alloc, triple) {
        Ok(()) => Ok(()),
        Err(_) => Err(NoMemory),
    }
}

impl Triples {
    /// The triples of a document of which nothing was read.
    pub(crate) fn new(alloc: Global) -> Triples
        ensures { IsKeptAnywhere result }
    {
        Triples {
            list: List::new(alloc),
            size: 0,
            labels: LazyLabels::new(),
        }
    }

    /// Appends a triple to the document's.
    fn push(&mut self, alloc: Global, triple: Triple) -> Mem<()>
        requires { IsRdf triple }
        ensures kept { OnOk result (KeepsTriple triple self.old self.new) }
        ensures labels { OnOk result (self.new.labels ≡ self.old.labels) }
    {
        let size = saturating_sum(self.size, triple.encoded_size());
        push_item(alloc, &mut self.list, triple)?;
        self.size = size;
        Ok(())
    }
}

impl Language for Triples {
    ghost use Rattle.turtle_grammar.specs.declared.symbol.Start.TheVariants.{Document};
    ghost use Rattle.turtle_text.specs.Faults.{IsLarge};
    ghost use Rattle.turtle_text.specs.Progress.{IsKept};

    ghost symbol = { Document };

    ghost is_sound = { λ bytes triples. AreLazyLabelsOf bytes triples.labels };

    ghost is_kept = { IsKept };

    ghost is_large = { IsLarge };

    fn start() -> Start {
        Start::Document
    }

    fn keep(&mut self, alloc: Global, bytes: &[u8], triple: ResolvedTriple) -> Mem<()> {
        let made = triple_of(alloc, bytes, &mut self.labels, triple)?;
        let triple = sound(made)?;
        self.push(alloc, triple)
    }

    fn judge(&mut self, alloc: Global, bytes: &[u8], waiting: Option<ResolvedTriple>) -> Mem<bool> {
        match waiting {
            Some(resolved) => {
                let triple = triple_of(alloc, bytes, &mut self.labels, resolved)?;
                Ok(saturating_sum(self.size, triple.encoded_size()) > TRIPLES_LIMIT)
            }
            None => Ok(self.size > TRIPLES_LIMIT),
        }
    }
}
