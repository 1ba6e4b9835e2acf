//! The triples of a patch document.

ghost use Rattle.std.specs.Prelude.{◌≡◌, IfOk};
ghost use Rattle.n3_patch.specs.Nodes.{node_eq, is_iri, is_formula, is_blank, slot_of};
ghost use Rattle.n3_patch.specs.Nodes.{pattern_from, pattern_of};
ghost use Rattle.n3_patch.specs.Parts.{is_inside};

use graph_patch::{Pattern, Slot};
use pod_base::{Mem, Text};
use rdf_graph::Term;
use std::alloc::Global;

/// A node of a triple.
#[derive(Debug, Drop)]
pub enum PatchNode {
    Term(Term),
    /// The variable of this name.
    Variable(Text),
    /// The formula that the symbol of this index opens.
    Formula(usize),
}

/// A triple of a patch document.
#[derive(Debug, Drop)]
pub struct PatchTriple {
    pub subject: PatchNode,
    pub predicate: PatchNode,
    pub object: PatchNode,
    /// The formula that it is part of, by the index of its `{`.
    pub formula: Option<usize>,
}

impl PatchNode {
    /// Whether the node of a patch document's triple is this IRI.
    pub(crate) fn is_iri(&self, iri: &str) -> bool
        ensures { result ≡ is_iri iri.now self.now }
    {
        match self {
            PatchNode::Term(term) => match term {
                Term::Iri(other) => other.as_str() == iri,
                _ => false,
            },
            _ => false,
        }
    }

    /// Whether the node of a patch document's triple is a formula.
    pub(crate) fn is_formula(&self) -> bool
        ensures { result ≡ is_formula self.now }
    {
        matches!(self, PatchNode::Formula(_))
    }

    /// Whether the node of a patch document's triple is a blank node.
    pub(crate) fn is_blank(&self) -> bool
        ensures { result ≡ is_blank self.now }
    {
        match self {
            PatchNode::Term(term) => matches!(term, Term::Blank(_)),
            _ => false,
        }
    }

    /// Whether the other node of a patch document's triples is the same.
    pub(crate) fn is(&self, other: &PatchNode) -> bool
        ensures { result ≡ node_eq self.now other.now }
    {
        match self {
            PatchNode::Term(term) => match other {
                PatchNode::Term(other) => term == other,
                _ => false,
            },
            PatchNode::Variable(name) => match other {
                PatchNode::Variable(other) => name.as_str() == other.as_str(),
                _ => false,
            },
            PatchNode::Formula(index) => match other {
                PatchNode::Formula(other) => *index == *other,
                _ => false,
            },
        }
    }

    /// The slot that the node of a patch document's triple has in a pattern, if it is no formula.
    fn slot(&self, alloc: Global) -> Mem<Option<Slot>>
        ensures { IfOk result (λ slot. slot ≡ slot_of self.now) }
    {
        match self {
            PatchNode::Term(term) => Ok(Some(Slot::Fixed(term.copy(alloc)?))),
            PatchNode::Variable(name) => Ok(Some(Slot::Var(name.copy(alloc)?))),
            PatchNode::Formula(_) => Ok(None),
        }
    }
}

/// The pattern of these slots, which the nodes of a triple have.
fn pattern_from(s: Option<Slot>, p: Option<Slot>, o: Option<Slot>) -> Option<Pattern>
    ensures { result ≡ pattern_from s p o }
{
    let s = s?;
    let p = p?;
    let o = o?;
    Some(Pattern { s, p, o })
}

impl PatchTriple {
    /// Whether the triple is in a formula.
    pub(crate) fn is_inside(&self) -> bool
        ensures { result ≡ is_inside self.now }
    {
        self.formula.is_some()
    }

    /// The triple's pattern, if no node is a formula.
    pub(crate) fn pattern(&self, alloc: Global) -> Mem<Option<Pattern>>
        ensures { IfOk result (λ pattern. pattern ≡ pattern_of self.now) }
    {
        let s = self.subject.slot(alloc)?;
        let p = self.predicate.slot(alloc)?;
        let o = self.object.slot(alloc)?;
        Ok(pattern_from(s, p, o))
    }
}
