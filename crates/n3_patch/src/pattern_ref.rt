//! [`PatternRef`]: a triple by reference, in the order of its pattern.

ghost use Rattle.std.specs.Prelude.{◌≡◌};
ghost use Rattle.std.proofs.Common.{rules};
ghost use Rattle.std.specs.Cmp.{eq_by_cmp_equiv, partial_order_from_total, partial_equiv_from_equiv};
ghost use Rattle.std.specs.Cmp.Rules.{comparing};
ghost use Rattle.std.specs.Ordering.{as_partial_cmp, eq_by_cmp};
ghost use Rattle.graph_patch.specs.PatternOrder.{pattern_cmp, slot_cmp};
ghost use Rattle.graph_patch.specs.PatternOrderLaws.{pattern_cmp_total};
ghost use Rattle.graph_patch.specs.declared.pattern.Slot.TheVariants.{Fixed, Var};
ghost use Rattle.n3_patch.specs.Progress.{slot_like};

use crate::triples::{PatchNode, PatchTriple};
use rdf_graph::Term;
use std::cmp::Ordering;
use std::marker::Model;

/// A triple by reference, for sets of patterns. Contracts see its pattern, in which a formula is a
/// variable without a name.
#[derive(Drop)]
pub(crate) struct PatternRef<'a> {
    pub(crate) triple: &'a PatchTriple,
}

impl<'a> Model for PatternRef<'a> {
    ghost use Rattle.graph_patch.specs.declared.pattern.Pattern.{Pattern};
    ghost use Rattle.n3_patch.specs.Progress.{pattern_like};

    ghost Value = { Pattern };

    ghost view = { λ r. pattern_like r.triple.now };
}

impl<'a> PartialEq for PatternRef<'a> {
    ghost eq = { eq_by_cmp pattern_cmp };

    ghost laws = { partial_equiv_from_equiv (eq_by_cmp_equiv pattern_cmp_total) };

    fn eq(&self, other: &Self) -> bool {
        self.cmp(other).is_eq()
    }
}

impl<'a> Eq for PatternRef<'a> {
    ghost laws = { eq_by_cmp_equiv pattern_cmp_total };
}

impl<'a> PartialOrd for PatternRef<'a> {
    ghost partial_cmp = { as_partial_cmp pattern_cmp };

    ghost laws = { partial_order_from_total pattern_cmp_total };

    fn partial_cmp(&self, other: &Self) -> Option<Ordering> {
        Some(self.cmp(other))
    }
}

impl<'a> Ord for PatternRef<'a> {
    ghost cmp = { pattern_cmp };

    ghost total = { pattern_cmp_total };

    ghost matches_partial_cmp = { Prim.search (comparing, rules) };

    ghost matches_eq = { Prim.search (comparing, rules) };

    #[tactic(auto, unfolding(graph_patch::specs::PatternOrder::pattern_cmp))]
    fn cmp(&self, other: &Self) -> Ordering {
        match cmp_nodes(&self.triple.subject, &other.triple.subject) {
            Ordering::Equal => match cmp_nodes(&self.triple.predicate, &other.triple.predicate) {
                Ordering::Equal => cmp_nodes(&self.triple.object, &other.triple.object),
                unequal => unequal,
            },
            unequal => unequal,
        }
    }
}

/// Compares the nodes of two pattern references by their slots.
fn cmp_nodes(node: &PatchNode, other: &PatchNode) -> Ordering
    ensures { result ≡ slot_cmp (slot_like node.now) (slot_like other.now) }
{
    match node {
        PatchNode::Term(term) => cmp_term(term, other),
        PatchNode::Variable(name) => cmp_variable(name.as_str(), other),
        PatchNode::Formula(_) => cmp_variable("", other),
    }
}

/// Compares a term with a node of a pattern reference by their slots, where a variable's text begins
/// with `?`.
#[tactic(auto, unfolding(graph_patch::specs::PatternOrder::slot_cmp, rdf_graph::specs::TermOrder::term_cmp, rdf_graph::specs::Term::text))]
fn cmp_term(term: &Term, other: &PatchNode) -> Ordering
    ensures { result ≡ slot_cmp (Fixed term.now) (slot_like other.now) }
{
    match other {
        PatchNode::Term(other) => term.cmp(other),
        _ => match term {
            Term::Blank(_) => Ordering::Greater,
            _ => Ordering::Less,
        },
    }
}

/// Compares a variable with a node of a pattern reference by their slots.
#[tactic(auto, unfolding(graph_patch::specs::PatternOrder::slot_cmp, rdf_graph::specs::Term::text))]
fn cmp_variable(name: &str, other: &PatchNode) -> Ordering
    ensures { result ≡ slot_cmp (Var name.now) (slot_like other.now) }
{
    match other {
        PatchNode::Term(term) => match term {
            Term::Blank(_) => Ordering::Less,
            _ => Ordering::Greater,
        },
        PatchNode::Variable(other) => name.as_bytes().cmp(other.as_str().as_bytes()),
        PatchNode::Formula(_) => name.as_bytes().cmp("".as_bytes()),
    }
}
