//! The order of slots and patterns: the byte order of their texts.
ghost use Rattle.std.specs.Prelude.{◌≡◌, ◌∷◌, ℕ, List};
ghost use Rattle.std.proofs.Common.{rules};
ghost use Rattle.std.specs.Cmp.{eq_by_cmp_equiv, partial_order_from_total};
ghost use Rattle.std.specs.Cmp.{partial_equiv_from_equiv};
ghost use Rattle.std.specs.Cmp.Rules.{comparing};
ghost use Rattle.std.specs.Ordering.{as_partial_cmp, eq_by_cmp};
ghost use Rattle.rdf_graph.specs.Term.{text};
ghost use Rattle.rdf_graph.specs.Triple.{bytes_cmp};
ghost use Rattle.graph_patch.specs.PatternOrder.{pattern_cmp, slot_cmp};
ghost use Rattle.graph_patch.specs.PatternOrderLaws.{pattern_cmp_total, slot_cmp_total};

use crate::pattern::{Pattern, Slot};
use rdf_graph::Term;
use std::cmp::Ordering;

impl PartialEq for Slot {
    ghost eq = { eq_by_cmp slot_cmp };

    ghost laws = { partial_equiv_from_equiv (eq_by_cmp_equiv slot_cmp_total) };

    fn eq(&self, other: &Slot) -> bool {
        self.cmp(other).is_eq()
    }
}

impl Eq for Slot {
    ghost laws = { eq_by_cmp_equiv slot_cmp_total };
}

impl PartialOrd for Slot {
    ghost partial_cmp = { as_partial_cmp slot_cmp };

    ghost laws = { partial_order_from_total slot_cmp_total };

    fn partial_cmp(&self, other: &Slot) -> Option<Ordering> {
        Some(self.cmp(other))
    }
}

/// Slots are in the byte order of their texts, where a variable's is `?` and its name.
impl Ord for Slot {
    ghost cmp = { slot_cmp };

    ghost total = { slot_cmp_total };

    ghost matches_partial_cmp = { Prim.search (comparing, rules) };

    ghost matches_eq = { Prim.search (comparing, rules) };

    #[tactic(auto, unfolding(crate::specs::PatternOrder::slot_cmp))]
    fn cmp(&self, other: &Slot) -> Ordering {
        match (self, other) {
            (Slot::Fixed(term), Slot::Fixed(other)) => term.cmp_text(other),
            (Slot::Fixed(term), Slot::Var(_)) => cmp_to_variable(term),
            (Slot::Var(_), Slot::Fixed(term)) => cmp_with_variable(term),
            (Slot::Var(name), Slot::Var(other)) => {
                name.as_str().as_bytes().cmp(other.as_str().as_bytes())
            }
        }
    }
}

/// The order of a variable's slot and a term's, which is how each text that begins with `?`
/// compares with the term's.
#[tactic(auto, unfolding(rdf_graph::specs::Term::text))]
fn cmp_with_variable(term: &Term) -> Ordering
    ensures { (name : List ℕ) → result ≡ bytes_cmp (63 ∷ name) (text term.now) }
{
    match term {
        Term::Blank(_) => Ordering::Less,
        _ => Ordering::Greater,
    }
}

/// The order of a term's slot and a variable's, which is how the term's text compares with each
/// that begins with `?`.
#[tactic(auto, unfolding(rdf_graph::specs::Term::text))]
fn cmp_to_variable(term: &Term) -> Ordering
    ensures { (name : List ℕ) → result ≡ bytes_cmp (text term.now) (63 ∷ name) }
{
    match term {
        Term::Blank(_) => Ordering::Greater,
        _ => Ordering::Less,
    }
}

impl PartialEq for Pattern {
    ghost eq = { eq_by_cmp pattern_cmp };

    ghost laws = { partial_equiv_from_equiv (eq_by_cmp_equiv pattern_cmp_total) };

    fn eq(&self, other: &Pattern) -> bool {
        self.cmp(other).is_eq()
    }
}

impl Eq for Pattern {
    ghost laws = { eq_by_cmp_equiv pattern_cmp_total };
}

impl PartialOrd for Pattern {
    ghost partial_cmp = { as_partial_cmp pattern_cmp };

    ghost laws = { partial_order_from_total pattern_cmp_total };

    fn partial_cmp(&self, other: &Pattern) -> Option<Ordering> {
        Some(self.cmp(other))
    }
}

/// Patterns are in the order of their subjects, then of their predicates, then of their objects.
impl Ord for Pattern {
    ghost cmp = { pattern_cmp };

    ghost total = { pattern_cmp_total };

    ghost matches_partial_cmp = { Prim.search (comparing, rules) };

    ghost matches_eq = { Prim.search (comparing, rules) };

    #[tactic(auto, unfolding(crate::specs::PatternOrder::pattern_cmp))]
    fn cmp(&self, other: &Pattern) -> Ordering {
        match self.s.cmp(&other.s) {
            Ordering::Equal => match self.p.cmp(&other.p) {
                Ordering::Equal => self.o.cmp(&other.o),
                unequal => unequal,
            },
            unequal => unequal,
        }
    }
}
