//! The order of terms: the byte order of their texts.
ghost use Rattle.std.proofs.Common.{rules, refl};
ghost use Rattle.std.specs.Cmp.{partial_order_from_agreeing_total};
ghost use Rattle.std.specs.Cmp.Rules.{comparing};
ghost use Rattle.std.specs.Ordering.{as_partial_cmp};
ghost use Rattle.rdf_graph.specs.TermOrder.{term_cmp};
ghost use Rattle.rdf_graph.specs.TermOrderLaws.{term_cmp_total, term_ties};

use crate::term::Term;
use std::cmp::Ordering;

impl PartialOrd for Term {
    ghost partial_cmp = { as_partial_cmp term_cmp };

    ghost laws = { partial_order_from_agreeing_total term_cmp term_cmp_total (λ x y. refl) term_ties };

    fn partial_cmp(&self, other: &Term) -> Option<Ordering> {
        Some(self.cmp(other))
    }
}

/// Terms are in the byte order of their texts.
impl Ord for Term {
    ghost cmp = { term_cmp };

    ghost total = { term_cmp_total };

    ghost matches_partial_cmp = { Prim.search (comparing, rules) };

    ghost matches_eq = { term_ties };

    #[tactic(auto, unfolding(crate::specs::TermOrder::term_cmp))]
    fn cmp(&self, other: &Term) -> Ordering {
        self.cmp_text(other)
    }
}
