//! The order of triples: the byte order of their lines.
ghost use Rattle.std.specs.Prelude.{◌≡◌};
ghost use Rattle.std.proofs.Common.{rules};
ghost use Rattle.std.specs.Cmp.{eq_by_cmp_equiv, partial_order_from_total};
ghost use Rattle.std.specs.Cmp.{partial_equiv_from_equiv};
ghost use Rattle.std.specs.Cmp.Rules.{comparing};
ghost use Rattle.std.specs.Ordering.{as_partial_cmp, eq_by_cmp};
ghost use Rattle.rdf_graph.specs.Triple.{triple_cmp};
ghost use Rattle.rdf_graph.specs.TripleLaws.{triple_cmp_total};
ghost use Rattle.rdf_graph.specs.TripleRef.{triple_of};

use crate::line_order::cmp_lines;
use crate::triple::Triple;
use crate::triple_ref::TripleRef;
use std::cmp::Ordering;

impl PartialEq for Triple {
    ghost eq = { eq_by_cmp triple_cmp };

    ghost laws = { partial_equiv_from_equiv (eq_by_cmp_equiv triple_cmp_total) };

    fn eq(&self, other: &Triple) -> bool {
        self.cmp(other).is_eq()
    }
}

impl Eq for Triple {
    ghost laws = { eq_by_cmp_equiv triple_cmp_total };
}

impl PartialOrd for Triple {
    ghost partial_cmp = { as_partial_cmp triple_cmp };

    ghost laws = { partial_order_from_total triple_cmp_total };

    fn partial_cmp(&self, other: &Triple) -> Option<Ordering> {
        Some(self.cmp(other))
    }
}

/// Triples are in the byte order of their lines.
impl Ord for Triple {
    ghost cmp = { triple_cmp };

    ghost total = { triple_cmp_total };

    ghost matches_partial_cmp = { Prim.search (comparing, rules) };

    ghost matches_eq = { Prim.search (comparing, rules) };

    fn cmp(&self, other: &Triple) -> Ordering {
        cmp_triples(&self.parts(), &other.parts())
    }
}

/// The order of two triples.
#[tactic(auto, unfolding(crate::specs::Triple::triple_cmp))]
pub fn cmp_triples(a: &TripleRef<'_>, b: &TripleRef<'_>) -> Ordering
    ensures { result ≡ triple_cmp (triple_of a.now) (triple_of b.now) }
{
    match cmp_lines(a, b) {
        // Only labels and tags with spaces in them give two triples one line.
        Ordering::Equal => match a.s.cmp_text(b.s) {
            Ordering::Equal => a.p.cmp_text(b.p),
            unequal => unequal,
        },
        unequal => unequal,
    }
}
