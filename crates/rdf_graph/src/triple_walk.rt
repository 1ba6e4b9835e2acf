//! Iterating over the triples of a graph that have given terms, without copies.
ghost use Rattle.std.specs.Prelude.{◌≡◌, ◌↔◌, Contains};
ghost use Rattle.std.specs.Option.{option_copied};
ghost use Rattle.rdf_graph.specs.Graph.{IsOrdered};
ghost use Rattle.rdf_graph.specs.Triple.{HasTerms};
ghost use Rattle.rdf_graph.specs.Walk.{walk_rest};
ghost use Rattle.rdf_graph.specs.declared.triple.Triple.{Triple};

use crate::graph::Graph;
use crate::matching::{has_terms, subject_range};
use crate::term::Term;
use crate::triple::Triple;

/// An iterator over triples of a graph, in order, by reference.
#[derive(Drop)]
pub struct Walk<'a> {
    rest: &'a [Triple],
    s: Option<&'a Term>,
    p: Option<&'a Term>,
    o: Option<&'a Term>,
}

impl<'a> Iterator for Walk<'a> {
    ghost use Rattle.std.specs.Iterator.{YieldsFirstRef, item_count};
    ghost use Rattle.rdf_graph.specs.Walk.{walk_rest};

    type Item = &'a Triple;

    ghost next_gives = { YieldsFirstRef walk_rest };

    ghost remaining = { item_count walk_rest };

    /// The next triple of a walk that has the given terms.
    fn next(&mut self) -> Option<&'a Triple> {
        while let Some((first, rest)) = self.rest.split_first() {
            self.rest = rest;
            if has_terms(first, self.s, self.p, self.o) {
                return Some(first);
            }
        }
        None
    }
}

impl Graph {
    /// A walk over the triples that have these terms, where they are given, in order and by
    /// reference. With a subject it looks at the triples of that subject alone.
    pub fn walk<'a>(
        &'a self,
        s: Option<&'a Term>,
        p: Option<&'a Term>,
        o: Option<&'a Term>,
    ) -> Walk<'a>
        ensures members { (x : Triple) → Contains (walk_rest result) x
            ↔ (Contains self.now x
            × HasTerms (option_copied s.entry) (option_copied p.entry)
            (option_copied o.entry) x) }
        ensures ordered { IsOrdered (walk_rest result) }
    {
        let rest = subject_range(self.as_slice(), s);
        Walk { rest, s, p, o }
    }
}
