//! Patterns with variables, and mappings from variables to terms.
ghost use Rattle.std.specs.Prelude.{◌≡◌};
ghost use Rattle.std.specs.Option.{option_copied};
ghost use Rattle.graph_patch.specs.Pattern.{value_of};

use pod_base::{List, Text};
use rdf_graph::Term;

/// A position of a pattern: a term, or a variable by its name.
#[derive(Debug, Drop)]
pub enum Slot {
    Fixed(Term),
    Var(Text),
}

/// A triple with variables at some positions.
#[derive(Debug, Drop)]
pub struct Pattern {
    pub s: Slot,
    pub p: Slot,
    pub o: Slot,
}

/// Terms for the names of variables, each name once.
#[derive(Debug, Drop)]
pub struct Mapping {
    pub pairs: List<(Text, Term)>,
}

impl Mapping {
    /// The term that the mapping has for the variable with that name, if it has one.
    pub fn get(&self, name: &str) -> Option<&Term>
        ensures { option_copied result ≡ value_of self.now.pairs.items name.now }
    {
        value(self.pairs.as_slice(), name)
    }
}

/// The term of a mapping's first pair with that name, if there is one.
pub(crate) fn value<'a>(pairs: &'a [(Text, Term)], name: &str) -> Option<&'a Term>
    ensures { option_copied result ≡ value_of pairs.now name.now }
{
    for (other, term) in pairs {
        if other.as_str() == name {
            return Some(term);
        }
    }
    None
}

/// How many mappings the conditions of a patch have in a graph.
#[derive(Debug, Drop)]
pub enum Found {
    Nothing,
    One(Mapping),
    Many,
}
