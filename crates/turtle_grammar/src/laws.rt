//! Laws of derivations and of reading, for the proofs of the crates above.
//!
//! Each is the contract of a function that does nothing.

ghost use Rattle.turtle_grammar.specs.Laws.{HasOneDerivation, HasOneProduce, PrefixesGoOn};
ghost use Rattle.turtle_grammar.specs.Laws.{DerivedGoesOn, ReadGoesOn, ReadIsShallow};
ghost use Rattle.turtle_grammar.specs.Laws.{NothingNamesNothing};
ghost use Rattle.turtle_grammar.specs.Laws.{IsUnambiguous, HasOneTree, HasOneList};

/// The law that a list of symbols derives one list, and so is what it produces up to its last
/// symbol.
pub fn one_derivation()
    ensures derived { HasOneDerivation }
    ensures produced { HasOneProduce }
{}

/// The law that the grammar is unambiguous: a derivation has one tree, which has one list of
/// symbols, and derives one list of productions.
pub fn one_tree()
    ensures grammar { IsUnambiguous }
    ensures tree { HasOneTree }
    ensures list { HasOneList }
{}

/// The law that symbols which go on have each of their prefixes going on, and that what is derived
/// goes on at each of them.
pub fn prefixes()
    ensures go_on { PrefixesGoOn }
    ensures of_derived { DerivedGoesOn }
{}

/// The law that what the machine has read goes on, no bracket of it is too deep, and before the
/// first symbol nothing is unfinished.
pub fn readings()
    ensures go_on { ReadGoesOn }
    ensures shallow { ReadIsShallow }
    ensures at_start { NothingNamesNothing }
{}
