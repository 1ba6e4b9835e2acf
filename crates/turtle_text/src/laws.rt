//! Laws of documents, for the proofs of readers and writers. Each is the contract of a function
//! that does nothing.

ghost use Rattle.turtle_grammar.specs.declared.symbol.Start.TheVariants.{Document};
ghost use Rattle.turtle_reader.specs.LanguageFaults.{HasOneFirstFault, PlacesAscend};
ghost use Rattle.turtle_text.specs.Faults.{IsLarge};
ghost use Rattle.turtle_text.specs.Laws.{HasOneGraph, HasOneDerivation};

/// The law that a text of Turtle spells at most one graph under a base.
pub fn one_graph()
    ensures { HasOneGraph }
{}

/// The law that the derivation of a text of Turtle has one list of lexemes, one tree and one list
/// of triples.
pub fn one_derivation()
    ensures { HasOneDerivation }
{}

/// The law that a text of Turtle has at most one first fault.
pub fn one_first_fault()
    ensures { HasOneFirstFault IsLarge Document }
{}

/// The law that faults in a text of Turtle with a lesser index have a lesser position: the first
/// fault has the least.
pub fn places()
    ensures { PlacesAscend IsLarge Document }
{}
