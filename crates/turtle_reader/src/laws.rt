//! Laws of what lexemes mean and of their faults, for the proofs of the languages above.
//!
//! Each is the contract of a function that does nothing.

ghost use Rattle.turtle_reader.specs.Laws.{HasOneMeaning, HaveOneMeanings, ReadHasNoFault};
ghost use Rattle.turtle_reader.specs.Laws.{MeansNoFault};

/// The law that a lexeme has one meaning or one fault, and lexemes have one list of meanings.
pub fn one_meaning()
    ensures lexeme { HasOneMeaning }
    ensures lexemes { HaveOneMeanings }
    ensures no_fault { MeansNoFault }
{}

/// The law that lexemes which were read have no fault.
#[tactic(auto, using(crate::proofs::Stepping::no_fault_before))]
pub fn no_fault()
    ensures { ReadHasNoFault }
{}
