//! Laws of updates, for the proofs of what stands on them.
//!
//! Each is the contract of a function that does nothing.

ghost use Rattle.turtle_grammar.specs.declared.symbol.Start.TheVariants.{Update};
ghost use Rattle.turtle_reader.specs.FirstFaults.{NeverLarge};
ghost use Rattle.turtle_reader.specs.LanguageFaults.{HasOneFirstFault, PlacesAscend};
ghost use Rattle.sparql_patch.specs.Laws.{LastNamingDecides, DeletionsAreInGraph};
ghost use Rattle.sparql_patch.specs.Laws.{EachIsListedOnce, WithoutRepeats, HasOneNaming};
ghost use Rattle.sparql_patch.specs.Laws.{HasOneAnswer};

/// The law that the last naming of a triple decides, and each triple is listed once.
#[tactic(auto, using(crate::proofs::NamedLemmas::listed_once))]
pub fn last_naming()
    ensures decides { LastNamingDecides }
    ensures deletions { DeletionsAreInGraph }
    ensures once { EachIsListedOnce }
{}

/// The law that an update which names no triple twice spells the patch of its two sets.
pub fn without_repeats()
    ensures { WithoutRepeats }
{}

/// The law that an update names at most one list of triples.
pub fn one_naming()
    ensures { HasOneNaming }
{}

/// The law that an update has at most one first fault of syntax: that at the least position.
pub fn first_fault()
    ensures one { HasOneFirstFault (λ base bytes. NeverLarge) Update }
    ensures least { PlacesAscend (λ base bytes. NeverLarge) Update }
{}

/// The law that an update is read as one list of triples, or has one fault beside out of memory.
#[tactic(auto, using(crate::proofs::OneAnswer::one_answer))]
pub fn one_answer()
    ensures { HasOneAnswer }
{}
