//! Laws of patch documents, for the proofs of crates that depend on this one.
//!
//! Each is the contract of a function that does nothing.

ghost use Rattle.turtle_grammar.specs.declared.symbol.Start.TheVariants.{Patch};
ghost use Rattle.turtle_reader.specs.FirstFaults.{NeverLarge};
ghost use Rattle.turtle_reader.specs.LanguageFaults.{HasOneFirstFault, PlacesAscend};
ghost use Rattle.n3_patch.specs.Laws.{HasOnePatch, HasOneRule, PatchBreaksNone, HasOneSpelledPatch};
ghost use Rattle.n3_patch.specs.Answers.{HasOneAnswer};

/// The law that a patch document's triples have at most one patch, or at most one rule that they
/// break first.
#[tactic(auto, using(crate::proofs::RuleLemmas::one_patch, crate::proofs::RuleLemmas::one_rule, crate::proofs::RuleLemmas::patch_breaks_none))]
pub fn one_judgement()
    ensures patch { HasOnePatch }
    ensures rule { HasOneRule }
    ensures either { PatchBreaksNone }
{}

/// The law that a patch document parses to at most one patch.
pub fn one_spelled_patch()
    ensures { HasOneSpelledPatch }
{}

/// The law that a patch document has at most one first fault of syntax: that at the least position.
pub fn first_fault()
    ensures one { HasOneFirstFault (λ base bytes. NeverLarge) Patch }
    ensures least { PlacesAscend (λ base bytes. NeverLarge) Patch }
{}

/// The law that a patch document is read as one patch, or has one fault beside out of memory.
#[tactic(auto, using(crate::proofs::OneAnswer::one_answer))]
pub fn one_answer()
    ensures { HasOneAnswer }
{}
