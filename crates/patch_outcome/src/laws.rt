//! What follows from the definitions: the contract of the function is a law, and it does nothing.

ghost use Rattle.patch_outcome.specs.Laws.{HasOneOutcome, HasOneUpdateOutcome};

/// The law that a patch, and an update, has at most one outcome at a graph: one change, whose
/// triples are in the order of graphs, or one refusal. Of a patch the items of its lists count, and
/// not their capacity.
pub fn one_outcome()
    ensures patch { HasOneOutcome }
    ensures update { HasOneUpdateOutcome }
{}
