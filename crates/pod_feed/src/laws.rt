//! What follows of feeds: the contract of this function is a law, and it does nothing.
ghost use Rattle.pod_feed.specs.EachChange.{TellsEachChange};

/// The notices of looks that report notices are those of all changes to the topic since, each once
/// and in the order of the history: also of changes that no single version keeps any more.
pub fn each_change_is_told_once()
    ensures { TellsEachChange }
{}
