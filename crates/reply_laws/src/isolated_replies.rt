//! [`isolation_law`]: pods alike for an agent reply alike. Its contract is a law, and it does
//! nothing.

ghost use Rattle.reply_laws.specs.Isolation.{ChangesAlike, RepliesAlike, StayAlike};

/// Pods that are alike for an agent have the same replies to its requests, with the same entries.
pub fn isolation_law()
    ensures replies { RepliesAlike }

    // What such an entry makes of a path that was the same in both is the same in both.
    ensures changes { ChangesAlike }

    // So the pods stay alike, while what is hidden from the agent stays hidden.
    ensures stay { StayAlike }
{}
