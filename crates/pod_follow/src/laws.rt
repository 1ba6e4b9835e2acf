//! How far a follower comes. The contract of this function is a law, and it does nothing.
ghost use Rattle.pod_follow.specs.Prefixes.{FollowsPrefix};

/// A follower that began at a place of a history, and took entries of the history, has the pod of a
/// place of it, whatever was lost, repeated, or came late: that to which the numbers run on.
pub fn follows_a_prefix()
    ensures { FollowsPrefix }
{}
