//! Of which history a follower over streams has the pod. Each of these functions does nothing; its
//! contract is a law.
ghost use Rattle.podctl_commands.specs.FollowLaws.{AnswersAtPlace, FollowsHistory};

/// After frames of one history the follower of `podctl follow` has the pod of a place of it,
/// whatever was lost, repeated, or came late since the last snapshot.
pub fn frames_lead_to_a_place()
    ensures { FollowsHistory }
{}

/// A read after such frames has the response of the pod of the place to which they led
/// `podctl follow`.
pub fn reads_are_of_that_place()
    ensures { AnswersAtPlace }
{}
