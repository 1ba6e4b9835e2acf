//! What follows from the definitions: the contract of the function is a law, and it does nothing.

ghost use Rattle.pod_reply.specs.Laws.{HasOneReply};

/// A pod has at most one reply to a request: `IsReply` determines it.
pub fn one_reply()
    ensures { HasOneReply }
{}
