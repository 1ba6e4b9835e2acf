//! The order of refusals and the existence of replies, as laws: what is refused by target, token and
//! method is so whatever the body is, a body that is refused is so whatever access is granted, and
//! a request without access is refused whatever the pod holds.
//!
//! ```ignore
//! refusal_laws::refusals_in_order();   // nothing of the pod is revealed before access is decided
//! ```
//!
//! Proved of `IsReply` of `pod_reply`, for each pod and request: where target, token or method is
//! refused, each reply is that refusal (`admission`); where they are admitted and the body is at
//! fault, each reply is the refusal of that fault (`body`); where the body has a meaning and a need
//! isn't granted, each reply is the refusal of access (`access`). So no refusal of a later rank
//! is the reply where an earlier condition holds.
//!
//! All ranks are one order: from the place in the tree to the size of the entry the conditions are
//! one table, from which each method takes those that concern it. Each reply is the refusal by the
//! first condition that holds, or else the success ([`replies_by_rank`]).
//!
//! Every request of a method that takes no body has a reply, on every pod ([`some_reply`]). So have a
//! PUT and a POST whose body is a content or has a fault, a POST on well-formed pods, where its
//! member always has a name or passes a limit; and a PATCH whose body is a patch or an update or has
//! a fault: each patch and each update has an outcome at each graph (`outcomes`), since its
//! conditions have no solution there, one or more.
//!
//! The functions do nothing: their contracts are the laws. They depend on `pod_reply` for the
//! definition of a reply, and on `request_target` and `request_body` for the first ranks.
//!
//! Two runs are paired for an agent (`PairedRuns` of `specs/PairedRuns.antt`) where their steps are
//! the same but for PUTs of other agents over rows that the agent may not read, where each step
//! makes an entry in both or in neither, the rows have the same kinds, and what differs is never
//! open to the agent. The pods of such runs are alike for the agent at every place, and each request
//! of the agent has the same reply in both, byte for byte ([`paired_runs`]). So what others do with
//! rows that an agent may not read is not revealed to it.
#![tactic(auto)]

mod paired_run_laws;

ghost use Rattle.refusal_laws.specs.Order.{AccessComesThird, AdmissionComesFirst};
ghost use Rattle.refusal_laws.specs.Order.{BodyComesSecond};
ghost use Rattle.refusal_laws.specs.RankTable.{EntriesFit, RanksAreInOrder, RepliesAreRanked};
ghost use Rattle.refusal_laws.specs.SomeReplies.{BodilessHaveReplies, PatchedHaveReplies};
ghost use Rattle.refusal_laws.specs.SomeReplies.{PatchesHaveOutcomes, PatchesHaveReplies};
ghost use Rattle.refusal_laws.specs.SomeReplies.{PostsHaveReplies, PutsHaveReplies};

pub use paired_run_laws::paired_runs;

/// Refusals come in the order target, token, method, body, access, and only then what depends on
/// the pod.
pub fn refusals_in_order()
    ensures admission { AdmissionComesFirst }
    ensures body { BodyComesSecond }
    ensures access { AccessComesThird }
{
    pod_reply::laws::one_reply();
}

/// Each reply is by one table of refusals: target, token, method, body, access, and then place in the
/// tree, representation, preconditions, content and size. It is the refusal by the first condition
/// that holds, or the success where none does. So the stored form of its entry is within the limit.
pub fn replies_by_rank()
    ensures order { RanksAreInOrder }
    ensures ranked { RepliesAreRanked }
    ensures fit { EntriesFit }
{}

/// Requests have replies, refusals or successes: every one of a method that takes no body; every
/// PUT, and on well-formed pods every POST, whose body is a content or has a fault; every PATCH
/// whose body is a patch or an update or has a fault. Each has one at most, too.
pub fn some_reply()
    ensures bodiless { BodilessHaveReplies }
    ensures puts { PutsHaveReplies }
    ensures posts { PostsHaveReplies }
    ensures outcomes { PatchesHaveOutcomes }
    ensures patches { PatchesHaveReplies }
    ensures patched { PatchedHaveReplies }
{}
