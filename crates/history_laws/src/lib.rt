//! What holds of every history and of the sessions over it: laws for the crates above.
//!
//! ```ignore
//! history_laws::one_session(&clock);   // the same requests at the same moments have the same answers
//! ```
//!
//! Proved of histories and sessions (`pod_core`): two sessions that make the same requests with the
//! same agents at the same moments, each from the end of one history on and with its own entries
//! alone, have the same items and write the same bytes, unless memory or a disk failed in one of
//! them; and so it is over two histories that end alike for the agent who makes all requests
//! ([`one_session`]). An entry of a history is that of one item of one connection at most
//! ([`one_item`]). The history of a world is one whose entries apply, one after the other, and the
//! pod at each of its places is well-formed ([`well_formed_histories`]). Whatever the events of a
//! world, each entry that is published was acknowledged by the response of its item, once, and all
//! entries but the last at most are published ([`each_change_once`]). A world at rest has each step
//! of a change that has a reply with an entry, up to its publication ([`changes_may_complete`]). While
//! it hasn't stopped, bytes may arrive on each connection, a read that has a reply may be answered at
//! each place that it may look at, a malformed message may be refused, and the world may stop
//! ([`events_may_come`]).
//!
//! The functions do nothing: their contracts are the laws. They depend on `pod_core` for the
//! definitions and on `reply_laws` for what follows of one reply.
//!
//! Where the pods at the ends of two histories are alike for an agent, a session of that agent over
//! one is a session over the other, with the same items, and each other session of the same events
//! at the same moments writes the same bytes, where neither memory nor a disk failed
//! ([`sessions_are_isolated`]). In each pod passed, what differs is to stay hidden from the agent,
//! who could otherwise open it by a change of an access list.
#![tactic(auto)]

mod isolated_sessions;

ghost use Rattle.history_laws.specs.Acknowledged.{EntriesAreAcknowledged, EntriesArePublishedOnce};
ghost use Rattle.history_laws.specs.Entries.{EachPodIsWellFormed, EntryHasOneItem};
ghost use Rattle.history_laws.specs.Entries.{WorldsHaveHistories};
ghost use Rattle.history_laws.specs.Progress.{BytesMayArrive, ChangesMayComplete, GatesMayFail};
ghost use Rattle.history_laws.specs.Progress.{MessagesMayBeRefused, ReadsMayBeAnswered};
ghost use Rattle.history_laws.specs.Progress.{RepairsMayComplete, WorldsMayStop};
ghost use Rattle.history_laws.specs.SameRequests.{SameSessions, SameSessionsOverAlike};
ghost use Rattle.history_laws.specs.SameItems.{SameItems};

pub use isolated_sessions::sessions_are_isolated;
use pod_io::Clock;

/// Sessions over histories that have the same requests of the same agents at the same moments have
/// the same answers, byte for byte, where neither memory nor a disk failed.
pub fn one_session<C: Clock>(clock: &C)
    ensures items { SameItems (C.may_give clock.now) }
    ensures sessions { SameSessions (C.may_give clock.now) }

    // So it is over two histories that end alike for the agent, while no entry opens to the agent
    // what differs.
    ensures alike { SameSessionsOverAlike (C.may_give clock.now) }
{
    let _clock = clock;
    pod_reply::laws::one_reply();
    crate::sessions_are_isolated(clock);
}

/// No entry of a history belongs to two items.
pub fn one_item<C: Clock>(clock: &C)
    ensures { EntryHasOneItem (C.may_give clock.now) }
{
    let _clock = clock;
    reply_laws::bases();
}

/// Each entry of a world's history but the last at most was acknowledged by the response of its
/// item, and published once.
pub fn each_change_once<C: Clock>(clock: &C)
    ensures acknowledged { EntriesAreAcknowledged (C.may_give clock.now) }
    ensures once { EntriesArePublishedOnce (C.may_give clock.now) }
{
    let _clock = clock;
}

/// A history may grow: a world at rest has the steps of a change that is next and has a reply with
/// an entry. The change can be completed, after a repair where an entry is in doubt, and its gate
/// may fail.
pub fn changes_may_complete<C: Clock>(clock: &C)
    ensures completes { ChangesMayComplete (C.may_give clock.now) }
    ensures repaired { RepairsMayComplete (C.may_give clock.now) }
    ensures fails { GatesMayFail (C.may_give clock.now) }
{
    let _clock = clock;
}

/// A history may see the other events, while its world hasn't stopped: bytes arrive, a read is
/// answered at a place that its connection may look at, a malformed message is refused, and the
/// world stops.
pub fn events_may_come<C: Clock>(clock: &C)
    ensures arrives { BytesMayArrive (C.may_give clock.now) }
    ensures reads { ReadsMayBeAnswered (C.may_give clock.now) }
    ensures refuses { MessagesMayBeRefused (C.may_give clock.now) }
    ensures stops { WorldsMayStop (C.may_give clock.now) }
{
    let _clock = clock;
}

/// The entries of a world's history apply, one after the other, and the pod at each place of a
/// history is well-formed.
pub fn well_formed_histories<C: Clock>(clock: &C)
    ensures worlds { WorldsHaveHistories (C.may_give clock.now) }
    ensures pods { EachPodIsWellFormed }
{
    let _clock = clock;
    reply_laws::applies();
}
