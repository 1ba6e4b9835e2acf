//! [`sessions_are_isolated`]: alike pods serve one agent's session alike. Its contract is a law,
//! and it does nothing.
ghost use Rattle.history_laws.specs.Isolated.{IsolatesItems, IsolatesSessions};

use pod_io::Clock;

/// A session of one agent over a history is one over each history that ends alike for the agent,
/// with the same items, while what differs stays hidden from the agent. Where neither memory nor a
/// disk failed, each run of the same events at the same moments over the other history has these
/// items, and so writes the same bytes.
pub fn sessions_are_isolated<C: Clock>(clock: &C)
    ensures sessions { IsolatesSessions (C.may_give clock.now) }

    // The same of the items of a session, without its events.
    ensures items { IsolatesItems (C.may_give clock.now) }
{
    let _clock = clock;
    pod_reply::laws::one_reply();
    reply_laws::applies();
    reply_laws::isolation_law();
}
