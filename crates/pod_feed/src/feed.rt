//! [`serve_feed`]: the changes to a topic, told as they are published.
ghost use Rattle.std.specs.Prelude.{IfErr, IfOk};
ghost use Rattle.pod_feed.specs.Feeds.{IsFed, wire_view_of};
ghost use Rattle.pod_feed.specs.Turns.{IsLastTurn, IsFeedTurn};

use crate::feed_end::FeedEnd;
use crate::version_report::look_for_news;
use crate::wire_turn::send_and_poll;
use pod_base::Agent;
use pod_io::Wire;
use pod_live::{CommittedEntry, Session, StoreName};
use pod_path::Path;
use published_view::ViewName;
use std::alloc::Global;
use std::sync::Wait;

/// Does one turn of a feed: a look, the notices that it reports, and a poll. Returns the number of
/// the first entry that is yet to be told, or the end of the feed.
fn turn<N: ViewName<CommittedEntry> + StoreName, W: Wire>(
    alloc: Global,
    session: &mut Session<N>,
    wire: &mut W,
    last: u64,
    topic: &Path,
    agent: &Agent,
) -> Result<u64, FeedEnd>
    ensures turned { IfOk result (IsFeedTurn N.opened topic.now agent.now last session.old session.new
        (wire_view_of W.sent W.polls W.faults W.closed wire.old)
        (wire_view_of W.sent W.polls W.faults W.closed wire.new)) }
    ensures ended { IfErr result (IsLastTurn N.opened topic.now agent.now last session.old session.new
        (wire_view_of W.sent W.polls W.faults W.closed wire.old)
        (wire_view_of W.sent W.polls W.faults W.closed wire.new)) }
    ensures follows { W.follows wire.old wire.new }
{
    match look_for_news(alloc, session, last, topic, agent) {
        Ok(report) => send_and_poll(wire, &report),
        Err(end) => Err(end),
    }
}

/// Serves a feed, which tells a peer of the changes to a topic, from the entry `last` on, as an
/// agent.
///
/// Turn after turn it looks at the published pod, sends the notices of the changes since, and polls
/// the wire, for a second or so at most. So a notice waits at most for one poll and one look. It
/// goes on until it ends as [`FeedEnd`] says, and holds its thread so long.
pub fn serve_feed<N: ViewName<CommittedEntry> + StoreName, W: Wire, R: Wait>(
    rt: &R,
    alloc: Global,
    session: &mut Session<N>,
    wire: &mut W,
    last: u64,
    topic: &Path,
    agent: &Agent,
) -> FeedEnd
    ensures fed { IsFed N.opened topic.now agent.now last result session.old session.new
        (wire_view_of W.sent W.polls W.faults W.closed wire.old)
        (wire_view_of W.sent W.polls W.faults W.closed wire.new) }
    ensures follows { W.follows wire.old wire.new }
{
    let mut last = last;
    for _ in rt.forever() {
        match turn(alloc, session, wire, last, topic, agent) {
            Ok(next) => last = next,
            Err(end) => return end,
        }
    }
    unreachable!()
}
