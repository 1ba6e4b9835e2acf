//! The notices after a switch of protocols.
ghost use Rattle.std.specs.Prelude.{◌≡◌};
ghost use Rattle.pod_feed.specs.Feeds.{IsFed};
ghost use Rattle.socket_wire.specs.Passing.{PassesLink};
ghost use Rattle.pod_serve.specs.Connections.{wire_of};
ghost use Rattle.pod_serve.specs.Served.{link_view_of};
ghost use Rattle.pod_serve.specs.Turns.{IsFeedOf};

use crate::upgrade::Upgrade;
use pod_feed::{FeedEnd, serve_feed};
use pod_io::Link;
use pod_live::{CommittedEntry, Session, StoreName};
use published_view::ViewName;
use socket_wire::{SocketWire, Wires};
use std::alloc::Global;
use std::sync::Wait;

/// Serves the notices of an upgrade, by a feed over a WebSocket on a link.
fn serve_upgrade<N: ViewName<CommittedEntry> + StoreName, K: Link, R: Wait>(
    rt: &R,
    alloc: Global,
    session: &mut Session<N>,
    wires: &mut Wires,
    link: &mut K,
    upgrade: &Upgrade,
) -> FeedEnd
    ensures fed { IsFed N.opened upgrade.now.topic upgrade.now.agent upgrade.now.last result
        session.old session.new (wire_of wires.old) (wire_of wires.new) }
    ensures passes { PassesLink (K.rest link.old) (K.rest link.new) (K.sent link.old)
        (K.sent link.new) (K.counts link.old) (K.counts link.new) }
{
    let mut wire = SocketWire::new(alloc, link, wires);
    serve_feed(
        rt,
        alloc,
        session,
        &mut wire,
        upgrade.last,
        &upgrade.topic,
        &upgrade.agent,
    )
}

/// Serves the notices for the switch of protocols that was noted. Where nothing was, memory had run
/// out.
pub(crate) fn serve_notices<N: ViewName<CommittedEntry> + StoreName, K: Link, R: Wait>(
    rt: &R,
    alloc: Global,
    session: &mut Session<N>,
    wires: &mut Wires,
    link: &mut K,
    upgrade: &Option<Upgrade>,
) -> FeedEnd
    ensures { IsFeedOf N.opened upgrade.now result session.old session.new
        (link_view_of K.rest K.sent K.counts link.old)
        (link_view_of K.rest K.sent K.counts link.new) wires.old wires.new }
{
    match upgrade {
        Some(upgrade) => serve_upgrade(rt, alloc, session, wires, link, upgrade),
        None => FeedEnd::NoMemory,
    }
}
