//! What follows from the contracts of serving, as laws for whoever serves a store.
//!
//! ```ignore
//! serve_laws::each_change_once::<D, O, C>(&clock);   // each entry is one item's of one connection
//! serve_laws::runs_are_worlds::<D, O, C>(&clock);    // a run is one run of a world
//! ```
//!
//! Proved of `AreAllServed` of `pod_serve`, by which `run_podd` says what a run left whose gates were
//! all served, for each such run: each item of any connection that added an entry has it in the one
//! list, at the item's position, and at each position of the list exactly one item of one connection
//! added an entry (`each_change_once`, by `specs/EachOnce.antt`). So no entry of a run is lost,
//! doubled, or nobody's. So it is of the desks that `serve` leaves, where their sessions are new
//! (`each_change_of_desks_once`). At each moment of a run a crash leaves the pod with the changes
//! before it, or with the one under way or in doubt, too (`moments_of_a_run`).
//!
//! Such a run in which each request that got an item was answered, and no desk was out of memory, is
//! one run of a world (`pod_core/specs/World.antt`): there is a list of events, each a step of the
//! world from the one before it, after which the world's history has all entries of the run, and each
//! connection has read what was read of its link and written the output of its items
//! (`runs_are_worlds`, by `specs/WholeWorld.antt`). The functions do nothing: their contracts are the
//! laws.
//!
//! It depends on `pod_serve` for the definitions, on `conn_talk` for the items of a connection, on
//! `reply_laws` for what an entry records, and on `world_laws` for what holds of every world.
#![tactic(auto)]

ghost use Rattle.conn_talk.specs.Agents.{asking_of};
ghost use Rattle.pod_serve.specs.Desks.{gate_view_of};
ghost use Rattle.pod_serve.specs.RunHosts.{host_of};
ghost use Rattle.pod_serve.specs.Served.{link_view_of};
ghost use Rattle.serve_laws.specs.DesksOnce.{EachChangeOfDesksOnce};
ghost use Rattle.serve_laws.specs.EachOnce.{EachChangeOnce};
ghost use Rattle.serve_laws.specs.RunMoments.{MomentsOfRuns};
ghost use Rattle.serve_laws.specs.WholeWorld.{RunsAreWorlds};

use conn_talk::Agents;
use pod_disk::Disk;
use pod_io::{Clock, Gate, Link, Listen};
use pod_live::{CommittedEntry, Rounds, StoreName, moments_are_of_changes};
use pod_serve::Desk;
use published_view::ViewName;

/// The list that a run of `podd` leaves has each of its entries from exactly one item of one of the
/// connections that were served, at the item's position.
pub fn each_change_once<D: Disk, O: Listen, C: Clock>(clock: &C)
    ensures { EachChangeOnce (host_of D.image D.moment D.left_since D.faults (C.may_give clock.now)
        O.Gate.Conn.rest O.Gate.Conn.sent O.Gate.Conn.counts O.Gate.rest O.Gate.back O.Gate.faults
        O.Gate.given O.Gate.ends) }
{
    let _clock = clock;
    reply_laws::bases();
}

/// The list that desks leave which were served by new sessions of a store ([`serve`]) has each of
/// its entries from exactly one item, too.
///
/// [`serve`]: pod_serve::serve
pub fn each_change_of_desks_once<
    N: ViewName<CommittedEntry> + StoreName,
    L: Rounds<N>,
    G: Gate,
    C: Clock,
>(live: &L, agents: &Agents, desks: &[Desk<G, N>], clock: &C)
    ensures { EachChangeOfDesksOnce N.kept N.opened.next (C.may_give clock.now)
        (asking_of agents.now) (link_view_of G.Conn.rest G.Conn.sent G.Conn.counts)
        (gate_view_of G.rest G.back G.faults G.given G.ends) (λ desk. desk.session)
        (λ desk. desk.rest.gate) (λ desk. desk.rest.end) L.takes N.opening desks.now }
{
    let _live = live;
    let _agents = agents;
    let _desks = desks;
    let _clock = clock;
    reply_laws::bases();
}

/// At each moment of a run of `podd` whose gates were all served, each pair of crash images
/// represents the history with the entries of the changes before it, in the order of the store's
/// lock, or that with the one change under way or in doubt.
pub fn moments_of_a_run<D: Disk, O: Listen, C: Clock>(disk: &D, listen: &O, clock: &C)
    ensures { MomentsOfRuns (host_of D.image D.moment D.left_since D.faults (C.may_give clock.now)
        O.Gate.Conn.rest O.Gate.Conn.sent O.Gate.Conn.counts O.Gate.rest O.Gate.back O.Gate.faults
        O.Gate.given O.Gate.ends) (O.may_open listen.now) }
{
    let _listen = listen;
    let _clock = clock;
    moments_are_of_changes(disk);
}

/// A run of `podd` whose requests were answered is one run of a world, with the events of all of its
/// connections in one order.
pub fn runs_are_worlds<D: Disk, O: Listen, C: Clock>(clock: &C)
    ensures { RunsAreWorlds (host_of D.image D.moment D.left_since D.faults (C.may_give clock.now)
        O.Gate.Conn.rest O.Gate.Conn.sent O.Gate.Conn.counts O.Gate.rest O.Gate.back O.Gate.faults
        O.Gate.given O.Gate.ends) }
{
    reply_laws::bases();
    reply_laws::complete();
    world_laws::one_legal_history(clock);
}
