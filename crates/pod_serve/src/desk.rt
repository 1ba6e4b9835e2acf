//! [`serve`]: the connections of many gates, beside each other.
ghost use Rattle.std.specs.Prelude.{◌≡◌, ◌+◌, ◌≢◌, ◌⊎◌, ◌<◌, false, true, if◌then◌else◌, length};
ghost use Rattle.std.specs.Prelude.{slice_index_or, ℕ};
ghost use Rattle.conn_talk.specs.Agents.{asking_of};
ghost use Rattle.pod_serve.specs.Desks.{AreDesksServed, DeskServed, IsDeskServed, gate_view_of};
ghost use Rattle.pod_serve.specs.Turns.{NextServed};
ghost use Rattle.pod_serve.specs.Served.{link_view_of};

use crate::connection::serve_conn;
use crate::connection_end::ConnEnd;
use conn_talk::Agents;
use pod_io::{Clock, Failed, Gate};
use pod_live::{CommittedEntry, Rounds, Seat, Session, StoreName};
use published_view::ViewName;
use socket_wire::Wires;
use std::alloc::Global;
use std::sync::Wait;
use std::thread::{self, Threads};

/// The most connections of a desk.
pub const CONNECTION_LIMIT: u64 = 1 << 48;

/// Why a desk ended.
#[derive(Clone, Copy, Debug, PartialEq, Eq)]
pub enum DeskEnd {
    /// Its gate has no more connections, or has given [`CONNECTION_LIMIT`] of them.
    GateEnded,
    /// A call of its gate failed.
    GateFailed,
    /// One of its connections was out of memory.
    NoMemory,
}

/// What a desk has beside its session: its gate, and how it ended once it was served.
#[derive(Drop)]
pub struct Post<G: Gate> {
    pub gate: G,
    pub end: Option<DeskEnd>,
}

/// A session with the gate whose connections it serves.
pub type Desk<G, N> = Seat<Post<G>, N>;

/// Whether a connection of a desk has been out of memory, where the last one ended so.
fn has_starved(before: bool, end: ConnEnd) -> bool
    ensures none { result ≡ false → (before ≡ false) × (end ≢ ConnEnd.NoMemory) }
    ensures some { result ≡ true → (before ≡ true) ⊎ (end ≡ ConnEnd.NoMemory) }
{
    match end {
        ConnEnd::NoMemory => true,
        _ => before,
    }
}

/// How a desk ends whose gate ended so.
fn end_of_desk(out_of_memory: bool, end: DeskEnd) -> DeskEnd
    ensures { result ≡ (if out_of_memory then DeskEnd.NoMemory else end) }
{
    if out_of_memory {
        DeskEnd::NoMemory
    } else {
        end
    }
}

/// What one turn of a desk came to: a connection was served, or the desk has no more.
enum Next {
    Served(ConnEnd),
    Over(DeskEnd),
}

/// Serves the next connection of a desk's gate, as the one of that number.
fn serve_next<N: ViewName<CommittedEntry> + StoreName, L: Rounds<N>, G: Gate, C: Clock, R: Wait>(
    rt: &R,
    alloc: Global,
    live: &L,
    agents: &Agents,
    session: &mut Session<N>,
    number: u64,
    gate: &mut G,
    clock: &C,
) -> Next
    ensures { NextServed N.kept N.opened.next (C.may_give clock.now) (asking_of agents.now)
        (link_view_of G.Conn.rest G.Conn.sent G.Conn.counts) number result session.old session.new
        (gate_view_of G.rest G.back G.faults G.given G.ends gate.old) (gate_view_of G.rest G.back
        G.faults G.given G.ends gate.new) }
{
    match gate.next() {
        Ok(Some(link)) => {
            let mut link = link;
            let mut wires = Wires::new();
            let end = serve_conn(
                rt, alloc, live, agents, session, &mut wires, number, &mut link, clock,
            );
            gate.done(link);
            Next::Served(end)
        }
        Ok(None) => Next::Over(DeskEnd::GateEnded),
        Err(Failed) => Next::Over(DeskEnd::GateFailed),
    }
}

/// Serves the connections of a desk's gate, until it ends or fails.
fn serve_gate<N: ViewName<CommittedEntry> + StoreName, L: Rounds<N>, G: Gate, C: Clock, R: Wait>(
    rt: &R,
    alloc: Global,
    live: &L,
    agents: &Agents,
    session: &mut Session<N>,
    first: u64,
    step: u64,
    gate: &mut G,
    clock: &C,
) -> DeskEnd
    requires { (first < 65) × (step < 65) }
    ensures { DeskServed N.kept N.opened.next (C.may_give clock.now) (asking_of agents.now)
        (link_view_of G.Conn.rest G.Conn.sent G.Conn.counts) step first result session.old
        session.new (gate_view_of G.rest G.back G.faults G.given G.ends gate.old) (gate_view_of
        G.rest G.back G.faults G.given G.ends gate.new) }
{
    let mut number = first;
    let mut out_of_memory = false;
    for _ in 0..CONNECTION_LIMIT {
        match serve_next(rt, alloc, live, agents, session, number, gate, clock) {
            Next::Served(end) => {
                out_of_memory = has_starved(out_of_memory, end);
                number += step;
            }
            Next::Over(end) => return end_of_desk(out_of_memory, end),
        }
    }
    end_of_desk(out_of_memory, DeskEnd::GateEnded)
}

/// Serves one desk, and notes how it ended.
fn serve_desk<N: ViewName<CommittedEntry> + StoreName, L: Rounds<N>, G: Gate, C: Clock, R: Wait>(
    rt: &R,
    alloc: &Global,
    live: &L,
    agents: &Agents,
    first: u64,
    step: u64,
    desk: &mut Seat<Post<G>, N>,
    clock: &C,
)
    requires { (first < 65) × (step < 65) }
    ensures { IsDeskServed N.kept N.opened.next (C.may_give clock.now) (asking_of agents.now)
        (link_view_of G.Conn.rest G.Conn.sent G.Conn.counts) step first
        desk.old.session desk.new.session desk.new.rest.end
        (gate_view_of G.rest G.back G.faults G.given G.ends desk.old.rest.gate)
        (gate_view_of G.rest G.back G.faults G.given G.ends desk.new.rest.gate) }
{
    let Seat { session, rest } = desk;
    let Post { gate, end } = rest;
    let told = serve_gate(rt, *alloc, live, agents, session, first, step, gate, clock);
    *end = Some(told);
}

/// Serves all desks, each in a thread of its own.
fn serve_beside<
    N: ViewName<CommittedEntry> + StoreName + Send + Sync,
    L: Rounds<N> + Sync,
    G: Gate + Send,
    C: Clock + Sync,
    R: Threads + Wait + Sync,
>(rt: &R, alloc: &Global, live: &L, agents: &Agents, desks: &mut [Seat<Post<G>, N>], clock: &C)
    requires { (0 < length desks.old) × (length desks.old < 65) }
    ensures { (i : ℕ) (d : _) → i < length desks.old
        → IsDeskServed N.kept N.opened.next (C.may_give clock.now) (asking_of agents.now)
        (link_view_of G.Conn.rest G.Conn.sent G.Conn.counts) (length desks.old) (i + 1)
        (slice_index_or desks.old i d).session (slice_index_or desks.new i d).session
        (slice_index_or desks.new i d).rest.end
        (gate_view_of G.rest G.back G.faults G.given G.ends
        (slice_index_or desks.old i d).rest.gate)
        (gate_view_of G.rest G.back G.faults G.given G.ends
        (slice_index_or desks.new i d).rest.gate) }
{
    let many = desks.len();
    let step = many as u64;
    let one = |at: usize, desk: &mut Seat<Post<G>, N>|
        requires { (at < 64) × (step < 65) }
        ensures { IsDeskServed N.kept N.opened.next (C.may_give clock.entry.now)
            (asking_of agents.entry.now)
            (link_view_of G.Conn.rest G.Conn.sent G.Conn.counts) step (at + 1)
            desk.old.session desk.new.session desk.new.rest.end
            (gate_view_of G.rest G.back G.faults G.given G.ends desk.old.rest.gate)
            (gate_view_of G.rest G.back G.faults G.given G.ends desk.new.rest.gate) }
    { serve_desk(rt, alloc, live, agents, at as u64 + 1, step, desk, clock) };
    thread::for_each_mut(rt, desks, many, &one);
}

/// Serves the connections of all desks, each in a thread of its own and one connection after the
/// other, until each gate has ended or failed. Desk i, from 0, gives its connections the numbers
/// i + 1, i + 1 + W and so on, where W is the number of desks, 1 to 64.
///
/// The desks hold all sessions of the store. Afterwards all of these have seen one list of entries,
/// which has as many as the sessions have added. The changes that were carried to the disks, in the
/// order of the store's lock, have added that list, and are steps of its keeper.
pub fn serve<
    N: ViewName<CommittedEntry> + StoreName + Send + Sync,
    L: Rounds<N> + Sync,
    G: Gate + Send,
    C: Clock + Sync,
    R: Threads + Wait + Sync,
>(rt: &R, alloc: Global, live: &L, agents: &Agents, desks: &mut [Seat<Post<G>, N>], clock: &C)
    requires all { length desks.old ≡ N.parts }
    requires few { (0 < length desks.old) × (length desks.old < 65) }
    ensures { AreDesksServed N.kept N.opened.next (C.may_give clock.now) (asking_of agents.now)
        (link_view_of G.Conn.rest G.Conn.sent G.Conn.counts)
        (gate_view_of G.rest G.back G.faults G.given G.ends) (λ desk. desk.session)
        (λ desk. desk.rest.gate) (λ desk. desk.rest.end) L.takes N.opening desks.old desks.new }
{
    serve_beside(rt, &alloc, live, agents, desks, clock);
    live.gather(rt, desks);
}
