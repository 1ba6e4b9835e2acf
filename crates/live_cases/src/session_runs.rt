//! What is done with the sessions of a new store.
ghost use Rattle.std.specs.Prelude.{◌≡◌, ◌+◌, ◌<◌, ◌≤◌, [], IfOk, length};
ghost use Rattle.pod_core.specs.History.{History};
ghost use Rattle.pod_keeper.specs.Kept.{StandsForSome};
ghost use Rattle.pod_keeper.specs.KeeperState.{KeeperState, version_in};
ghost use Rattle.pod_live.specs.Stores.{IsSafe, KeptSome};

use crate::feeds;
use crate::mem_links::numbers;
use crate::script::request;
use crate::store::{OWNER, SECONDS, empty_disks, make};
use case_words::shown;
use conn_talk::Agents;
use pod_base::{List, Mem, Method, Moment, NoMemory, Stamp, Text};
use pod_core::is_change;
use pod_disk::{Disk, Disks};
use pod_io::{Gate, Link, MemGate, MemLink, SetClock};
use pod_live::{
    CommittedEntry, Keeper, KeeperName, Live, Names, Rounds, Seat, Session, StoreName, answer_read,
};
use pod_serve::{ConnEnd, Desk, Post, Wires, serve, serve_conn};
use published_view::{Places, ViewName};
use std::alloc::Global;
use std::marker::Brand;
use std::sync::Wait;
use std::thread::Threads;
use token_table::Asked;

/// What is done.
#[derive(Clone, Copy)]
pub(crate) enum Kind<'a> {
    /// A change by one session, and a read by another one.
    Visit,
    /// The first connection of the first gate.
    Connection,
    /// The connections of all gates.
    Desks,
    /// A feed of one session, with these steps of another one.
    Feed(&'a [&'a str]),
}

/// What is done with a store, over which gates, and what is told of it.
#[derive(Drop)]
pub(crate) struct Work<'a> {
    kind: Kind<'a>,
    gates: List<MemGate<MemLink>>,
    agents: Agents,
    told: String,
}

impl<'a> Work<'a> {
    /// Work of that kind, without gates.
    pub(crate) fn new(alloc: Global, kind: Kind<'a>) -> Mem<Work<'a>> {
        Ok(Work {
            kind,
            gates: List::new(alloc),
            agents: Agents::Owner(Text::of(alloc, OWNER)?),
            told: String::new(alloc),
        })
    }

    /// Adds a gate of one connection, which fails in the calls of these numbers.
    pub(crate) fn add_gate(&mut self, alloc: Global, link: MemLink, calls: &str) -> Mem<()> {
        let mut links = List::new(alloc);
        if links.push(alloc, link).is_err() {
            return Err(NoMemory);
        }
        let gate = MemGate::new(alloc, links, numbers(alloc, calls)?)?;
        match self.gates.push(alloc, gate) {
            Ok(()) => Ok(()),
            Err(_gate) => Err(NoMemory),
        }
    }

    /// How many sessions the store has: one for each gate, and two where there is none.
    fn sessions(&self) -> usize
        ensures { (0 < result) × (result < 65) }
    {
        let count = self.gates.len();
        if count == 0 {
            2
        } else if count > 64 {
            64
        } else {
            count
        }
    }
}

/// Appends a part of what is told.
fn tell(told: &mut String, part: &str) -> Option<()> {
    if !told.as_str().is_empty() {
        told.push_str("; ").ok()?;
    }
    told.push_str(part).ok()
}

/// Has a session put a document. Returns the status.
fn change<N: ViewName<CommittedEntry> + StoreName + KeeperName<D>, D: Disk, R: Wait>(
    rt: &R,
    alloc: Global,
    live: &Live<N, D>,
    session: &mut Session<N>,
    asked: &Asked<'_>,
    stamp: Stamp,
) -> Option<u16> {
    let content = "application/octet-stream";
    let put = request(alloc, Method::Put, "/note", content, "hello").ok()?;
    if !is_change(put.method) {
        return None;
    }
    match live.change(rt, alloc, session, &put, asked, stamp) {
        Ok(response) => Some(response.status),
        Err(_fault) => None,
    }
}

/// Has a session read it. Returns the status.
fn read<N: ViewName<CommittedEntry> + StoreName>(
    alloc: Global,
    session: &mut Session<N>,
    asked: &Asked<'_>,
    stamp: Stamp,
) -> Option<u16> {
    let get = request(alloc, Method::Get, "/note", "text/plain", "").ok()?;
    if is_change(get.method) {
        return None;
    }
    match answer_read(alloc, session, &get, asked, stamp) {
        Ok(response) => Some(response.status),
        Err(_fault) => None,
    }
}

/// Has the first session put a document, and the last one get it and look once more.
fn visit<N: ViewName<CommittedEntry> + StoreName + KeeperName<D>, D: Disk, R: Wait>(
    rt: &R,
    alloc: Global,
    live: &Live<N, D>,
    desks: &mut [Desk<MemGate<MemLink>, N>],
    told: &mut String,
) -> Option<()> {
    let owner = Text::of(alloc, OWNER).ok()?;
    let asked = Asked::Known(&owner);
    let stamp = Stamp {
        conn: 1,
        number: 1,
        moment: Moment(SECONDS),
    };
    let first = desks.first_mut()?;
    let changed = change(rt, alloc, live, &mut first.session, &asked, stamp)?;
    let last = desks.last_mut()?;
    let read = read(alloc, &mut last.session, &asked, stamp)?;
    let version = last.session.look().ok()?;
    let seen = last.session.seen();
    let text = format!(in alloc; "{changed}; {read}; seen {seen}; version {}", version.seq());
    tell(told, text.ok()?.as_str())
}

/// Tells how a connection ended, what its session added, and what it has sent.
fn tell_link<N: ViewName<CommittedEntry> + StoreName>(
    alloc: Global,
    session: &Session<N>,
    link: &MemLink,
    told: &mut String,
) -> Option<()> {
    let sent = shown(alloc, link.sent()).ok()?;
    let text = format!(in alloc; "changes {}; sent {}", session.changes(), sent.as_str());
    tell(told, text.ok()?.as_str())
}

/// Serves a connection. It is generic, so that what its caller knows doesn't grow with the link's
/// type.
fn serve_link<N: ViewName<CommittedEntry> + StoreName, L: Rounds<N>, K: Link, R: Wait>(
    rt: &R,
    alloc: Global,
    live: &L,
    agents: &Agents,
    session: &mut Session<N>,
    link: &mut K,
) -> ConnEnd {
    let clock = SetClock { seconds: SECONDS };
    let mut wires = Wires::new();
    serve_conn(
        rt, alloc, live, agents, session, &mut wires, 1, link, &clock,
    )
}

/// Serves the connections of all gates, generic as well.
fn serve_desks<
    N: ViewName<CommittedEntry> + StoreName + Send + Sync,
    L: Rounds<N> + Sync,
    G: Gate + Send,
    R: Threads + Wait + Sync,
>(rt: &R, alloc: Global, live: &L, agents: &Agents, desks: &mut [Desk<G, N>])
    requires all { length desks.old ≡ N.parts }
    requires few { (0 < length desks.old) × (length desks.old < 65) }
{
    let clock = SetClock { seconds: SECONDS };
    serve(rt, alloc, live, agents, desks, &clock);
}

/// Serves the first connection of the first gate.
fn connection<N: ViewName<CommittedEntry> + StoreName + KeeperName<D>, D: Disk, R: Wait>(
    rt: &R,
    alloc: Global,
    live: &Live<N, D>,
    desks: &mut [Desk<MemGate<MemLink>, N>],
    agents: &Agents,
    told: &mut String,
) -> Option<()> {
    let desk = desks.first_mut()?;
    let mut link = desk.rest.gate.next().ok()??;
    let end = serve_link(rt, alloc, live, agents, &mut desk.session, &mut link);
    tell(told, format!(in alloc; "{end:?}").ok()?.as_str())?;
    tell_link(alloc, &desk.session, &link, told)
}

/// Tells how desks ended, and how many connections came back to each.
fn tell_desks<N: ViewName<CommittedEntry> + StoreName>(
    alloc: Global,
    desks: &[Desk<MemGate<MemLink>, N>],
    told: &mut String,
) -> Option<()> {
    for desk in desks {
        let back = desk.rest.gate.back().len();
        let text = match desk.rest.end {
            Some(end) => format!(in alloc; "{end:?} {back}").ok()?,
            None => String::from_str(alloc, "unserved").ok()?,
        };
        tell(told, text.as_str())?;
    }
    Some(())
}

/// Serves a feed by the second session, and does its steps by the first.
fn feed<N: ViewName<CommittedEntry> + StoreName, L: Rounds<N>, R: Wait>(
    rt: &R,
    alloc: Global,
    live: &L,
    desks: &mut [Desk<MemGate<MemLink>, N>],
    steps: &[&str],
    told: &mut String,
) -> Option<()> {
    let (first, rest) = desks.split_first_mut()?;
    let second = rest.first_mut()?;
    let text = feeds::run(
        rt,
        alloc,
        live,
        &mut first.session,
        &mut second.session,
        steps,
    );
    tell(told, text.ok()?.as_str())
}

/// Does that with the sessions of a store.
fn do_work<
    N: ViewName<CommittedEntry> + StoreName + KeeperName<D> + Send + Sync,
    D: Disk + Send,
    R: Threads + Wait + Sync,
>(
    rt: &R,
    alloc: Global,
    live: &Live<N, D>,
    desks: &mut [Desk<MemGate<MemLink>, N>],
    kind: Kind<'_>,
    agents: &Agents,
    told: &mut String,
) -> Option<()>
    requires all { length desks.old ≡ N.parts }
    requires few { (0 < length desks.old) × (length desks.old < 65) }
{
    match kind {
        Kind::Visit => visit(rt, alloc, live, desks, told),
        Kind::Connection => connection(rt, alloc, live, desks, agents, told),
        Kind::Desks => {
            serve_desks(rt, alloc, live, agents, desks);
            tell_desks(alloc, desks, told)
        }
        Kind::Feed(steps) => feed(rt, alloc, live, desks, steps, told),
    }
}

/// A desk for each session, in a list that has the room, and the last gate for the first one. A
/// session for which there is no gate has one without connections.
fn seat_all<N: ViewName<CommittedEntry> + StoreName>(
    alloc: Global,
    sessions: List<Session<N>>,
    gates: &mut List<MemGate<MemLink>>,
    desks: List<Desk<MemGate<MemLink>, N>>,
) -> List<Desk<MemGate<MemLink>, N>>
    requires empty { desks.items ≡ [] }
    requires room { length sessions.items ≤ desks.room }
    ensures { length result.items ≡ length sessions.items }
{
    let mut sessions = sessions;
    let mut desks = desks;
    while let Some(session) = sessions.pop() {
        let gate = gates.pop().unwrap_or(MemGate::idle(alloc));
        let rest = Post { gate, end: None };
        let _ = desks.push(alloc, Seat { session, rest });
    }
    desks
}

/// Publishes the store of a keeper, works with it, and closes it.
fn serve_once<
    N: ViewName<CommittedEntry> + StoreName + KeeperName<D> + Send + Sync,
    D: Disk + Send,
    R: Threads + Wait + Sync,
>(
    rt: &R,
    alloc: Global,
    keeper: Keeper<D>,
    names: Names,
    readers: usize,
    work: &mut Work<'_>,
    places: &mut Places,
) -> Option<u64>
    requires names { (names.list ≡ N.book) × (names.changes.name ≡ N.changes)
        × (names.faults.name ≡ N.faults) }
    requires parts { (names.changes.parts ≡ N.parts) × (names.faults.parts ≡ N.parts)
        × (N.parts ≡ readers) }
    requires opening { N.opening ≡ [] }
    requires opened { version_in keeper ≡ N.opened }
    requires kept { (history : History) → N.kept history → KeptSome D.image keeper history }
    requires stands { StandsForSome D.image keeper }
    requires safe { N.safe → IsSafe D.image keeper }
    requires began { (old : KeeperState D) → N.began old → keeper ≡ old }
    requires counted { N.counted ≡ D.faults keeper.first + D.faults keeper.second }
    requires few { (0 < readers) × (readers < 65) }
{
    let mut desks = List::new(alloc);
    if desks.reserve(alloc, readers).is_err() {
        return None;
    }
    let Ok((live, sessions)) = Live::<N, D>::new(rt, alloc, keeper, names, readers, places) else {
        return None;
    };
    let mut desks = seat_all(alloc, sessions, &mut work.gates, desks);
    let desks = desks.as_mut_slice();
    let done = do_work(
        rt,
        alloc,
        &live,
        desks,
        work.kind,
        &work.agents,
        &mut work.told,
    );
    let keeper = live.close(rt, desks);
    match done {
        Some(()) => Some(keeper.seq()),
        None => None,
    }
}

/// The same, under names that are picked here.
fn serve_named<D: Disk + Send, R: Threads + Wait + Sync>(
    rt: &R,
    alloc: Global,
    keeper: Keeper<D>,
    readers: usize,
    work: &mut Work<'_>,
) -> Option<u64>
    requires stands { StandsForSome D.image keeper }
    requires few { (0 < readers) × (readers < 65) }
{
    let names = Names::new(readers as u64);
    let mut places = Places::new();
    serve_once::<Brand, D, R>(rt, alloc, keeper, names, readers, work, &mut places)
}

/// Makes a store on these disks, and works with it.
fn serve_disks_of<D: Disk + Send, R: Threads + Wait + Sync>(
    rt: &R,
    alloc: Global,
    disks: Disks<D>,
    work: &mut Work<'_>,
) -> Option<u64> {
    let mut disks = disks;
    let _status = make(alloc, &mut disks).ok()?;
    let readers = work.sessions();
    match Keeper::open(alloc, disks) {
        Ok(keeper) => serve_named(rt, alloc, keeper, readers, work),
        Err(_refused) => None,
    }
}

/// Does that with a new store, and tells what it came to, and the number of the store's next entry.
pub(crate) fn run<R: Threads + Wait + Sync>(rt: &R, alloc: Global, work: Work<'_>) -> Mem<String> {
    let mut work = work;
    work.gates.as_mut_slice().reverse();
    let disks = empty_disks(alloc)?;
    match serve_disks_of(rt, alloc, disks, &mut work) {
        Some(next) => Ok(format!(in alloc; "{}; next {next}", work.told.as_str())?),
        None => Err(NoMemory),
    }
}
