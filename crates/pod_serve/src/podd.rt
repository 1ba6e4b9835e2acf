//! [`run_podd`]: the store of a place, served over the gates of a listener.
ghost use Rattle.std.specs.Prelude.{◌≡◌, ◌≢◌, ◌⊎◌, ◌↔◌, ◌+◌, ◌<◌, ◌≤◌, [], ◌++◌, None, All};
ghost use Rattle.std.specs.Prelude.{IfOk, IfSome, IsSome, length, map, reverse};
ghost use Rattle.std.specs.String.{string_bytes};
ghost use Rattle.conn_talk.specs.Agents.{asking_of};
ghost use Rattle.pod_base.specs.Counts.{CountIncreased};
ghost use Rattle.pod_core.specs.History.{History};
ghost use Rattle.pod_keeper.specs.Kept.{StandsForSome};
ghost use Rattle.pod_keeper.specs.KeeperState.{KeeperState, version_in};
ghost use Rattle.pod_live.specs.Stores.{IsSafe, KeptSome};
ghost use Rattle.pod_live.specs.Visits.{IsNewVisit};
ghost use Rattle.program_words.specs.PoddReadings.{reading};
ghost use Rattle.published_view.specs.LookerState.{CountIncreasedByOne};
ghost use Rattle.pod_pipe.specs.CountedFaults.{DiskFaultCounted};
ghost use Rattle.pod_pipe.specs.DiskRuns.{HoldsOfDisks, disks_of};
ghost use Rattle.pod_pipe.specs.Tables.{tokens_of};
ghost use Rattle.pod_serve.specs.PoddRuns.{GivesBack, IsGateFault, RunsListener, RunsPodd};
ghost use Rattle.pod_serve.specs.PoddRuns.{RunsTokens, listen_status, view_status};
ghost use Rattle.pod_serve.specs.PoddSteps.{AreClosed, AreServedAs, RunsGates, RunsOpened};
ghost use Rattle.pod_serve.specs.PoddSteps.{store_named, told_status, told_statuses};
ghost use Rattle.pod_serve.specs.RunHosts.{errors_of, host_of, listen_view_of, listener_of};

use crate::desk::{Desk, DeskEnd, Post, serve};
use conn_talk::Agents;
use pod_base::{List, Mem};
use pod_disk::{Disk, Disks, Place};
use pod_io::{Clock, Gate, Listen, ListenFault, Sink, Source};
use pod_keeper::{Keeper, NotOpened};
use pod_live::{CommittedEntry, KeeperName, Live, Names, NotLive, Seat, Session, StoreName};
use pod_pipe::{Status, read_table, refuse, refuse_table};
use program_words::{Settings, read_settings};
use published_view::{Places, ViewFault, ViewName};
use std::alloc::Global;
use std::marker::Brand;
use std::sync::Wait;
use std::thread::Threads;
use token_table::Tokens;

/// A list with room for that many desks of `podd`.
fn room_for<T: Drop>(alloc: Global, count: usize) -> Mem<List<T>>
    ensures items { IfOk result (λ list. list.items ≡ []) }
    ensures room { IfOk result (λ list. count ≤ list.room) }
{
    let mut list = List::new(alloc);
    list.reserve(alloc, count)?;
    Ok(list)
}

/// The gates of `podd` in the opposite order.
fn turned<G>(gates: List<G>) -> List<G>
    ensures { result.items ≡ reverse gates.items }
{
    let mut gates = gates;
    gates.as_mut_slice().reverse();
    gates
}

/// Makes the desks of `podd` for these sessions and gates, in the order of the gates, in a list
/// that has the room.
fn make_desks<N: ViewName<CommittedEntry> + StoreName, G: Gate>(
    alloc: Global,
    sessions: List<Session<N>>,
    gates: List<G>,
    desks: List<Desk<G, N>>,
) -> List<Desk<G, N>>
    requires count { length sessions.items ≡ length gates.items }
    requires new { All (IsNewVisit N.opening) sessions.items }
    requires empty { desks.items ≡ [] }
    requires room { length gates.items ≤ desks.room }
    ensures gates { map (λ desk. desk.rest.gate) result.items ≡ gates.items }
    ensures new { All (λ desk. IsNewVisit N.opening desk.session) result.items }
{
    let mut sessions = sessions;
    let mut gates = turned(gates);
    let mut desks = desks;
    while let Some(gate) = gates.pop() {
        let Some(session) = sessions.pop() else {
            unreachable!()
        };
        let rest = Post { gate, end: None };
        let _ = desks.push(alloc, Seat { session, rest });
    }
    desks
}

/// Gives the gates of `podd` back to the listener, from the last to the first.
fn close_gates<O: Listen>(listen: &mut O, gates: List<O::Gate>)
    requires room { length gates.items ≤ O.room listen.old }
    ensures back { GivesBack gates.items (listen_view_of O.back O.faults listen.old)
        (listen_view_of O.back O.faults listen.new) }
{
    let mut gates = gates;
    while let Some(gate) = gates.pop() {
        listen.close(gate);
    }
}

/// Gives the gates of `podd`'s desks back to the listener, from the last to the first.
fn close_desks<N: ViewName<CommittedEntry> + StoreName, O: Listen>(
    listen: &mut O,
    desks: List<Desk<O::Gate, N>>,
)
    requires room { length desks.items ≤ O.room listen.old }
    ensures back { GivesBack (map (λ desk. desk.rest.gate) desks.items)
        (listen_view_of O.back O.faults listen.old) (listen_view_of O.back O.faults listen.new) }
{
    let mut desks = desks;
    while let Some(desk) = desks.pop() {
        listen.close(desk.rest.gate);
    }
}

/// The status of `podd` by a desk that ended so.
fn status_of_desk(end: Option<DeskEnd>) -> u8
    ensures { result ≡ told_status end }
{
    match end {
        None => 0,
        Some(DeskEnd::GateEnded) => 0,
        Some(DeskEnd::NoMemory) => 7,
        Some(DeskEnd::GateFailed) => 11,
    }
}

/// The status of `podd` by these desks, which is their greatest.
fn status_of_desks<N: ViewName<CommittedEntry> + StoreName, G: Gate>(desks: &[Desk<G, N>]) -> u8
    ensures { result ≡ told_statuses (map (λ desk. desk.rest.end) desks.now) }
{
    match desks.split_first() {
        Some((desk, others)) => status_of_desk(desk.rest.end).max(status_of_desks(others)),
        None => 0,
    }
}

/// The status of `podd` where the listener opened no gates.
fn status_of_listen(fault: ListenFault) -> Status
    ensures { result.0 ≡ listen_status fault }
{
    match fault {
        ListenFault::Failed => Status(11),
        ListenFault::NoMemory => Status(7),
    }
}

/// The status of `podd` where the versions of the pod aren't published.
fn status_of_view(fault: ViewFault) -> Status
    ensures { result.0 ≡ view_status fault }
{
    match fault {
        ViewFault::NoPlace => Status(8),
        ViewFault::NoMemory => Status(7),
    }
}

/// Serves all desks of `podd`, closes the store, and returns its keeper.
fn serve_desks<
    N: ViewName<CommittedEntry> + StoreName + KeeperName<D> + Send + Sync,
    D: Disk + Send,
    G: Gate + Send,
    C: Clock + Sync,
    R: Threads + Wait + Sync,
>(
    rt: &R,
    alloc: Global,
    live: Live<N, D>,
    agents: &Agents,
    desks: &mut [Desk<G, N>],
    clock: &C,
) -> Keeper<D>
    requires all { length desks.old ≡ N.parts }
    requires few { (0 < length desks.old) × (length desks.old < 65) }
    requires opening { N.opening ≡ [] }
    ensures { AreClosed (host_of D.image D.moment D.left_since D.faults (C.may_give clock.now)
        G.Conn.rest G.Conn.sent G.Conn.counts G.rest G.back G.faults G.given G.ends)
        (store_named N.kept N.opened.next N.safe N.counted N.began) (asking_of agents.now) result
        (λ desk. desk.session) (λ desk. desk.rest.gate) (λ desk. desk.rest.end) desks.old
        desks.new }
{
    serve(rt, alloc, &live, agents, desks, clock);
    live.close(rt, desks)
}

/// Serves the gates of `podd` by the sessions of a store, closes the store, and gives the gates
/// back.
fn serve_live<
    N: ViewName<CommittedEntry> + StoreName + KeeperName<D> + Send + Sync,
    D: Disk + Send,
    O: Listen,
    C: Clock + Sync,
    R: Threads + Wait + Sync,
>(
    rt: &R,
    alloc: Global,
    live: Live<N, D>,
    sessions: List<Session<N>>,
    gates: List<O::Gate>,
    desks: List<Desk<O::Gate, N>>,
    agents: &Agents,
    listen: &mut O,
    clock: &C,
) -> (Status, Keeper<D>)
where
    O::Gate: Send,
    requires count { length sessions.items ≡ length gates.items }
    requires new { All (IsNewVisit N.opening) sessions.items }
    requires empty { desks.items ≡ [] }
    requires fits { length gates.items ≤ desks.room }
    requires parts { N.parts ≡ length gates.items }
    requires few { (0 < length gates.items) × (length gates.items < 65) }
    requires opening { N.opening ≡ [] }
    requires room { length gates.items ≤ O.room listen.old }
    ensures { AreServedAs (host_of D.image D.moment D.left_since D.faults (C.may_give clock.now)
        O.Gate.Conn.rest O.Gate.Conn.sent O.Gate.Conn.counts O.Gate.rest O.Gate.back O.Gate.faults
        O.Gate.given O.Gate.ends)
        (store_named N.kept N.opened.next N.safe N.counted N.began) (asking_of agents.now) result.1
        gates.items (listen_view_of O.back O.faults listen.old)
        (listen_view_of O.back O.faults listen.new) result.0.0 }
{
    let mut desks = make_desks(alloc, sessions, gates, desks);
    let keeper = serve_desks(rt, alloc, live, agents, desks.as_mut_slice(), clock);
    let status = status_of_desks(desks.as_slice());
    close_desks(listen, desks);
    (Status(status), keeper)
}

/// Publishes the versions of a keeper under these names, and serves the gates of `podd` by its
/// sessions.
fn serve_gates<
    N: ViewName<CommittedEntry> + StoreName + KeeperName<D> + Send + Sync,
    D: Disk + Send,
    O: Listen,
    C: Clock + Sync,
    R: Threads + Wait + Sync,
>(
    rt: &R,
    alloc: Global,
    keeper: Keeper<D>,
    names: Names,
    gates: List<O::Gate>,
    agents: &Agents,
    listen: &mut O,
    places: &mut Places,
    clock: &C,
) -> (Status, Keeper<D>)
where
    O::Gate: Send,
    requires names { (names.list ≡ N.book) × (names.changes.name ≡ N.changes)
        × (names.faults.name ≡ N.faults) }
    requires parts { (names.changes.parts ≡ N.parts) × (names.faults.parts ≡ N.parts)
        × (N.parts ≡ length gates.items) }
    requires opening { N.opening ≡ [] }
    requires opened { version_in keeper ≡ N.opened }
    requires kept { (history : History) → N.kept history → KeptSome D.image keeper history }
    requires stands { StandsForSome D.image keeper }
    requires safe { N.safe → IsSafe D.image keeper }
    requires began { (old : KeeperState D) → N.began old → keeper ≡ old }
    requires counted { N.counted ≡ D.faults keeper.first + D.faults keeper.second }
    requires few { (0 < length gates.items) × (length gates.items < 65) }
    requires room { length gates.items ≤ O.room listen.old }
    ensures { RunsGates (host_of D.image D.moment D.left_since D.faults (C.may_give clock.now)
        O.Gate.Conn.rest O.Gate.Conn.sent O.Gate.Conn.counts O.Gate.rest O.Gate.back O.Gate.faults
        O.Gate.given O.Gate.ends)
        (store_named N.kept N.opened.next N.safe N.counted N.began) (asking_of agents.now) keeper
        result.1 gates.items
        (listener_of O.may_open O.back O.faults listen.old listen.new places.old places.new)
        result.0.0 }
{
    let workers = gates.len();
    let Ok(desks) = room_for(alloc, workers) else {
        close_gates(listen, gates);
        return (Status(7), keeper);
    };
    match Live::<N, D>::new(rt, alloc, keeper, names, workers, places) {
        Ok((live, sessions)) => serve_live(
            rt, alloc, live, sessions, gates, desks, agents, listen, clock,
        ),
        Err(refused) => {
            let NotLive { fault, keeper } = refused;
            close_gates(listen, gates);
            (status_of_view(fault), keeper)
        }
    }
}

/// Runs `podd` on the pod of a keeper over gates, under names that are new.
fn run_gates<D: Disk + Send, O: Listen, C: Clock + Sync, R: Threads + Wait + Sync>(
    rt: &R,
    alloc: Global,
    keeper: Keeper<D>,
    table: Tokens,
    gates: List<O::Gate>,
    listen: &mut O,
    places: &mut Places,
    clock: &C,
) -> (Status, Keeper<D>)
where
    O::Gate: Send,
    requires stands { StandsForSome D.image keeper }
    requires few { (0 < length gates.items) × (length gates.items < 65) }
    requires room { length gates.items ≤ O.room listen.old }
    ensures { RunsOpened (host_of D.image D.moment D.left_since D.faults (C.may_give clock.now)
        O.Gate.Conn.rest O.Gate.Conn.sent O.Gate.Conn.counts O.Gate.rest O.Gate.back O.Gate.faults
        O.Gate.given O.Gate.ends) keeper result.1 table gates.items
        (listener_of O.may_open O.back O.faults listen.old listen.new places.old places.new)
        result.0.0 }
{
    let names = Names::new(gates.len() as u64);
    let agents = Agents::Table(table);
    serve_gates::<Brand, D, O, C, R>(
        rt, alloc, keeper, names, gates, &agents, listen, places, clock,
    )
}

/// Opens the gates of a listener, and runs `podd` on the pod of a keeper over them.
fn run_listener<D: Disk + Send, O: Listen, C: Clock + Sync, R: Threads + Wait + Sync>(
    rt: &R,
    alloc: Global,
    settings: Settings,
    keeper: Keeper<D>,
    table: Tokens,
    listen: &mut O,
    places: &mut Places,
    clock: &C,
) -> (Status, Keeper<D>)
where
    O::Gate: Send,
    requires workers { (0 < settings.workers) × (settings.workers < 65) }
    requires stands { StandsForSome D.image keeper }
    ensures { RunsListener (host_of D.image D.moment D.left_since D.faults (C.may_give clock.now)
        O.Gate.Conn.rest O.Gate.Conn.sent O.Gate.Conn.counts O.Gate.rest O.Gate.back O.Gate.faults
        O.Gate.given O.Gate.ends) keeper result.1
        (listener_of O.may_open O.back O.faults listen.old listen.new places.old places.new)
        table settings.workers result.0.0 }
{
    match listen.open(alloc, settings.port, settings.workers as usize) {
        Ok(gates) => run_gates(rt, alloc, keeper, table, gates, listen, places, clock),
        Err(fault) => (status_of_listen(fault), keeper),
    }
}

/// Reads the token table, and runs `podd` on the pod of a keeper by it.
fn run_keeper<
    D: Disk + Send,
    T: Source,
    O: Listen,
    E: Sink,
    C: Clock + Sync,
    R: Threads + Wait + Sync,
>(
    rt: &R,
    alloc: Global,
    settings: Settings,
    keeper: Keeper<D>,
    tokens: &mut T,
    listen: &mut O,
    places: &mut Places,
    errors: &mut E,
    clock: &C,
) -> (Status, Keeper<D>)
where
    O::Gate: Send,
    requires workers { (0 < settings.workers) × (settings.workers < 65) }
    requires stands { StandsForSome D.image keeper }
    ensures { RunsTokens (host_of D.image D.moment D.left_since D.faults (C.may_give clock.now)
        O.Gate.Conn.rest O.Gate.Conn.sent O.Gate.Conn.counts O.Gate.rest O.Gate.back O.Gate.faults
        O.Gate.given O.Gate.ends) keeper result.1
        (listener_of O.may_open O.back O.faults listen.old listen.new places.old places.new)
        settings.workers (tokens_of T.rest T.faults T.reads T.ends tokens.old tokens.new)
        (errors_of E.taken E.faults errors.old errors.new) result.0.0 }
{
    match read_table(alloc, tokens) {
        Ok(table) => run_listener(rt, alloc, settings, keeper, table, listen, places, clock),
        Err(fault) => (refuse_table(fault, errors), keeper),
    }
}

/// Opens a store, and runs `podd` on its pod. Returns the disks.
fn run_store<
    D: Disk + Send,
    T: Source,
    O: Listen,
    E: Sink,
    C: Clock + Sync,
    R: Threads + Wait + Sync,
>(
    rt: &R,
    alloc: Global,
    settings: Settings,
    disks: Disks<D>,
    tokens: &mut T,
    listen: &mut O,
    places: &mut Places,
    errors: &mut E,
    clock: &C,
) -> (Status, Disks<D>)
where
    O::Gate: Send,
    requires { (0 < settings.workers) × (settings.workers < 65) }
    ensures { RunsPodd (host_of D.image D.moment D.left_since D.faults (C.may_give clock.now)
        O.Gate.Conn.rest O.Gate.Conn.sent O.Gate.Conn.counts O.Gate.rest O.Gate.back O.Gate.faults
        O.Gate.given O.Gate.ends)
        (disks_of D.content D.image D.moment D.left_since D.faults disks result.1)
        (listener_of O.may_open O.back O.faults listen.old listen.new places.old places.new)
        settings.workers (tokens_of T.rest T.faults T.reads T.ends tokens.old tokens.new)
        (errors_of E.taken E.faults errors.old errors.new) result.0.0 }
{
    match Keeper::open(alloc, disks) {
        Ok(keeper) => {
            let (status, keeper) = run_keeper(
                rt, alloc, settings, keeper, tokens, listen, places, errors, clock,
            );
            (status, keeper.close())
        }
        Err(refused) => {
            let NotOpened { fault, disks } = refused;
            (refuse(fault, errors), disks)
        }
    }
}

/// Runs `podd` with these words: opens the store of a place, reads its token table, opens as many
/// gates as there are workers, and serves the connections of each, one after the other, beside
/// those of the others. Returns when each gate has ended or failed. The disks are put back, and
/// the gates are given back, from the last to the first.
pub fn run_podd<
    D: Disk + Send,
    T: Source,
    O: Listen,
    E: Sink,
    C: Clock + Sync,
    R: Threads + Wait + Sync,
>(
    rt: &R,
    alloc: Global,
    words: &[String],
    place: &mut Place<D, T>,
    listen: &mut O,
    places: &mut Places,
    errors: &mut E,
    clock: &C,
) -> Status
where
    O::Gate: Send,
    requires { IsSome place.old.disks }
    ensures place { IsSome place.new.disks }
    ensures words { (result.0 ≡ 2) ↔ (reading (map string_bytes words.now) ≡ None) }
    ensures runs { IfSome (reading (map string_bytes words.now)) (λ settings.
        HoldsOfDisks D.content D.image D.moment D.left_since D.faults place.old place.new (λ disks.
        RunsPodd (host_of D.image D.moment D.left_since D.faults (C.may_give clock.now)
        O.Gate.Conn.rest O.Gate.Conn.sent O.Gate.Conn.counts O.Gate.rest O.Gate.back O.Gate.faults
        O.Gate.given O.Gate.ends) disks
        (listener_of O.may_open O.back O.faults listen.old listen.new places.old places.new)
        settings.workers
        (tokens_of T.rest T.faults T.reads T.ends place.old.tokens place.new.tokens)
        (errors_of E.taken E.faults errors.old errors.new) result.0)) }
    ensures idle { reading (map string_bytes words.now) ≡ None
        → (place.new ≡ place.old) × (listen.new ≡ listen.old) × (places.new ≡ places.old)
        × (errors.new ≡ errors.old) }
    ensures read_fault { result.0 ≡ 3
        → CountIncreased (T.faults place.old.tokens) (T.faults place.new.tokens) }
    ensures disk_fault { DiskFaultCounted D.faults place.old place.new result.0 }
    ensures view_fault { result.0 ≡ 8 → CountIncreasedByOne places.old places.new }
    ensures listen_fault { result.0 ≡ 11
        → CountIncreased (O.faults listen.old) (O.faults listen.new)
        ⊎ IsGateFault (O.may_open listen.old) O.Gate.faults }
    ensures no_output { result.0 ≢ 4 }
{
    let Some(settings) = read_settings(words) else {
        return Status(2);
    };
    let Some(disks) = place.disks.take() else {
        unreachable!()
    };
    let tokens = &mut place.tokens;
    let (status, disks) = run_store(
        rt, alloc, settings, disks, tokens, listen, places, errors, clock,
    );
    place.disks = Some(disks);
    status
}
