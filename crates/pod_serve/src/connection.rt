//! [`serve_conn`]: one connection of many.
ghost use Rattle.std.specs.Prelude.{◌≡◌, ◌==◌, ◌+◌, ◌<◌, [], drop, if◌then◌else◌, length};
ghost use Rattle.std.specs.Prelude.{IfNone, IfSome};
ghost use Rattle.conn_talk.specs.Agents.{asking_of};
ghost use Rattle.http_conn.specs.declared.events.TheConstants.{REQUEST_LIMIT};
ghost use Rattle.pod_serve.specs.Connections.{ConnServed, IsPlainEnd, requests_end};
ghost use Rattle.pod_serve.specs.Served.{LinkView, link_view_of};
ghost use Rattle.pod_serve.specs.Turns.{IsNoted};
ghost use Rattle.pod_serve.specs.Serving.{AfterTurn, FinishesAs, IsLinkServed, IsOpenLink};
ghost use Rattle.pod_serve.specs.Serving.{IsReadLink, IsWrittenTo, requests_end_of, link_rules};
ghost use Rattle.pod_serve.specs.Serving.{taken_with, unsent_end};

use crate::connection_end::{ConnEnd, QUIET_LIMIT};
use crate::link_output::LinkOutput;
use crate::notices::serve_notices;
use crate::piece_answers::answer_piece;
use crate::requests_end::RequestsEnd;
use crate::store_answers::StoreAnswers;
use crate::upgrade::Upgrade;
use conn_talk::{Agents, Answers, Connection, Output, TalkEnd};
use http_conn::Conn;
use pod_io::{Clock, Link, LinkFailed};
use pod_live::{CommittedEntry, Rounds, Session, StoreName};
use published_view::ViewName;
use socket_wire::Wires;
use std::alloc::Global;
use std::sync::Wait;

/// The most bytes that one read requests.
const PIECE_LIMIT: usize = 16_384;

/// Ends the serving of a connection whose input ended after so many bytes of an unfinished message.
fn at_end(rest: usize) -> RequestsEnd
    ensures { result ≡ (if rest == 0 then RequestsEnd.PeerEnded else RequestsEnd.CutShort rest) }
{
    if rest == 0 {
        RequestsEnd::PeerEnded
    } else {
        RequestsEnd::CutShort { rest }
    }
}

/// Ends the serving of a connection whose events ended so.
fn end_of_requests(end: TalkEnd) -> RequestsEnd
    ensures { result ≡ requests_end_of end }
{
    match end {
        TalkEnd::Closed => RequestsEnd::Closed,
        TalkEnd::Limit => RequestsEnd::LimitReached,
        TalkEnd::Upgraded => RequestsEnd::Upgraded,
        TalkEnd::Bad { status } => RequestsEnd::BadMessage { status },
        TalkEnd::WriteFault => RequestsEnd::LinkFault,
        TalkEnd::NoMemory => RequestsEnd::NoMemory,
        TalkEnd::NoPlace => RequestsEnd::NoPlace,
    }
}

/// Ends the serving of a connection whose last bytes weren't sent.
fn unsent(end: TalkEnd) -> RequestsEnd
    ensures { result ≡ unsent_end end }
{
    match end {
        TalkEnd::NoMemory => RequestsEnd::NoMemory,
        _ => RequestsEnd::LinkFault,
    }
}

/// Sends what waits after the last event of a served connection, unless a write failed.
fn finish<'a, L: Link>(output: &mut LinkOutput<'a, L>, end: TalkEnd) -> RequestsEnd
    ensures same { output.old.link.ghost_name ≡ output.new.link.ghost_name }
    ensures taken { taken_with (drop output.new.from output.new.held.now.items) (L.sent
        output.new.link.now) ≡ taken_with (drop output.old.from output.old.held.now.items) (L.sent
        output.old.link.now) }
    ensures written { IsWrittenTo (L.rest output.old.link.now) (L.rest output.new.link.now) (L.sent
        output.old.link.now) (L.sent output.new.link.now) (L.counts output.old.link.now) (L.counts
        output.new.link.now) }
    ensures finishes { FinishesAs end result (drop output.new.from output.new.held.now.items)
        (L.counts output.old.link.now).write_faults (L.counts output.new.link.now).write_faults }
{
    if end == TalkEnd::WriteFault {
        return RequestsEnd::LinkFault;
    }
    match output.flush() {
        Ok(()) => end_of_requests(end),
        Err(_failed) => unsent(end),
    }
}

/// A connection between two reads: the parser of its bytes, how many of its requests were answered,
/// and how many quiet times in a row were counted.
#[derive(Drop)]
struct Reading {
    parser: Conn,
    connection: Connection,
    quiet: u64,
}

/// Answers a piece that was read from a served connection, where nothing waits to be sent.
fn take_piece<'a, A: Answers, L: Link, C: Clock>(
    alloc: Global,
    reading: &mut Reading,
    answers: &mut A,
    piece: &[u8],
    agents: &Agents,
    output: &mut LinkOutput<'a, L>,
    clock: &C,
) -> Option<RequestsEnd>
    requires ready { A.ready answers.old }
    requires few { reading.old.connection.number < REQUEST_LIMIT }
    requires empty { (drop output.old.from output.old.held.now.items) ≡ [] }
    requires read { (first : A) × (start : LinkView) × IsReadLink (link_rules
        reading.old.connection.conn (C.may_give clock.now) (asking_of agents.now) A.turns A.passes)
        first start reading.old.parser answers.old reading.old.connection.number piece.now
        (link_view_of L.rest L.sent L.counts output.old.link.now) }
    ensures same { output.old.link.ghost_name ≡ output.new.link.ghost_name }
    ensures ready { A.ready answers.new }
    ensures few { IfNone result (reading.new.connection.number < REQUEST_LIMIT) }
    ensures conn { reading.new.connection.conn ≡ reading.old.connection.conn }
    ensures quiet { reading.new.quiet ≡ 0 }
    ensures turn { (first : A) (start : LinkView) → IsReadLink (link_rules
        reading.old.connection.conn (C.may_give clock.now) (asking_of agents.now) A.turns A.passes)
        first start reading.old.parser answers.old reading.old.connection.number piece.now
        (link_view_of L.rest L.sent L.counts output.old.link.now) → AfterTurn (link_rules
        reading.old.connection.conn (C.may_give clock.now) (asking_of agents.now) A.turns A.passes)
        result first start reading.new.parser answers.new reading.new.connection.number
        reading.new.quiet (drop output.new.from output.new.held.now.items) (link_view_of L.rest
        L.sent L.counts output.new.link.now) }
{
    let Reading {
        parser,
        connection,
        quiet,
    } = reading;
    *quiet = 0;
    match answer_piece(
        alloc, parser, connection, answers, piece, agents, output, clock,
    ) {
        Ok(()) => None,
        Err(end) => Some(finish(output, end)),
    }
}

/// Counts one more quiet time in a row of a served connection.
fn count_quiet(reading: &mut Reading) -> Option<RequestsEnd>
    requires { reading.old.quiet < QUIET_LIMIT }
    ensures parser { reading.new.parser ≡ reading.old.parser }
    ensures connection { reading.new.connection ≡ reading.old.connection }
    ensures quiet { reading.new.quiet ≡ reading.old.quiet + 1 }
    ensures more { IfNone result (reading.new.quiet < QUIET_LIMIT) }
    ensures end { IfSome result (λ end. (end ≡ RequestsEnd.Quiet) × (reading.new.quiet ≡ QUIET_LIMIT)) }
{
    reading.quiet += 1;
    if reading.quiet == QUIET_LIMIT {
        Some(RequestsEnd::Quiet)
    } else {
        None
    }
}

/// Reads a piece from a served connection and answers it, where nothing waits to be sent.
fn read_turn<'a, A: Answers, L: Link, C: Clock>(
    alloc: Global,
    reading: &mut Reading,
    answers: &mut A,
    into: &mut [u8],
    agents: &Agents,
    output: &mut LinkOutput<'a, L>,
    clock: &C,
) -> Option<RequestsEnd>
    requires ready { A.ready answers.old }
    requires few { reading.old.connection.number < REQUEST_LIMIT }
    requires some { 0 < length into.old }
    requires quiet { reading.old.quiet < QUIET_LIMIT }
    requires empty { (drop output.old.from output.old.held.now.items) ≡ [] }
    requires is_open { (first : A) × (start : LinkView) × IsOpenLink (link_rules
        reading.old.connection.conn (C.may_give clock.now) (asking_of agents.now) A.turns A.passes)
        first start reading.old.parser answers.old reading.old.connection.number reading.old.quiet
        [] (link_view_of L.rest L.sent L.counts output.old.link.now) }
    ensures same { output.old.link.ghost_name ≡ output.new.link.ghost_name }
    ensures ready { A.ready answers.new }
    ensures few { IfNone result (reading.new.connection.number < REQUEST_LIMIT) }
    ensures conn { reading.new.connection.conn ≡ reading.old.connection.conn }
    ensures quiet { IfNone result (reading.new.quiet < QUIET_LIMIT) }
    ensures turn { (first : A) (start : LinkView) → IsOpenLink (link_rules
        reading.old.connection.conn (C.may_give clock.now) (asking_of agents.now) A.turns A.passes)
        first start reading.old.parser answers.old reading.old.connection.number reading.old.quiet
        [] (link_view_of L.rest L.sent L.counts output.old.link.now) → AfterTurn (link_rules
        reading.old.connection.conn (C.may_give clock.now) (asking_of agents.now) A.turns A.passes)
        result first start reading.new.parser answers.new reading.new.connection.number
        reading.new.quiet (drop output.new.from output.new.held.now.items) (link_view_of L.rest
        L.sent L.counts output.new.link.now) }
{
    match output.receive(into) {
        Ok(count) => {
            if count == 0 {
                Some(at_end(reading.parser.rest()))
            } else {
                take_piece(
                    alloc,
                    reading,
                    answers,
                    &into[..count],
                    agents,
                    output,
                    clock,
                )
            }
        }
        Err(LinkFailed::Quiet) => count_quiet(reading),
        Err(LinkFailed::Failed) => Some(RequestsEnd::LinkFault),
    }
}

/// Does one turn of a served connection: sends what waits, reads a piece and answers it. Returns
/// how the connection ended, where it did.
fn turn<'a, A: Answers, L: Link, C: Clock>(
    alloc: Global,
    reading: &mut Reading,
    answers: &mut A,
    into: &mut [u8],
    agents: &Agents,
    output: &mut LinkOutput<'a, L>,
    clock: &C,
) -> Option<RequestsEnd>
    requires ready { A.ready answers.old }
    requires few { reading.old.connection.number < REQUEST_LIMIT }
    requires some { 0 < length into.old }
    requires quiet { reading.old.quiet < QUIET_LIMIT }
    requires is_open { (first : A) × (start : LinkView) × IsOpenLink (link_rules
        reading.old.connection.conn (C.may_give clock.now) (asking_of agents.now) A.turns A.passes)
        first start reading.old.parser answers.old reading.old.connection.number reading.old.quiet
        (drop output.old.from output.old.held.now.items) (link_view_of L.rest L.sent L.counts
        output.old.link.now) }
    ensures same { output.old.link.ghost_name ≡ output.new.link.ghost_name }
    ensures ready { A.ready answers.new }
    ensures few { IfNone result (reading.new.connection.number < REQUEST_LIMIT) }
    ensures conn { reading.new.connection.conn ≡ reading.old.connection.conn }
    ensures quiet { IfNone result (reading.new.quiet < QUIET_LIMIT) }
    ensures turn { (first : A) (start : LinkView) → IsOpenLink (link_rules
        reading.old.connection.conn (C.may_give clock.now) (asking_of agents.now) A.turns A.passes)
        first start reading.old.parser answers.old reading.old.connection.number reading.old.quiet
        (drop output.old.from output.old.held.now.items) (link_view_of L.rest L.sent L.counts
        output.old.link.now) → AfterTurn (link_rules reading.old.connection.conn (C.may_give
        clock.now) (asking_of agents.now) A.turns A.passes) result first start reading.new.parser
        answers.new reading.new.connection.number reading.new.quiet (drop output.new.from
        output.new.held.now.items) (link_view_of L.rest L.sent L.counts output.new.link.now) }
{
    match output.flush() {
        Ok(()) => read_turn(alloc, reading, answers, into, agents, output, clock),
        Err(_failed) => Some(RequestsEnd::LinkFault),
    }
}

/// Serves a link as the connection of that number, by what answers its requests.
fn serve_link<'a, A: Answers, L: Link, C: Clock, R: Wait>(
    rt: &R,
    alloc: Global,
    conn: u64,
    answers: &mut A,
    agents: &Agents,
    output: &mut LinkOutput<'a, L>,
    clock: &C,
) -> RequestsEnd
    requires ready { A.ready answers.old }
    requires empty { (drop output.old.from output.old.held.now.items) ≡ [] }
    ensures same { output.old.link.ghost_name ≡ output.new.link.ghost_name }
    ensures served { IsLinkServed (link_rules conn (C.may_give clock.now) (asking_of agents.now)
        A.turns A.passes) result answers.old answers.new (link_view_of L.rest L.sent L.counts
        output.old.link.now) (link_view_of L.rest L.sent L.counts output.new.link.now) }
{
    let mut reading = Reading {
        parser: Conn::new(alloc),
        connection: Connection { conn, number: 0 },
        quiet: 0,
    };
    let mut into = [0u8; PIECE_LIMIT];
    for _ in rt.forever() {
        if let Some(end) = turn(
            alloc,
            &mut reading,
            answers,
            &mut into,
            agents,
            output,
            clock,
        ) {
            return end;
        }
    }
    unreachable!()
}

/// Serves the requests of a connection over a link, as the one of that number, and notes what the
/// last one switched to.
fn serve_requests<
    N: ViewName<CommittedEntry> + StoreName,
    L: Rounds<N>,
    K: Link,
    C: Clock,
    R: Wait,
>(
    rt: &R,
    alloc: Global,
    live: &L,
    agents: &Agents,
    session: &mut Session<N>,
    upgrade: &mut Option<Upgrade>,
    conn: u64,
    link: &mut K,
    clock: &C,
) -> RequestsEnd
    ensures { IsNoted N.kept N.opened.next (C.may_give clock.now) (asking_of agents.now)
        N.opened.pod.base conn result session.old session.new (link_view_of K.rest K.sent K.counts
        link.old) (link_view_of K.rest K.sent K.counts link.new) upgrade.new }
{
    let mut seated = StoreAnswers::new(rt, live, session, upgrade);
    let mut held = Vec::new(alloc);
    let mut output = LinkOutput::new(link, &mut held);
    serve_link(rt, alloc, conn, &mut seated, agents, &mut output, clock)
}

/// Ends a served connection whose requests ended, without a switch of protocols.
fn plain_end(end: RequestsEnd) -> Option<ConnEnd>
    ensures some { IfSome result (λ told. requests_end told ≡ end) }
    ensures plain { IfSome result IsPlainEnd }
    ensures none { IfNone result (end ≡ RequestsEnd.Upgraded) }
{
    match end {
        RequestsEnd::PeerEnded => Some(ConnEnd::PeerEnded),
        RequestsEnd::CutShort { rest } => Some(ConnEnd::CutShort { rest }),
        RequestsEnd::BadMessage { status } => Some(ConnEnd::BadMessage { status }),
        RequestsEnd::Quiet => Some(ConnEnd::Quiet),
        RequestsEnd::LinkFault => Some(ConnEnd::LinkFault),
        RequestsEnd::LimitReached => Some(ConnEnd::LimitReached),
        RequestsEnd::Closed => Some(ConnEnd::Closed),
        RequestsEnd::Upgraded => None,
        RequestsEnd::NoPlace => Some(ConnEnd::NoPlace),
        RequestsEnd::NoMemory => Some(ConnEnd::NoMemory),
    }
}

/// Serves one connection, as the one of that number: requests are parsed and answered in order,
/// reads of the pod from what is published when each is answered, changes under the store's lock.
///
/// Responses may wait in a buffer, which is written before each read of the link, before a change
/// is answered, and at the end. After a switch of protocols the connection goes on as a WebSocket,
/// which sends the notices of the request's path ([`pod_feed::serve_feed`]) until its feed ends; the
/// bytes that were read together with that request are dropped. It waits for bytes, and for the
/// lock.
pub fn serve_conn<
    N: ViewName<CommittedEntry> + StoreName,
    L: Rounds<N>,
    K: Link,
    C: Clock,
    R: Wait,
>(
    rt: &R,
    alloc: Global,
    live: &L,
    agents: &Agents,
    session: &mut Session<N>,
    wires: &mut Wires,
    conn: u64,
    link: &mut K,
    clock: &C,
) -> ConnEnd
    ensures { ConnServed N.kept N.opened.next (C.may_give clock.now) (asking_of agents.now) conn
        result session.old session.new (link_view_of K.rest K.sent K.counts link.old) (link_view_of
        K.rest K.sent K.counts link.new) wires.old wires.new }
{
    let mut upgrade = None;
    let requests = serve_requests(
        rt,
        alloc,
        live,
        agents,
        session,
        &mut upgrade,
        conn,
        link,
        clock,
    );
    match plain_end(requests) {
        Some(end) => end,
        None => ConnEnd::Noticed(serve_notices(rt, alloc, session, wires, link, &upgrade)),
    }
}
