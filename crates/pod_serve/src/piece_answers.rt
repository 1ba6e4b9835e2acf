//! Answers the events of one piece of a connection's bytes.
ghost use Rattle.std.specs.Prelude.{◌≡◌, ◌≤◌, ◌<◌, ℕ, List, false, Err, OnOk};
ghost use Rattle.conn_talk.specs.Agents.{asking_of};
ghost use Rattle.http_conn.specs.declared.events.TheConstants.{REQUEST_LIMIT};
ghost use Rattle.pod_io.specs.Writing.{ExtendsBy};
ghost use Rattle.pod_base.specs.Counts.{CountIncreased};
ghost use Rattle.pod_serve.specs.Serving.{AnswersPiece, IsAnswered, link_rules};

use conn_talk::{Agents, Answers, Connection, NoTrail, Output, TalkEnd};
use http_conn::{Conn, REQUEST_LIMIT};
use pod_io::Clock;
use std::alloc::Global;

/// Answers the next piece of a connection's bytes: parses it, and answers its events in order.
///
/// # Errors
///
/// How the connection ended. Nothing may be answered on it afterwards.
pub(crate) fn answer_piece<A: Answers, K: Output, C: Clock>(
    alloc: Global,
    parser: &mut Conn,
    connection: &mut Connection,
    answers: &mut A,
    piece: &[u8],
    agents: &Agents,
    output: &mut K,
    clock: &C,
) -> Result<(), TalkEnd>
    requires ready { A.ready answers.old }
    requires few { connection.old.number < REQUEST_LIMIT }
    requires answered { (first : A) × (text : List ℕ) × (written : List ℕ) × IsAnswered (link_rules
        connection.old.conn (C.may_give clock.now) (asking_of agents.now) A.turns A.passes) first
        parser.old answers.old connection.old.number text written }
    ensures few { OnOk result (connection.new.number < REQUEST_LIMIT) }
    ensures conn { connection.new.conn ≡ connection.old.conn }
    ensures ready { A.ready answers.new }
    ensures answers { (out : List ℕ) × ExtendsBy out (K.taken output.old) (K.taken output.new) ×
        AnswersPiece (link_rules connection.old.conn (C.may_give clock.now) (asking_of agents.now)
        A.turns A.passes) parser.old parser.new answers.old connection.old.number answers.new
        connection.new.number piece.now out result }
    ensures no_fewer { K.faults output.old ≤ K.faults output.new }
    ensures failed { result ≡ Err TalkEnd.WriteFault → CountIncreased (K.faults output.old)
        (K.faults output.new) }
    ensures follows { K.follows output.old output.new }
{
    let Ok(heard) = parser.feed(alloc, piece) else {
        return Err(TalkEnd::NoMemory);
    };
    let heard = heard.as_slice();
    let errors = &mut NoTrail;
    match connection.answer_events(alloc, answers, heard, agents, false, output, errors, clock) {
        Ok(()) => Ok(()),
        Err(end) => Err(end),
    }
}
