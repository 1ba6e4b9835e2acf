//! The line of an answered request in the audit trail.
ghost use Rattle.std.specs.Prelude.{◌≡◌, ◌<◌, ◌≤◌, [], None, length, if◌then◌else◌, IfOk, IfErr};
ghost use Rattle.pod_io.specs.Writing.{Writes};
ghost use Rattle.pod_reply.specs.Reply.{agent_of};
ghost use Rattle.token_table.specs.Credentials.{asked_view};
ghost use Rattle.conn_talk.specs.Steps.{MayStop, entry_line};
ghost use Rattle.conn_talk.specs.Talks.{CountsWrites};

use crate::talk_end::TalkEnd;
use audit_trail::session_line;
use pod_base::{Agent, Bytes, Mem, Moment, Request};
use pod_io::{Failed, Sink, write_all};
use std::alloc::Global;
use token_table::Asked;

/// What a line of the trail shows of an answer: its place, its moment and its status.
#[derive(Clone, Copy, Debug, PartialEq, Eq)]
pub struct TrailEntry {
    pub place: u64,
    pub moment: Moment,
    pub status: u16,
}

/// The agent of an answered request, as the trail's line shows it: anybody, also where a token was
/// refused.
fn shown_agent(alloc: Global, asked: &Asked<'_>) -> Mem<Agent>
    ensures { IfOk result (λ agent. agent ≡ agent_of (asked_view asked.now)) }
{
    match asked {
        Asked::Known(agent) => {
            let agent = agent.copy(alloc)?;
            Ok(Agent::Known(agent))
        }
        Asked::Public | Asked::Refused => Ok(Agent::Public),
    }
}

/// Makes the trail's line of a request that the connection has answered.
fn line_of(alloc: Global, request: &Request, asked: &Asked<'_>, entry: TrailEntry) -> Mem<Bytes>
    ensures { IfOk result (λ line. line ≡ entry_line request.now (asked_view asked.now) entry) }
{
    let agent = shown_agent(alloc, asked)?;
    let TrailEntry {
        place,
        moment,
        status,
    } = entry;
    session_line(alloc, place, moment, &agent, request, status)
}

/// Writes the trail's line of an answered request to the error sink, where the trail is enabled.
pub(crate) fn write_line<E: Sink>(
    alloc: Global,
    trail: bool,
    request: &Request,
    asked: &Asked<'_>,
    entry: TrailEntry,
    errors: &mut E,
) -> Result<(), TalkEnd>
    ensures writes { Writes result
        (if trail then entry_line request.now (asked_view asked.now) entry else [])
        (E.taken errors.old) (E.taken errors.new) }
    ensures fails { IfErr result MayStop }
    ensures faults { CountsWrites result 0 0 (E.faults errors.old) (E.faults errors.new) }
{
    if !trail {
        return Ok(());
    }
    let Ok(line) = line_of(alloc, request, asked, entry) else {
        return Err(TalkEnd::NoMemory);
    };
    match write_all(errors, line.as_slice()) {
        Ok(()) => Ok(()),
        Err(_failed) => Err(TalkEnd::WriteFault),
    }
}

/// The sink for lines of a connection without a trail. It takes everything, and keeps nothing.
#[derive(Clone, Copy, Debug)]
pub struct NoTrail;

impl Sink for NoTrail {
    ghost taken = { λ _. None };

    ghost faults = { λ _. 0 };

    fn write(&mut self, piece: &[u8]) -> Result<usize, Failed> {
        Ok(piece.len())
    }
}
