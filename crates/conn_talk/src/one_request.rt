//! Answers one request of a connection, and writes the answer and its line.
ghost use Rattle.std.specs.Prelude.{◌≡◌, ◌==◌, ℕ, Bool, List, [], if◌then◌else◌, false};
ghost use Rattle.std.specs.Prelude.{IfOk, IfErr};
ghost use Rattle.http_out.specs.Text.{response_text};
ghost use Rattle.pod_io.specs.Writing.{Writes};
ghost use Rattle.http_out.specs.Calendar.{date_text};
ghost use Rattle.pod_core.specs.Output as spec;
ghost use Rattle.pod_core.specs.Session.{IsClockMoment};
ghost use Rattle.reply_laws.specs.Sent.{IsSent};
ghost use Rattle.token_table.specs.Credentials.{asked_view};
ghost use Rattle.conn_talk.specs.Agents.{asking_of};
ghost use Rattle.conn_talk.specs.Steps.{AnsweredSo, IsTurn, MayEnd, MayStop, WritesBoth};
ghost use Rattle.conn_talk.specs.Steps.{WritesNothing, entry_line};
ghost use Rattle.conn_talk.specs.Talks.{CountsWrites};

use crate::answers::{AnswerFault, Answers};
use crate::output::Output;
use crate::response_writing::{write_out, write_text};
use crate::setting::Setting;
use crate::talk_end::TalkEnd;
use crate::trail_line::{TrailEntry, write_line};
use http_out::{Out, disk_text, memory_text};
use pod_base::{Moment, Request, Stamp, moment_of};
use pod_core::{Answer, closes_after, is_change};
use pod_io::{Clock, Sink};
use token_table::Asked;

/// The status of a switch of protocols.
const SWITCHING: u16 = 101;

/// The bytes of an answer, and what a line of the trail shows of it.
#[derive(Drop)]
struct Answered {
    out: Out,
    entry: TrailEntry,
}

/// The clock's moment, at which one request is answered.
pub fn clock_moment<C: Clock>(clock: &C) -> Moment
    ensures { IsClockMoment (C.may_give clock.now) result.0 }
{
    moment_of(clock.now())
}

/// The bytes of the answer to one request, of that number, and what a line of the trail shows of
/// it.
fn answer_out(answer: Answer, request: &Request, number: u64) -> Answered
    requires { IsSent answer.response }
    ensures out { result.out ≡ response_text answer.response (date_text answer.moment.0)
        (spec.closes_after request.now number) }
    ensures place { result.entry.place ≡ answer.place }
    ensures moment { result.entry.moment ≡ answer.moment }
    ensures status { result.entry.status ≡ answer.response.status }
{
    let Answer {
        response,
        place,
        moment,
    } = answer;
    let entry = TrailEntry {
        place,
        moment,
        status: response.status,
    };
    let out = Out::new(response, moment, closes_after(request, number));
    Answered { out, entry }
}

/// Writes the answer to one request, and then its line of the trail. Returns whether it switches
/// protocols.
fn write_answered<K: Output, E: Sink, C>(
    setting: &Setting<'_, C>,
    request: &Request,
    asked: &Asked<'_>,
    answered: Answered,
    output: &mut K,
    errors: &mut E,
) -> Result<bool, TalkEnd>
    ensures writes { WritesBoth result answered.out
        (if setting.now.trail then entry_line request.now (asked_view asked.now) answered.entry
        else []) (K.taken output.old) (K.taken output.new) (E.taken errors.old) (E.taken errors.new) }
    ensures upgraded { IfOk result (λ upgraded. upgraded ≡ (answered.entry.status == 101)) }
    ensures fails { IfErr result MayStop }
    ensures faults { CountsWrites result (K.faults output.old) (K.faults output.new)
        (E.faults errors.old) (E.faults errors.new) }
    ensures follows { K.follows output.old output.new }
{
    let Answered { out, entry } = answered;
    match write_out(output, out) {
        Ok(()) => match write_line(setting.alloc, setting.trail, request, asked, entry, errors) {
            Ok(()) => Ok(entry.status == SWITCHING),
            Err(end) => Err(end),
        },
        Err(_failed) => Err(TalkEnd::WriteFault),
    }
}

/// Answers one request by a fixed response, which doesn't switch protocols.
fn write_fixed<K: Output>(output: &mut K, text: &[u8]) -> Result<bool, TalkEnd>
    ensures writes { Writes result text.now (K.taken output.old) (K.taken output.new) }
    ensures upgraded { IfOk result (λ upgraded. upgraded ≡ false) }
    ensures fails { IfErr result MayStop }
    ensures faults { CountsWrites result (K.faults output.old) (K.faults output.new) 0 0 }
    ensures follows { K.follows output.old output.new }
{
    match write_text(output, text) {
        Ok(()) => Ok(false),
        Err(_failed) => Err(TalkEnd::WriteFault),
    }
}

/// Sends the responses that the output holds back before one request is answered that is a change,
/// so that none of them waits for a disk.
pub(crate) fn flush_before<K: Output>(request: &Request, output: &mut K) -> Result<(), TalkEnd>
    ensures taken { K.taken output.new ≡ K.taken output.old }
    ensures end { IfErr result (λ end. end ≡ TalkEnd.WriteFault) }
    ensures faults { CountsWrites result (K.faults output.old) (K.faults output.new) 0 0 }
    ensures follows { K.follows output.old output.new }
{
    if !is_change(request.method) {
        return Ok(());
    }
    match output.flush() {
        Ok(()) => Ok(()),
        Err(_failed) => Err(TalkEnd::WriteFault),
    }
}

/// Answers one request of that stamp and writes the response: that of the answer, or the fixed one
/// of out of memory or of a disk fault. Returns whether it switches protocols.
pub(crate) fn answer_one<A: Answers, K: Output, E: Sink, C>(
    answers: &mut A,
    request: &Request,
    stamp: Stamp,
    setting: &Setting<'_, C>,
    output: &mut K,
    errors: &mut E,
) -> Result<bool, TalkEnd>
    requires { A.ready answers.old }
    ensures came { AnsweredSo result ((text : List ℕ) × (line : List ℕ) × (upgraded : Bool)
        × IsTurn (λ item. A.turns stamp.conn stamp.moment.0 answers.old item answers.new)
        setting.now.trail request.now (asking_of setting.now.agents.now request.now) stamp text line
        upgraded
        × WritesBoth result text line (K.taken output.old) (K.taken output.new)
        (E.taken errors.old) (E.taken errors.new)
        × IfOk result (λ told. told ≡ upgraded))
        (A.passes request.now answers.old answers.new
        × WritesNothing (K.taken output.old) (K.taken output.new) (E.taken errors.old)
        (E.taken errors.new)) }
    ensures ends { IfErr result MayEnd }
    ensures ready { A.ready answers.new }
    ensures faults { CountsWrites result (K.faults output.old) (K.faults output.new)
        (E.faults errors.old) (E.faults errors.new) }
    ensures follows { K.follows output.old output.new }
{
    let asked = setting.agents.asked(request);
    match answers.answer(setting.alloc, request, &asked, stamp) {
        Ok(answer) => {
            let answered = answer_out(answer, request, stamp.number);
            write_answered(setting, request, &asked, answered, output, errors)
        }
        Err(AnswerFault::NoMemory) => write_fixed(output, memory_text()),
        Err(AnswerFault::DiskFault) => write_fixed(output, disk_text()),
        Err(AnswerFault::NoPlace) => Err(TalkEnd::NoPlace),
    }
}
