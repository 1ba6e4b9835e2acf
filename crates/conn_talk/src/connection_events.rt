//! [`Connection`]: answers the events of a connection.
ghost use Rattle.std.specs.Prelude.{◌≡◌, ◌≤◌, ◌<◌, ◌+◌, ◌==◌, ◌∷◌, [], ℕ, List, length};
ghost use Rattle.std.specs.Prelude.{IfOk, IfErr, OnOk, if◌then◌else◌};
ghost use Rattle.std.specs.List.{AllByRecursion};
ghost use Rattle.http_conn.specs.Messages.{NothingAfterEnd};
ghost use Rattle.http_out.specs.Text.{interim_text};
ghost use Rattle.pod_io.specs.Writing.{ExtendsBy, Writes};
ghost use Rattle.pod_base.specs.declared.heard.Heard.TheVariants as hears;
ghost use Rattle.pod_base.specs.Counts.{CountIncreased};
ghost use Rattle.pod_core.specs.Session.{IsClockMoment, requests_of};
ghost use Rattle.conn_talk.specs.Agents.{asking_of};
ghost use Rattle.conn_talk.specs.Steps.{IsOver, RefusedAs, refusal_bytes};
ghost use Rattle.conn_talk.specs.Talks.{CountsWrites, MayBeSent, Turns, TurnsIn};

use crate::agents::Agents;
use crate::answers::Answers;
use crate::one_request::{answer_one, clock_moment, flush_before};
use crate::output::Output;
use crate::response_writing::{write_out, write_text};
use crate::setting::Setting;
use crate::talk_end::TalkEnd;
use http_conn::REQUEST_LIMIT;
use http_out::{Out, interim};
use pod_base::{Heard, Mem, Request, Stamp};
use pod_core::{closes_after, refusal_of};
use pod_io::{Clock, Sink};
use std::alloc::Global;

/// A connection: its number, and how many of its requests were answered.
#[derive(Clone, Copy, Debug)]
pub struct Connection {
    pub conn: u64,
    pub number: u64,
}

/// Ends the connection after the event of its last request, by the request's number.
fn end_after(number: u64) -> TalkEnd
    ensures { result ≡ (if number == REQUEST_LIMIT then TalkEnd.Limit else TalkEnd.Closed) }
{
    if number == REQUEST_LIMIT {
        TalkEnd::Limit
    } else {
        TalkEnd::Closed
    }
}

/// The response to the event of a malformed message, at the clock's moment.
fn refusal_out<C: Clock>(alloc: Global, status: u16, clock: &C) -> Mem<Out>
    requires { (200 ≤ status) × (status < 600) }
    ensures { IfOk result (λ out. (moment : ℕ) × IsClockMoment (C.may_give clock.now) moment
        × (out ≡ refusal_bytes status moment)) }
{
    let moment = clock_moment(clock);
    let response = refusal_of(alloc, status)?;
    Ok(Out::new(response, moment, true))
}

/// Refuses the malformed message that is the next event. Nothing is written after that.
fn refuse<K: Output, C: Clock>(alloc: Global, status: u16, output: &mut K, clock: &C) -> TalkEnd
    requires { (200 ≤ status) × (status < 600) }
    ensures refused { RefusedAs (C.may_give clock.now) status result (K.taken output.old)
        (K.taken output.new) }
    ensures no_fewer { K.faults output.old ≤ K.faults output.new }
    ensures failed { result ≡ TalkEnd.WriteFault
        → CountIncreased (K.faults output.old) (K.faults output.new) }
    ensures follows { K.follows output.old output.new }
{
    let Ok(out) = refusal_out(alloc, status, clock) else {
        return TalkEnd::NoMemory;
    };
    match write_out(output, out) {
        Ok(()) => TalkEnd::Bad { status },
        Err(_failed) => TalkEnd::WriteFault,
    }
}

/// Writes `100 Continue` for the event of a request that waits for it.
fn write_continue<K: Output>(output: &mut K) -> Result<(), TalkEnd>
    ensures writes { Writes result interim_text (K.taken output.old) (K.taken output.new) }
    ensures end { IfErr result (λ end. end ≡ TalkEnd.WriteFault) }
    ensures faults { CountsWrites result (K.faults output.old) (K.faults output.new) 0 0 }
    ensures follows { K.follows output.old output.new }
{
    match write_text(output, interim()) {
        Ok(()) => Ok(()),
        Err(_failed) => Err(TalkEnd::WriteFault),
    }
}

impl Connection {
    /// Answers the event of the connection's next request, once nothing that it might wait for is
    /// held back. After the last one, and after a switch of protocols, the connection has ended.
    fn answer_flushed<A: Answers, K: Output, E: Sink, C: Clock>(
        &mut self,
        answers: &mut A,
        request: &Request,
        setting: &Setting<'_, C>,
        output: &mut K,
        errors: &mut E,
    ) -> Result<(), TalkEnd>
        requires ready { A.ready answers.old }
        requires few { self.old.number < REQUEST_LIMIT }
        ensures few { OnOk result (self.new.number < REQUEST_LIMIT) }
        ensures number { OnOk result (self.new.number ≡ self.old.number + 1) }
        ensures conn { self.new.conn ≡ self.old.conn }
        ensures ready { A.ready answers.new }
        ensures turns { (text : List ℕ) × (lines : List ℕ)
            × ExtendsBy text (K.taken output.old) (K.taken output.new)
            × ExtendsBy lines (E.taken errors.old) (E.taken errors.new)
            × Turns (record {
              conn = self.old.conn;
              may_give = C.may_give setting.now.clock.now;
              asking = asking_of setting.now.agents.now;
              trails = setting.now.trail;
              turns = A.turns;
              passes = A.passes;
            }) answers.old self.old.number answers.new self.new.number
            (hears.Request request.now ∷ []) text lines result }
        ensures over { IfErr result (IsOver self.old.number (hears.Request request.now)) }
        ensures faults { CountsWrites result (K.faults output.old) (K.faults output.new)
            (E.faults errors.old) (E.faults errors.new) }
        ensures follows { K.follows output.old output.new }
    {
        let number = self.number + 1;
        let last = closes_after(request, number);
        let moment = clock_moment(setting.clock);
        let stamp = Stamp {
            conn: self.conn,
            number,
            moment,
        };
        match answer_one(answers, request, stamp, setting, output, errors) {
            Ok(upgraded) => {
                self.number = number;
                if upgraded {
                    Err(TalkEnd::Upgraded)
                } else if last {
                    Err(end_after(number))
                } else {
                    Ok(())
                }
            }
            Err(end) => Err(end),
        }
    }

    /// Answers the event of the connection's next request.
    fn answer<A: Answers, K: Output, E: Sink, C: Clock>(
        &mut self,
        answers: &mut A,
        request: &Request,
        setting: &Setting<'_, C>,
        output: &mut K,
        errors: &mut E,
    ) -> Result<(), TalkEnd>
        requires ready { A.ready answers.old }
        requires few { self.old.number < REQUEST_LIMIT }
        ensures few { OnOk result (self.new.number < REQUEST_LIMIT) }
        ensures number { OnOk result (self.new.number ≡ self.old.number + 1) }
        ensures conn { self.new.conn ≡ self.old.conn }
        ensures ready { A.ready answers.new }
        ensures turns { (text : List ℕ) × (lines : List ℕ)
            × ExtendsBy text (K.taken output.old) (K.taken output.new)
            × ExtendsBy lines (E.taken errors.old) (E.taken errors.new)
            × Turns (record {
              conn = self.old.conn;
              may_give = C.may_give setting.now.clock.now;
              asking = asking_of setting.now.agents.now;
              trails = setting.now.trail;
              turns = A.turns;
              passes = A.passes;
            }) answers.old self.old.number answers.new self.new.number
            (hears.Request request.now ∷ []) text lines result }
        ensures over { IfErr result (IsOver self.old.number (hears.Request request.now)) }
        ensures faults { CountsWrites result (K.faults output.old) (K.faults output.new)
            (E.faults errors.old) (E.faults errors.new) }
        ensures follows { K.follows output.old output.new }
    {
        match flush_before(request, output) {
            Ok(()) => self.answer_flushed(answers, request, setting, output, errors),
            Err(end) => Err(end),
        }
    }

    /// Answers one event of the connection, which then continues or has ended.
    fn answer_event<A: Answers, K: Output, E: Sink, C: Clock>(
        &mut self,
        answers: &mut A,
        one: &Heard,
        setting: &Setting<'_, C>,
        output: &mut K,
        errors: &mut E,
    ) -> Result<(), TalkEnd>
        requires ready { A.ready answers.old }
        requires few { self.old.number < REQUEST_LIMIT }
        requires status { MayBeSent one.now }
        ensures few { OnOk result (self.new.number < REQUEST_LIMIT) }
        ensures number { OnOk result (self.new.number
            ≡ self.old.number + length (requests_of (one.now ∷ []))) }
        ensures conn { self.new.conn ≡ self.old.conn }
        ensures ready { A.ready answers.new }
        ensures turns { (text : List ℕ) × (lines : List ℕ)
            × ExtendsBy text (K.taken output.old) (K.taken output.new)
            × ExtendsBy lines (E.taken errors.old) (E.taken errors.new)
            × Turns (record {
              conn = self.old.conn;
              may_give = C.may_give setting.now.clock.now;
              asking = asking_of setting.now.agents.now;
              trails = setting.now.trail;
              turns = A.turns;
              passes = A.passes;
            }) answers.old self.old.number answers.new self.new.number (one.now ∷ []) text lines
            result }
        ensures over { IfErr result (IsOver self.old.number one.now) }
        ensures faults { CountsWrites result (K.faults output.old) (K.faults output.new)
            (E.faults errors.old) (E.faults errors.new) }
        ensures follows { K.follows output.old output.new }
    {
        match one {
            Heard::Request(request) => self.answer(answers, request, setting, output, errors),
            Heard::Interim => write_continue(output),
            Heard::Bad(status) => Err(refuse(setting.alloc, *status, output, setting.clock)),
        }
    }

    /// Answers the events of the connection in order, until it ends, and writes the responses to
    /// the output. Where the trail is enabled, the error sink gets a line for each answered
    /// request. Whatever the output holds back is flushed before a change is answered.
    ///
    /// # Errors
    ///
    /// How the connection ended. Nothing may be answered on it afterwards.
    pub fn answer_events<A: Answers, K: Output, E: Sink, C: Clock>(
        &mut self,
        alloc: Global,
        answers: &mut A,
        heard: &[Heard],
        agents: &Agents,
        trail: bool,
        output: &mut K,
        errors: &mut E,
        clock: &C,
    ) -> Result<(), TalkEnd>
        requires ready { A.ready answers.old }
        requires few { self.old.number < REQUEST_LIMIT }
        requires ends { NothingAfterEnd self.old.number heard.now }
        requires statuses { AllByRecursion MayBeSent heard.now }
        ensures few { OnOk result (self.new.number < REQUEST_LIMIT) }
        ensures conn { self.new.conn ≡ self.old.conn }
        ensures ready { A.ready answers.new }

        // Each request that was answered is one item more; what was written is the output of the
        // items, or a prefix of it where a write failed.
        ensures turns { (text : List ℕ) × (lines : List ℕ)
            × ExtendsBy text (K.taken output.old) (K.taken output.new)
            × ExtendsBy lines (E.taken errors.old) (E.taken errors.new)
            × TurnsIn (record {
              conn = self.old.conn;
              may_give = C.may_give clock.now;
              asking = asking_of agents.now;
              trails = trail;
              turns = A.turns;
              passes = A.passes;
            }) answers.old self.old.number answers.new self.new.number heard.now text lines
            result }

        // A write fault is returned only where a count increased.
        ensures faults { CountsWrites result (K.faults output.old) (K.faults output.new)
            (E.faults errors.old) (E.faults errors.new) }
        ensures follows { K.follows output.old output.new }
    {
        let setting = Setting {
            alloc,
            agents,
            trail,
            clock,
        };
        let mut rest = heard;
        while let Some((one, more)) = rest.split_first() {
            match self.answer_event(answers, one, &setting, output, errors) {
                Ok(()) => rest = more,
                Err(end) => return Err(end),
            }
        }
        Ok(())
    }
}
