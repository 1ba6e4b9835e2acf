//! [`Answers`]: what answers the requests of one connection.
ghost use Rattle.std.specs.Prelude.{ℕ, IfOk};
ghost use Rattle.pod_base.specs.declared.request.Request.{Request};
ghost use Rattle.pod_core.specs.Session.{Item};
ghost use Rattle.reply_laws.specs.Sent.{IsSent};
ghost use Rattle.token_table.specs.Credentials.{asked_view};
ghost use Rattle.conn_talk.specs.Turns.{CameTo};

use pod_base::{Request, Stamp};
use pod_core::Answer;
use std::alloc::Global;
use token_table::Asked;

/// Why a request wasn't answered.
#[derive(Clone, Copy, Debug, PartialEq, Eq)]
pub enum AnswerFault {
    NoMemory,
    /// A call of a disk failed at a change.
    DiskFault,
    /// The request found no place: it has no item, and nothing is written for it.
    NoPlace,
}

/// What answers the requests of one connection, one after the other.
pub trait Answers {
    /// It can answer a request.
    ghost ready: { Self → Type 0 };

    /// What an item says of it, before and after the request, on the connection of that number and
    /// at that moment of the clock.
    ghost turns: { (conn clock : ℕ) → Self → Item → Self → Type 0 };

    /// What a request that found no place says of it, before and after.
    ghost passes: { Request → Self → Self → Type 0 };

    /// Answers a request of the connection, at the stamp's moment.
    ///
    /// # Errors
    ///
    /// After `NoMemory` and `DiskFault` the request has an item too. It has none after `NoPlace`.
    fn answer(
        &mut self,
        alloc: Global,
        request: &Request,
        asked: &Asked<'_>,
        stamp: Stamp,
    ) -> Result<Answer, AnswerFault>
        requires { ready self.old }
        ensures turned { CameTo (λ item. turns stamp.conn stamp.moment.0 self.old item self.new)
            (passes request.now self.old self.new) request.now (asked_view asked.now) stamp
            result }

        // The response can be written.
        ensures sent { IfOk result (λ answer. IsSent answer.response) }
        ensures ready { ready self.new };
}
