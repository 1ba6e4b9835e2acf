//! [`StoreAnswers`]: a session of a store, as what answers the requests of a connection.
ghost use Rattle.std.specs.Prelude.{◌≡◌, false, IfOk, IsTrue};
ghost use Rattle.conn_talk.specs.Turns.{CameTo};
ghost use Rattle.reply_laws.specs.Granted.{is_change};
ghost use Rattle.reply_laws.specs.Sent.{IsSent};
ghost use Rattle.token_table.specs.Credentials.{asked_view};
ghost use Rattle.pod_serve.specs.Serving.{FoundNoPlace, SessionTurn};

use crate::upgrade::{Upgrade, upgrade_in};
use conn_talk::{AnswerFault, Answers};
use pod_base::{Request, Stamp};
use pod_core::{Answer, is_change};
use pod_live::{CommitFault, CommittedEntry, Rounds, Session, StoreName};
use published_view::{ViewFault, ViewName};
use std::alloc::Global;
use std::sync::Wait;
use token_table::Asked;

/// Answers a connection's read from the store, by what is published.
fn answer_read<N: ViewName<CommittedEntry> + StoreName>(
    alloc: Global,
    session: &mut Session<N>,
    request: &Request,
    asked: &Asked<'_>,
    stamp: Stamp,
) -> Result<Answer, AnswerFault>
    requires { is_change request.now.method ≡ false }
    ensures turned { CameTo (λ item. SessionTurn N.kept N.opened.next stamp.conn stamp.moment.0
        session.old item session.new) (FoundNoPlace request.now session.old session.new) request.now
        (asked_view asked.now) stamp result }
    ensures sent { IfOk result (λ answer. IsSent answer.response) }
{
    match session.read(alloc, request, asked, stamp) {
        Ok(answer) => Ok(answer),
        Err(ViewFault::NoMemory) => Err(AnswerFault::NoMemory),
        Err(ViewFault::NoPlace) => Err(AnswerFault::NoPlace),
    }
}

/// Answers a connection's change from the store, under its lock.
fn answer_change<N: ViewName<CommittedEntry> + StoreName, L: Rounds<N>, R: Wait>(
    rt: &R,
    alloc: Global,
    live: &L,
    session: &mut Session<N>,
    request: &Request,
    asked: &Asked<'_>,
    stamp: Stamp,
) -> Result<Answer, AnswerFault>
    requires { IsTrue (is_change request.now.method) }
    ensures turned { CameTo (λ item. SessionTurn N.kept N.opened.next stamp.conn stamp.moment.0
        session.old item session.new) (FoundNoPlace request.now session.old session.new) request.now
        (asked_view asked.now) stamp result }
    ensures sent { IfOk result (λ answer. IsSent answer.response) }
{
    match live.commit(rt, alloc, session, request, asked, stamp) {
        Ok(answer) => Ok(answer),
        Err(CommitFault::NoMemory) => Err(AnswerFault::NoMemory),
        Err(CommitFault::DiskFault) => Err(AnswerFault::DiskFault),
    }
}

/// Answers a connection's request from the store.
fn answer_request<N: ViewName<CommittedEntry> + StoreName, L: Rounds<N>, R: Wait>(
    rt: &R,
    alloc: Global,
    live: &L,
    session: &mut Session<N>,
    request: &Request,
    asked: &Asked<'_>,
    stamp: Stamp,
) -> Result<Answer, AnswerFault>
    ensures turned { CameTo (λ item. SessionTurn N.kept N.opened.next stamp.conn stamp.moment.0
        session.old item session.new) (FoundNoPlace request.now session.old session.new) request.now
        (asked_view asked.now) stamp result }
    ensures sent { IfOk result (λ answer. IsSent answer.response) }
{
    if is_change(request.method) {
        answer_change(rt, alloc, live, session, request, asked, stamp)
    } else {
        answer_read(alloc, session, request, asked, stamp)
    }
}

/// A session of a store, by reference, as what answers the requests of one connection. It notes what
/// its last answer switched to.
#[derive(Drop)]
pub(crate) struct StoreAnswers<'a, N: ViewName<CommittedEntry> + StoreName, L, R> {
    rt: &'a R,
    live: &'a L,
    session: &'a mut Session<N>,
    upgrade: &'a mut Option<Upgrade>,
}

impl<'a, N: ViewName<CommittedEntry> + StoreName, L: Rounds<N>, R: Wait> StoreAnswers<'a, N, L, R> {
    /// Answers a connection's requests from the store, by that session. What the last answer
    /// switched to is noted in `upgrade`.
    pub(crate) fn new(
        rt: &'a R,
        live: &'a L,
        session: &'a mut Session<N>,
        upgrade: &'a mut Option<Upgrade>,
    ) -> StoreAnswers<'a, N, L, R>
        ensures same { result.session.ghost_name ≡ session.entry.ghost_name }
        ensures session { result.session.now ≡ session.entry.now }
        ensures marked { result.upgrade.ghost_name ≡ upgrade.entry.ghost_name }
    {
        StoreAnswers {
            rt,
            live,
            session,
            upgrade,
        }
    }
}

impl<'a, N: ViewName<CommittedEntry> + StoreName, L: Rounds<N>, R: Wait> Answers
    for StoreAnswers<'a, N, L, R> {
    ghost use Rattle.std.specs.Prelude.{◌≡◌};
    ghost use Rattle.pod_serve.specs.Serving.{FoundNoPlace, SessionTurn};
    ghost use Rattle.pod_serve.specs.Upgrades.{Notes};

    ghost ready = { λ seated. Unit {0} };

    ghost turns = { λ conn clock old item new.
        (old.session.ghost_name ≡ new.session.ghost_name)
        × (old.upgrade.ghost_name ≡ new.upgrade.ghost_name)
        × SessionTurn N.kept N.opened.next conn clock old.session.now item new.session.now
        × Notes N.opened.pod.base item new.upgrade.now };

    ghost passes = { λ request old new. (old.session.ghost_name ≡ new.session.ghost_name)
        × (old.upgrade.ghost_name ≡ new.upgrade.ghost_name)
        × FoundNoPlace request old.session.now new.session.now };

    fn answer(
        &mut self,
        alloc: Global,
        request: &Request,
        asked: &Asked<'_>,
        stamp: Stamp,
    ) -> Result<Answer, AnswerFault> {
        let answer = answer_request(
            self.rt,
            alloc,
            self.live,
            self.session,
            request,
            asked,
            stamp,
        );
        *self.upgrade = upgrade_in(alloc, self.session.base(), request, asked, &answer);
        answer
    }
}
