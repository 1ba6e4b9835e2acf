//! What the lock of a store protects.
ghost use Rattle.std.specs.Prelude.{◌≡◌, ◌<◌, ◌+◌, ◌-◌, ◌^◌, ◌++◌, ◌∷◌, [], IsErrOf, IfOk, IfSome, Some};
ghost use Rattle.std.specs.Prelude.{IsSome, IsTrue, OnOk, OnErr, length, sum_by};
ghost use Rattle.std.specs.Option.{option_to_list};
ghost use mathlib.Core.List.{IsPrefix};
ghost use Rattle.pod_command.specs.Bare.{bare_entry};
ghost use Rattle.pod_keeper.specs.Plans.{IsPlannedAt, planned_entry};
ghost use Rattle.reply_laws.specs.Granted.{is_change};
ghost use Rattle.reply_laws.specs.Laws.{IsNoFailure};
ghost use Rattle.reply_laws.specs.Sent.{IsSent};
ghost use Rattle.token_table.specs.Credentials.{asked_view};
ghost use Rattle.pod_live.specs.Locks.{Decided, IsPlannedHere, PlansEntry};
ghost use Rattle.pod_live.specs.Visits.{FaultedAt, IsFaulted};

use crate::published_version::{CommittedEntry, PodTold, Shown};
use crate::session::{Seat, Session};
use crate::store_names::{Changes, Faults, KeeperName, StoreName};
use pod_base::{Mem, NoMemory, Request, Stamp};
use pod_core::Answer;
use pod_disk::Disk;
use pod_keeper::{CommitFault, Keeper, Plan, Planned};
use published_view::{KeptTwice, Publisher, VersionWithList, ViewName};
use std::alloc::Global;
use std::marker::Model;
use std::sync::Wait;
use std::sync::ledger::{Book, Share};
use token_table::Asked;

/// What the lock protects: the keeper, the publisher, and the two ledgers.
pub struct Locked<N: ViewName<V::Item> + StoreName + KeeperName<D>, D: Disk, V: PodTold = Shown<N>>
where
    VersionWithList<V, N>: KeptTwice,
{
    pub(crate) keeper: Keeper<D>,
    pub(crate) publisher: Publisher<V, N>,
    pub(crate) changes: Book<Changes<N>>,
    pub(crate) faults: Book<Faults<N>>,
    // Shares of no part, from which others are made.
    pub(crate) no_change: Share<Changes<N>>,
    pub(crate) no_fault: Share<Faults<N>>,
}

impl<N: ViewName<V::Item> + StoreName + KeeperName<D>, D: Disk, V: PodTold> Model
    for Locked<N, D, V>
where
    VersionWithList<V, N>: KeptTwice,
{
    ghost use Rattle.std.specs.Prelude.{◌≡◌};
    ghost use Rattle.pod_live.specs.Locks.{LockState, IsBooked};
    ghost use Rattle.pod_live.specs.Takes.{TookChanges};

    ghost Value = { LockState D };

    ghost view = { λ l. record {
      keeper = l.keeper;
      list = V.entries l.publisher.list;
      changes = l.changes.total;
      faults = l.faults.total;
    } };

    ghost invariant = { λ l.
        IsBooked D.image D.faults N.kept N.safe N.opened (V.entries N.opening) N.counted (record {
          keeper = l.keeper;
          list = V.entries l.publisher.list;
          changes = l.changes.total;
          faults = l.faults.total;
        }) × (l.no_change.parts ≡ 0) × (l.no_change.amount ≡ 0) × (l.no_fault.parts ≡ 0)
        × (l.no_fault.amount ≡ 0) × TookChanges D.image D.moment D.left_since N.began
        (V.entries l.publisher.list) l.faults.total l.keeper };
}

impl<N: ViewName<CommittedEntry> + StoreName + KeeperName<D>, D: Disk> Locked<N, D> {
    /// Makes the entry of a change durable in the locked store, publishes it, and counts it; or
    /// counts a fault.
    fn enter<R: Wait>(
        &mut self,
        rt: &R,
        alloc: Global,
        request: &Request,
        asked: &Asked<'_>,
        stamp: Stamp,
        planned: Planned,
        of_changes: &mut Share<Changes<N>>,
        of_faults: &mut Share<Faults<N>>,
    ) -> Result<(), CommitFault>
        requires parts { (0 < of_changes.old.parts) × (0 < of_faults.old.parts) }
        requires planned { IsPlannedAt self.old.keeper planned }
        requires plans { PlansEntry D.image self.old.keeper request.now (asked_view asked.now) stamp
            (Some (bare_entry planned.entry)) }
        ensures list { OnOk result
            (self.new.list ≡ self.old.list ++ bare_entry planned.entry ∷ []) }
        ensures amount { OnOk result (of_changes.new.amount ≡ of_changes.old.amount + 1) }
        ensures list_stays { OnErr result (self.new.list ≡ self.old.list) }
        ensures amount_stays { OnErr result (of_changes.new.amount ≡ of_changes.old.amount) }
        ensures parts { of_changes.new.parts ≡ of_changes.old.parts }
        ensures fault_parts { of_faults.new.parts ≡ of_faults.old.parts }
        ensures fault { IsErrOf result CommitFault.DiskFault
            → of_faults.new.amount ≡ of_faults.old.amount + 1 }
        ensures memory { IsErrOf result CommitFault.NoMemory
            → of_faults.new.amount ≡ of_faults.old.amount }
        ensures no_fault { OnOk result (of_faults.new.amount ≡ of_faults.old.amount) }
    {
        let Ok(shown) = Shown::<N>::of(alloc, &planned.version) else {
            return Err(CommitFault::NoMemory);
        };
        let Locked {
            keeper,
            publisher,
            changes,
            faults,
            no_change: _,
            no_fault: _,
        } = self;
        publisher.prepare(shown);
        let Ok(entry) = keeper.write_planned(planned) else {
            faults.add(of_faults, 1);
            return Err(CommitFault::DiskFault);
        };
        let entry = CommittedEntry { entry };
        publisher.publish(rt, &entry);
        changes.add(of_changes, 1);
        Ok(())
    }

    /// Makes the planned entry durable in the locked store, where there is one, and counts it or a
    /// fault on the session's shares.
    fn carry_out<R: Wait>(
        &mut self,
        rt: &R,
        alloc: Global,
        session: &mut Session<N>,
        request: &Request,
        asked: &Asked<'_>,
        stamp: Stamp,
        next: Option<Planned>,
    ) -> Result<(), CommitFault>
        requires changes { session.old.changes < 2 ^ 64 - 1 }
        requires faults { session.old.faults < 2 ^ 64 - 1 }
        requires planned { IfSome next (IsPlannedAt self.old.keeper) }
        requires plans { PlansEntry D.image self.old.keeper request.now (asked_view asked.now) stamp
            (planned_entry next) }
        ensures list { OnOk result
            (self.new.list ≡ self.old.list ++ option_to_list (planned_entry next)) }
        ensures session { OnOk result (session.new ≡ record session.old {
          changes = session.old.changes + length (option_to_list (planned_entry next));
        }) }
        ensures fault { IsErrOf result CommitFault.DiskFault → IsFaulted session.old session.new }
        ensures entry { IsErrOf result CommitFault.DiskFault → IsSome (planned_entry next) }
        ensures memory { IsErrOf result CommitFault.NoMemory → session.new ≡ session.old }
    {
        let Some(planned) = next else {
            return Ok(());
        };
        match self.enter(
            rt,
            alloc,
            request,
            asked,
            stamp,
            planned,
            &mut session.of_changes,
            &mut session.of_faults,
        ) {
            Ok(()) => {
                session.changes += 1;
                Ok(())
            }
            Err(CommitFault::DiskFault) => {
                session.faults += 1;
                Err(CommitFault::DiskFault)
            }
            Err(CommitFault::NoMemory) => Err(CommitFault::NoMemory),
        }
    }

    /// Shows the session what the locked store has published.
    fn learn_published(&self, session: &mut Session<N>)
        ensures told { IsPrefix self.now.list session.new.told }
        ensures rest { record session.new { told = session.old.told } ≡ session.old }
    {
        session.looker.learn(self.publisher.tell());
    }

    /// Answers a change at the locked store, and counts it on the session's shares. The session
    /// learns what is then published.
    pub(crate) fn decide<R: Wait>(
        &mut self,
        rt: &R,
        alloc: Global,
        session: &mut Session<N>,
        request: &Request,
        asked: &Asked<'_>,
        stamp: Stamp,
    ) -> Result<Answer, CommitFault>
        requires seen { IsPrefix session.old.seen self.old.list }
        requires change { IsTrue (is_change request.now.method) }
        ensures decided { IfOk result (λ done. Decided N.kept N.opened.next session.old request.now
            (asked_view asked.now) stamp done.response done.place done.moment.0 session.new) }
        ensures sent { IfOk result (λ done. IsSent done.response) }
        ensures status { IfOk result (λ done. IsNoFailure done.response.status) }
        ensures fault { IsErrOf result CommitFault.DiskFault → IsFaulted session.old session.new }
        ensures fault_at { IsErrOf result CommitFault.DiskFault → FaultedAt N.kept session.old.seen
            request.now (asked_view asked.now) stamp }
        ensures memory { IsErrOf result CommitFault.NoMemory → session.new ≡ session.old }
    {
        if session.changes == u64::MAX || session.faults == u64::MAX {
            return Err(CommitFault::NoMemory);
        }
        let Ok(plan) = self.plan_here(alloc, request, asked, stamp) else {
            return Err(CommitFault::NoMemory);
        };
        let Plan { answer, next } = plan;
        match self.carry_out(rt, alloc, session, request, asked, stamp, next) {
            Ok(()) => {
                self.learn_published(session);
                Ok(answer)
            }
            Err(CommitFault::DiskFault) => Err(CommitFault::DiskFault),
            Err(CommitFault::NoMemory) => Err(CommitFault::NoMemory),
        }
    }

    /// Plans a change at the locked store.
    fn plan_here(
        &self,
        alloc: Global,
        request: &Request,
        asked: &Asked<'_>,
        stamp: Stamp,
    ) -> Mem<Plan>
        requires { IsTrue (is_change request.now.method) }
        ensures { IfOk result (λ plan. IsPlannedHere D.image N.kept N.opened.next self.now.list
            self.now.keeper request.now (asked_view asked.now) stamp plan) }
    {
        match self.keeper.plan(alloc, request, asked, stamp) {
            Ok(plan) => Ok(plan),
            Err(NoMemory) => Err(NoMemory),
        }
    }

    /// Audits the locked store's counts of changes and faults, for which the shares of these seats
    /// are lent to two that then have every part, and returned.
    pub(crate) fn audit<X: Drop>(
        &mut self,
        seats: &mut [Seat<X, N>],
        of_changes: &mut Share<Changes<N>>,
        of_faults: &mut Share<Faults<N>>,
    )
        requires changes { of_changes.old.parts + length seats.old ≡ N.parts }
        requires faults { of_faults.old.parts + length seats.old ≡ N.parts }
        requires changes_backed { of_changes.old.parts ≡ 0 → of_changes.old.amount ≡ 0 }
        requires faults_backed { of_faults.old.parts ≡ 0 → of_faults.old.amount ≡ 0 }
        ensures changes { self.new.changes ≡ of_changes.old.amount
            + sum_by (λ s. s.session.changes) seats.old }
        ensures faults { self.new.faults ≡ of_faults.old.amount
            + sum_by (λ s. s.session.faults) seats.old }
        ensures same { self.new ≡ self.old }
        ensures change_parts { of_changes.new.parts ≡ of_changes.old.parts }
        ensures change_amount { of_changes.new.amount ≡ of_changes.old.amount }
        ensures fault_parts { of_faults.new.parts ≡ of_faults.old.parts }
        ensures fault_amount { of_faults.new.amount ≡ of_faults.old.amount }
        ensures seats { seats.new ≡ seats.old }
    {
        let Some((first, rest)) = seats.split_first_mut() else {
            self.changes.audit(of_changes);
            self.faults.audit(of_faults);
            return;
        };
        let session = &mut first.session;
        session.of_changes.give(of_changes, 1, session.changes);
        session.of_faults.give(of_faults, 1, session.faults);
        self.audit(rest, of_changes, of_faults);
        of_changes.give(&mut session.of_changes, 1, session.changes);
        of_faults.give(&mut session.of_faults, 1, session.faults);
    }
}
