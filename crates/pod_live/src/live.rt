//! [`Live`]: a store under a lock, with a session for each of those who use it.
ghost use Rattle.std.specs.Prelude.{◌≡◌, ◌+◌, ◌<◌, ◌≤◌, [], All, List as ListOf, ℕ, length, sum_by};
ghost use Rattle.std.specs.Prelude.{IfOk, IfErr, IfSome, IfNone, IsErrOf, IsTrue};
ghost use Rattle.std.specs.Arc.{arc_value};
ghost use mathlib.Core.List.{IsPrefix};
ghost use Rattle.pod_base.specs.EachTo.{EachTo};
ghost use Rattle.pod_command.specs.declared.entry.Entry.{Entry};
ghost use Rattle.pod_core.specs.History.{History, longer};
ghost use Rattle.pod_keeper.specs.Kept.{StandsForSome};
ghost use Rattle.pod_keeper.specs.KeeperState.{KeeperState, version_in};
ghost use Rattle.published_view.specs.LookerState.{CountIncreasedByOne, IsNewLooker};
ghost use Rattle.published_view.specs.declared.fault.ViewFault.TheVariants as ViewFault;
ghost use Rattle.reply_laws.specs.Granted.{is_change};
ghost use Rattle.reply_laws.specs.Laws.{IsNoFailure};
ghost use Rattle.reply_laws.specs.Sent.{IsSent};
ghost use Rattle.token_table.specs.Credentials.{asked_view};
ghost use Rattle.pod_live.specs.Locks.{Decided};
ghost use Rattle.pod_live.specs.Stores.{Covers, IsSafe, KeptSome};
ghost use Rattle.pod_live.specs.Takes.{TakenItem, Took, TookChanges};
ghost use Rattle.pod_live.specs.Visits.{Changed, FaultedAt, IsFaulted, IsNewVisit, Meets};

use crate::locked_store::Locked;
use crate::published_version::{CommittedEntry, PodTold, Shown};
use crate::session::{Seat, Session};
use crate::store_names::{Changes, Faults, KeeperName, Names, StoreName};
use pod_base::{List, Mem, NoMemory, Request, Response, Stamp};
use pod_core::Answer;
use pod_disk::Disk;
use pod_keeper::{CommitFault, Keeper, Version};
use pod_rows::PodState;
use published_view::{
    Front, KeptTwice, Looker, Places, Publisher, READERS_LIMIT, VersionWithList, ViewFault,
    ViewName, open_view,
};
use rdf_graph::copy_iri;
use std::alloc::Global;
use std::sync::ledger::{Book, Share};
use std::sync::{Arc, Mutex, MutexGuard, Wait};
use token_table::Asked;

/// A store under a lock: its keeper, and the publisher of the keeper's versions.
pub struct Live<N: ViewName<V::Item> + StoreName + KeeperName<D>, D: Disk, V: PodTold = Shown<N>>
where
    VersionWithList<V, N>: KeptTwice,
{
    locked: Mutex<Locked<N, D, V>>,
}

/// Why the versions of a keeper aren't published. It returns the keeper.
#[derive(Drop)]
pub struct NotLive<D: Disk> {
    pub fault: ViewFault,
    pub keeper: Keeper<D>,
}

/// The calls by which many sessions are served. They name no disk, so that threads over the
/// sessions of one store can be given it.
pub trait Rounds<N: ViewName<CommittedEntry> + StoreName> {
    /// The changes that were carried to the disks since the store was opened, in the order of the
    /// lock, may be these: one after the other they are steps of the store's keeper.
    ghost takes: { ListOf TakenItem → Type 0 };

    /// Commits a change of a session to the live store: answers it under the lock, makes its entry
    /// durable, where it has one, publishes the version after it, and makes one look. A look that
    /// is refused is made again; one that is out of memory counts.
    ///
    /// # Errors
    ///
    /// After both no look was made, and the pod is as before. `DiskFault` takes one share of the
    /// faults that the disks counted. `NoMemory` comes before the first call of a disk.
    fn commit<R: Wait>(
        &self,
        rt: &R,
        alloc: Global,
        session: &mut Session<N>,
        request: &Request,
        asked: &Asked<'_>,
        stamp: Stamp,
    ) -> Result<Answer, CommitFault>
        requires { IsTrue (is_change request.now.method) }
        ensures changed { IfOk result (λ done. Changed N.kept N.opened.next session.old request.now
            (asked_view asked.now) stamp done.response done.place done.moment.0 session.new) }
        ensures sent { IfOk result (λ done. IsSent done.response) }
        ensures status { IfOk result (λ done. IsNoFailure done.response.status) }
        ensures fault { IsErrOf result CommitFault.DiskFault → IsFaulted session.old session.new }
        ensures fault_at { IsErrOf result CommitFault.DiskFault → FaultedAt N.kept session.old.seen
            request.now (asked_view asked.now) stamp }
        ensures memory { IsErrOf result CommitFault.NoMemory → session.new ≡ session.old };

    /// Shows all sessions of the live store the one list, which has grown by the sum of their
    /// changes. The seats hold all sessions.
    fn gather<X: Drop, R: Wait>(&self, rt: &R, seats: &mut [Seat<X, N>])
        requires all { length seats.old ≡ N.parts }
        ensures one_list { (list : ListOf Entry) × IsPrefix N.opening list
            × (length list ≡ length N.opening + sum_by (λ s. s.session.changes) seats.old)
            × EachTo (λ old new. Meets list old.session new.session × (new.rest ≡ old.rest))
            seats.old seats.new
            × Took takes list (sum_by (λ s. s.session.faults) seats.old) };
}

/// The version of a keeper, which the live store was opened with.
fn opened_version<N: StoreName, D: Disk>(keeper: &Keeper<D>) -> &Arc<Version>
    requires { version_in keeper.now ≡ N.opened }
    ensures { arc_value result.now ≡ N.opened }
{
    keeper.version()
}

/// Makes the live store's sessions, one for each looker, with a part of each ledger.
fn sessions_of<N: ViewName<CommittedEntry> + StoreName>(
    alloc: Global,
    opened: &Arc<Version>,
    lookers: List<Looker<Shown<N>, N>>,
    of_changes: Share<Changes<N>>,
    of_faults: Share<Faults<N>>,
) -> Mem<List<Session<N>>>
    requires opened { arc_value opened.now ≡ N.opened }
    requires opening { N.opening ≡ [] }
    requires parts { (of_changes.parts ≡ length lookers.items)
        × (of_faults.parts ≡ length lookers.items) }
    requires amounts { (of_changes.amount ≡ 0) × (of_faults.amount ≡ 0) }
    requires lookers { All (IsNewLooker N.opening) lookers.items }
    ensures sessions { IfOk result (λ sessions. length sessions.items ≡ length lookers.items) }
    ensures new { IfOk result (λ sessions. All (IsNewVisit N.opening) sessions.items) }
{
    let mut lookers = lookers;
    let mut of_changes = of_changes;
    let mut of_faults = of_faults;
    let mut sessions = List::new(alloc);
    while let Some(looker) = lookers.pop() {
        let base = copy_iri(alloc, opened.base())?;
        let session = Session::of(
            looker,
            opened.next(),
            base,
            of_changes.split_off(1, 0),
            of_faults.split_off(1, 0),
        );
        if sessions.push(alloc, session).is_err() {
            return Err(NoMemory);
        }
    }
    Ok(sessions)
}

/// Has each session of the live store see just this front, which nobody adds to meanwhile.
fn meet_all<X: Drop, N: ViewName<CommittedEntry> + StoreName, R: Wait>(
    rt: &R,
    front: &Front<CommittedEntry, N>,
    seats: &mut [Seat<X, N>],
)
    ensures { EachTo (λ old new. Meets front.now old.session new.session × (new.rest ≡ old.rest))
        seats.old seats.new }
{
    if let Some((first, rest)) = seats.split_first_mut() {
        first.session.meet(rt, front);
        meet_all(rt, front, rest);
    }
}

/// What the lock protects of a live store that was just opened.
fn opened_lock<N: ViewName<CommittedEntry> + StoreName + KeeperName<D>, D: Disk>(
    keeper: Keeper<D>,
    publisher: Publisher<Shown<N>, N>,
    changes: Book<Changes<N>>,
    faults: Book<Faults<N>>,
    no_change: Share<Changes<N>>,
    no_fault: Share<Faults<N>>,
) -> Locked<N, D>
    requires list { (publisher.list ≡ []) × (N.opening ≡ []) }
    requires opened { version_in keeper ≡ N.opened }
    requires kept { (history : History) → N.kept history → KeptSome D.image keeper history }
    requires stands { StandsForSome D.image keeper }
    requires safe { N.safe → IsSafe D.image keeper }
    requires began { (old : KeeperState D) → N.began old → keeper ≡ old }
    requires counted { N.counted ≡ D.faults keeper.first + D.faults keeper.second }
    requires totals { (changes.total ≡ 0) × (faults.total ≡ 0) }
    requires no_changes { (no_change.parts ≡ 0) × (no_change.amount ≡ 0) }
    requires no_faults { (no_fault.parts ≡ 0) × (no_fault.amount ≡ 0) }
    ensures { result.list ≡ [] }
{
    Locked {
        keeper,
        publisher,
        changes,
        faults,
        no_change,
        no_fault,
    }
}

impl<N: ViewName<CommittedEntry> + StoreName + KeeperName<D>, D: Disk> Live<N, D> {
    /// Opens a live store of a keeper, whose version it publishes for so many sessions, 1 to 64.
    ///
    /// # Errors
    ///
    /// A refusal returns the keeper as it was. `NoPlace` comes only where the count of `places`
    /// increased.
    pub fn new<R: Wait>(
        rt: &R,
        alloc: Global,
        keeper: Keeper<D>,
        names: Names,
        readers: usize,
        places: &mut Places,
    ) -> Result<(Live<N, D>, List<Session<N>>), NotLive<D>>
        requires names { (names.list ≡ N.book) × (names.changes.name ≡ N.changes)
            × (names.faults.name ≡ N.faults) }
        requires parts { (names.changes.parts ≡ N.parts) × (names.faults.parts ≡ N.parts)
            × (N.parts ≡ readers) }
        requires opening { N.opening ≡ [] }
        requires opened { version_in keeper ≡ N.opened }
        requires kept { (history : History) → N.kept history → KeptSome D.image keeper history }
        requires stands { StandsForSome D.image keeper }
        requires safe { N.safe → IsSafe D.image keeper }
        requires began { (old : KeeperState D) → N.began old → keeper ≡ old }
        requires counted { N.counted ≡ D.faults keeper.first + D.faults keeper.second }
        requires readers { (0 < readers) × (readers ≤ READERS_LIMIT) }
        ensures sessions { IfOk result (λ live. length live.1.items ≡ N.parts) }
        ensures new { IfOk result (λ live. All (IsNewVisit N.opening) live.1.items) }
        ensures place { IfErr result (λ refused. refused.fault ≡ ViewFault.NoPlace
            → CountIncreasedByOne places.old places.new) }
        ensures refused { IfErr result (λ refused. refused.keeper ≡ keeper) }
    {
        let opened = opened_version::<N, D>(&keeper);
        let Ok(shown) = Shown::<N>::of(alloc, opened) else {
            return Err(NotLive {
                fault: ViewFault::NoMemory,
                keeper,
            });
        };
        let Names {
            list,
            changes,
            faults,
        } = names;
        match open_view::<Shown<N>, N, R>(rt, alloc, list, shown, readers, places) {
            Ok((publisher, lookers)) => {
                let (changes, mut all_changes) = changes.open::<Changes<N>>();
                let (faults, mut all_faults) = faults.open::<Faults<N>>();
                let no_change = all_changes.empty();
                let no_fault = all_faults.empty();
                let opened = opened_version::<N, D>(&keeper);
                match sessions_of(alloc, opened, lookers, all_changes, all_faults) {
                    Ok(sessions) => {
                        let locked = Mutex::new(opened_lock(
                            keeper, publisher, changes, faults, no_change, no_fault,
                        ));
                        Ok((Live { locked }, sessions))
                    }
                    Err(_) => {
                        let _ = publisher.close(rt);
                        Err(NotLive {
                            fault: ViewFault::NoMemory,
                            keeper,
                        })
                    }
                }
            }
            Err(fault) => Err(NotLive { fault, keeper }),
        }
    }

    /// Answers a change to the live store, as [`Rounds::commit`], and returns its response alone.
    pub fn change<R: Wait>(
        &self,
        rt: &R,
        alloc: Global,
        session: &mut Session<N>,
        request: &Request,
        asked: &Asked<'_>,
        stamp: Stamp,
    ) -> Result<Response, CommitFault>
        requires { IsTrue (is_change request.now.method) }
        ensures changed { IfOk result (λ response. (place : ℕ) × (moment : ℕ)
            × Changed N.kept N.opened.next session.old request.now (asked_view asked.now) stamp
            response place moment session.new) }
        ensures sent { IfOk result IsSent }
        ensures status { IfOk result (λ response. IsNoFailure response.status) }
        ensures fault { IsErrOf result CommitFault.DiskFault → IsFaulted session.old session.new }
        ensures fault_at { IsErrOf result CommitFault.DiskFault → FaultedAt N.kept session.old.seen
            request.now (asked_view asked.now) stamp }
        ensures memory { IsErrOf result CommitFault.NoMemory → session.new ≡ session.old }
    {
        match self.commit(rt, alloc, session, request, asked, stamp) {
            Ok(placed) => Ok(placed.response),
            Err(CommitFault::DiskFault) => Err(CommitFault::DiskFault),
            Err(CommitFault::NoMemory) => Err(CommitFault::NoMemory),
        }
    }

    /// Closes the live store, shows all sessions the one list, and returns the keeper. The seats
    /// hold all sessions.
    pub fn close<X: Drop, R: Wait>(self, rt: &R, seats: &mut [Seat<X, N>]) -> Keeper<D>
        requires all { length seats.old ≡ N.parts }
        ensures one_list { (list : ListOf Entry) × IsPrefix N.opening list
            × ((history : History) → N.kept history
            → KeptSome D.image result (longer history list))
            × (length list ≡ length N.opening + sum_by (λ s. s.session.changes) seats.old)
            × EachTo (λ old new. Meets list old.session new.session × (new.rest ≡ old.rest))
            seats.old seats.new
            × TookChanges D.image D.moment D.left_since N.began list
            (sum_by (λ s. s.session.faults) seats.old) result }
        ensures stands { StandsForSome D.image result }
        ensures safe { N.safe → IsSafe D.image result }
        ensures faults { Covers N.counted (sum_by (λ s. s.session.faults) seats.old)
            (D.faults result.first) (D.faults result.second) }
    {
        let Live { locked } = self;
        let mut locked = locked.into_inner();
        let mut of_changes = locked.no_change.empty();
        let mut of_faults = locked.no_fault.empty();
        locked.audit(seats, &mut of_changes, &mut of_faults);
        let front = locked.publisher.tell();
        meet_all(rt, &front, seats);
        let Locked {
            keeper,
            publisher,
            changes: _,
            faults: _,
            no_change: _,
            no_fault: _,
        } = locked;
        let _ = publisher.close(rt);
        keeper
    }

    /// Answers a change under the live store's lock, where the list there begins with what the
    /// session has seen.
    fn try_commit<R: Wait>(
        &self,
        rt: &R,
        alloc: Global,
        session: &mut Session<N>,
        request: &Request,
        asked: &Asked<'_>,
        stamp: Stamp,
    ) -> Option<Result<Answer, CommitFault>>
        requires { IsTrue (is_change request.now.method) }
        ensures decided { IfSome result (λ r. IfOk r (λ done. Decided N.kept N.opened.next
            session.old request.now (asked_view asked.now) stamp done.response done.place
            done.moment.0 session.new)) }
        ensures sent { IfSome result (λ r. IfOk r (λ done. IsSent done.response)) }
        ensures status { IfSome result (λ r. IfOk r (λ done. IsNoFailure done.response.status)) }
        ensures fault { IfSome result (λ r. IsErrOf r CommitFault.DiskFault
            → IsFaulted session.old session.new) }
        ensures fault_at { IfSome result (λ r. IsErrOf r CommitFault.DiskFault
            → FaultedAt N.kept session.old.seen request.now (asked_view asked.now) stamp) }
        ensures memory { IfSome result (λ r. IsErrOf r CommitFault.NoMemory
            → session.new ≡ session.old) }
        ensures none { IfNone result (session.new ≡ session.old) }
    {
        let mut held = self.locked.lock(rt);
        let locked = &mut *held;
        if !session.looker.seen().is_prefix_of(&locked.publisher.tell()) {
            MutexGuard::unlock(held);
            return None;
        }
        let done = locked.decide(rt, alloc, session, request, asked, stamp);
        MutexGuard::unlock(held);
        Some(done)
    }
}

impl<N: ViewName<CommittedEntry> + StoreName + KeeperName<D>, D: Disk> Rounds<N> for Live<N, D> {
    ghost use Rattle.pod_keeper.specs.KeeperState.{KeeperState};
    ghost use Rattle.pod_live.specs.Takes.{LeadsFrom};

    ghost takes = { λ taken. (left : KeeperState D)
        × LeadsFrom D.image D.moment D.left_since N.began taken left };

    fn commit<R: Wait>(
        &self,
        rt: &R,
        alloc: Global,
        session: &mut Session<N>,
        request: &Request,
        asked: &Asked<'_>,
        stamp: Stamp,
    ) -> Result<Answer, CommitFault> {
        for _ in rt.forever() {
            if let Some(done) = self.try_commit(rt, alloc, session, request, asked, stamp) {
                let done = done?;
                session.look_again(rt);
                return Ok(done);
            }
        }
        unreachable!()
    }

    fn gather<X: Drop, R: Wait>(&self, rt: &R, seats: &mut [Seat<X, N>]) {
        let mut held = self.locked.lock(rt);
        let locked = &mut *held;
        let mut of_changes = locked.no_change.empty();
        let mut of_faults = locked.no_fault.empty();
        locked.audit(seats, &mut of_changes, &mut of_faults);
        let front = locked.publisher.tell();
        meet_all(rt, &front, seats);
        MutexGuard::unlock(held);
    }
}
