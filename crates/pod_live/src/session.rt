//! [`Session`]: one who reads the published pod and changes it.
ghost use Rattle.std.specs.Prelude.{◌≡◌, ◌≤◌, ◌+◌, ◌-◌, ◌^◌, [], IfOk, length, min};
ghost use Rattle.std.specs.Arc.{arc_value};
ghost use mathlib.Core.List.{IsPrefix};
ghost use Rattle.pod_pages.specs.State.{states_after};
ghost use Rattle.published_view.specs.LookerState.{IsNewLooker, NotNoPlace, OnNoPlace};
ghost use Rattle.pod_live.specs.Visits.{IsNewVisit, IsTurnedAway, Looked, Meets};

use crate::published_version::{CommittedEntry, Shown};
use crate::store_names::{Changes, Faults, StoreName};
use iri_ref::Iri;
use pod_pages::Version;
use published_view::{Front, Looker, ViewFault, ViewName};
use std::marker::Model;
use std::sync::ledger::Share;
use std::sync::{Arc, Wait};

/// A session, with what belongs to it.
#[derive(Drop)]
pub struct Seat<X, N: ViewName<CommittedEntry> + StoreName> {
    pub session: Session<N>,
    pub rest: X,
}

/// One who reads the published pod without waiting, and changes it by the store's lock. It stays
/// with one thread at a time.
///
/// Contracts see what it has seen of the one list of entries, and what it did (`Visit`).
#[derive(Drop)]
pub struct Session<N: ViewName<CommittedEntry> + StoreName> {
    pub(crate) looker: Looker<Shown<N>, N>,
    // The number of the first entry since the store was opened.
    first: u64,
    base: Iri,
    pub(crate) changes: u64,
    pub(crate) faults: u64,
    pub(crate) of_changes: Share<Changes<N>>,
    pub(crate) of_faults: Share<Faults<N>>,
}

impl<N: ViewName<CommittedEntry> + StoreName> Model for Session<N> {
    ghost use Rattle.std.specs.Prelude.{◌≡◌, []};
    ghost use Rattle.pod_live.specs.Visits.{Visit};

    ghost Value = { Visit };

    ghost view = { λ s. record {
      seen = s.looker.seen;
      told = s.looker.told;
      looks = s.looker.looks;
      refused = s.looker.refused;
      given = s.looker.given;
      changes = s.changes;
      faults = s.faults;
    } };

    ghost invariant = { λ s. (s.of_changes.parts ≡ 1) × (s.of_changes.amount ≡ s.changes)
        × (s.of_faults.parts ≡ 1) × (s.of_faults.amount ≡ s.faults)
        × (s.first ≡ N.opened.next) × (s.base ≡ N.opened.pod.base) × (N.opening ≡ []) };
}

impl<N: ViewName<CommittedEntry> + StoreName> Session<N> {
    /// A session that has done nothing.
    pub(crate) fn of(
        looker: Looker<Shown<N>, N>,
        first: u64,
        base: Iri,
        of_changes: Share<Changes<N>>,
        of_faults: Share<Faults<N>>,
    ) -> Session<N>
        requires first { first ≡ N.opened.next }
        requires base { base ≡ N.opened.pod.base }
        requires opening { N.opening ≡ [] }
        requires parts { (of_changes.parts ≡ 1) × (of_faults.parts ≡ 1) }
        requires amounts { (of_changes.amount ≡ 0) × (of_faults.amount ≡ 0) }
        ensures { IsNewLooker N.opening looker → IsNewVisit N.opening result }
    {
        Session {
            looker,
            first,
            base,
            changes: 0,
            faults: 0,
            of_changes,
            of_faults,
        }
    }

    /// Makes one look of the session, and returns the version that is published then. It waits for
    /// nobody.
    ///
    /// # Errors
    ///
    /// `NoPlace` says that `left_right` refused the look, and [`Session::refused`] increased.
    /// `NoMemory` comes after the look was made.
    pub fn look(&mut self) -> Result<Arc<Version>, ViewFault>
        ensures version { IfOk result
            (λ version. arc_value version ≡ states_after N.opened self.new.seen) }
        ensures given { IfOk result (λ version. self.new.seen ≡ self.new.given) }
        ensures looked { NotNoPlace result (Looked self.old self.new) }
        ensures refused { OnNoPlace result (IsTurnedAway self.old self.new) }
    {
        match self.looker.look() {
            Ok(shown) => match Arc::try_clone(&shown.version) {
                Ok(version) => Ok(version),
                Err(_) => Err(ViewFault::NoMemory),
            },
            Err(fault) => Err(fault),
        }
    }

    /// The position after the entries that the session has seen, at most 2^64 - 1. After a look
    /// that returned a version it is the number of that version's next entry.
    pub fn seen(&self) -> u64
        ensures { result ≡ min (N.opened.next + length self.now.seen) (2 ^ 64 - 1) }
    {
        self.first.saturating_add(self.looker.seen().added())
    }

    /// How many entries the session's changes added.
    pub fn changes(&self) -> u64
        ensures { result ≡ self.now.changes }
    {
        self.changes
    }

    /// How many of the session's looks were refused. The count stands still at its last value.
    pub fn refused(&self) -> u64
        ensures { result ≡ self.now.refused }
    {
        self.looker.refused()
    }

    /// The base of the session's pod.
    pub fn base(&self) -> &Iri
        ensures { result.now ≡ N.opened.pod.base }
    {
        &self.base
    }

    /// Makes one look of the session, again where it was refused.
    pub(crate) fn look_again<R: Wait>(&mut self, rt: &R)
        ensures later { IsPrefix self.old.seen self.new.seen }
        ensures told { IsPrefix self.old.told self.new.seen }
        ensures looks { self.new.looks ≡ self.old.looks + 1 }
        ensures refused { self.old.refused ≤ self.new.refused }
        ensures changes { self.new.changes ≡ self.old.changes }
        ensures faults { self.new.faults ≡ self.old.faults }
    {
        look_until(rt, &mut self.looker);
    }

    /// Looks until the session has seen just this front, which nobody adds to meanwhile.
    pub(crate) fn meet<R: Wait>(&mut self, rt: &R, front: &Front<CommittedEntry, N>)
        ensures { Meets front.now self.old self.new }
    {
        meet_at(rt, &mut self.looker, front);
    }
}

/// Makes one look of a session, again where it was refused.
fn look_until<N: ViewName<CommittedEntry> + StoreName, R: Wait>(
    rt: &R,
    looker: &mut Looker<Shown<N>, N>,
)
    ensures later { IsPrefix looker.old.seen looker.new.seen }
    ensures told { IsPrefix looker.old.told looker.new.seen }
    ensures kept { looker.new.told ≡ looker.old.told }
    ensures looks { looker.new.looks ≡ looker.old.looks + 1 }
    ensures refused { looker.old.refused ≤ looker.new.refused }
{
    for _ in rt.forever() {
        match looker.look() {
            Ok(_version) => return,
            Err(ViewFault::NoMemory) => return,
            Err(ViewFault::NoPlace) => {}
        }
    }
    unreachable!()
}

/// Looks until a session has seen just this front, which nobody adds to meanwhile.
fn meet_at<N: ViewName<CommittedEntry> + StoreName, R: Wait>(
    rt: &R,
    looker: &mut Looker<Shown<N>, N>,
    front: &Front<CommittedEntry, N>,
)
    ensures later { IsPrefix looker.old.seen looker.new.seen }
    ensures seen { looker.new.seen ≡ front.now }
    ensures refused { looker.old.refused ≤ looker.new.refused }
{
    looker.learn(front.copy());
    for _ in rt.forever() {
        look_until(rt, looker);
        if looker.seen().is_prefix_of(front) {
            return;
        }
    }
    unreachable!()
}
