//! The names of one store, by which the contracts of its sessions speak of one list of entries.
ghost use Rattle.std.specs.Prelude.{◌≡◌, ℕ};
ghost use Rattle.pod_core.specs.History.{History, IsHistory};
ghost use Rattle.pod_keeper.specs.Kept.{version_of};
ghost use Rattle.pod_keeper.specs.KeeperState.{KeeperState};
ghost use Rattle.pod_pages.specs.State.{VersionState};

use crate::published_version::CommittedEntry;
use published_view::NewList;
use std::marker::{Brand, PhantomData};
use std::sync::ledger::{Blank, Ledger};

/// The names of one store. No value has this type: the types of one store share it, beside its name
/// as a view (`ViewName`).
pub trait StoreName {
    /// The version that the store was opened with.
    ghost opened: { VersionState };

    /// The histories that its keeper represented then.
    ghost kept: { History → Type 0 };

    /// Each of them is a history of a pod, and ends with that version.
    ghost ends: { (history : History) → kept history
        → IsHistory history × (version_of history ≡ opened) };

    /// What held of its disks then, so that every crash image of them represents what the keeper
    /// does (`IsSafe`).
    ghost safe: { Type 0 };

    /// How many faults its two disks had counted then, added up.
    ghost counted: { ℕ };

    /// The name of the ledger of changes.
    ghost changes: { ℕ };

    /// The name of the ledger of faults.
    ghost faults: { ℕ };

    /// How many sessions share the two ledgers.
    ghost parts: { ℕ };
}

impl StoreName for Brand {
    ghost use Rattle.std.specs.Prelude.{[]};

    ghost opened = { record {
      pod = record { base = []; owner = []; rows = [] };
      next = 0;
      effects = [];
      oldest = 0;
    } };

    ghost kept = { λ _. ⊥ };

    ghost ends = { λ _ none. absurd none };

    ghost safe = { Unit {0} };

    ghost counted = { 0 };

    ghost changes = { 0 };

    ghost faults = { 0 };

    ghost parts = { 0 };
}

/// The name of the keeper that a store was opened with, beside its other names ([`StoreName`]).
pub trait KeeperName<D> {
    /// Which it is: this holds of that keeper alone, or of none.
    ghost began: { KeeperState D → Type 0 };
}

impl<D> KeeperName<D> for Brand {
    ghost began = { λ _. ⊥ };
}

/// The ledger of changes: how many entries each session added.
pub struct Changes<N: StoreName> {
    of: PhantomData<N>,
}

impl<N: StoreName> Ledger for Changes<N> {
    ghost name = { N.changes };

    ghost parts = { N.parts };
}

/// The ledger of faults: how many changes of each session met a disk fault.
pub struct Faults<N: StoreName> {
    of: PhantomData<N>,
}

impl<N: StoreName> Ledger for Faults<N> {
    ghost name = { N.faults };

    ghost parts = { N.parts };
}

/// What the names of a store are taken from: a new list, and two new ledgers.
#[derive(Drop)]
pub struct Names {
    pub list: NewList<CommittedEntry>,
    pub changes: Blank,
    pub faults: Blank,
}

impl Names {
    /// The names of a store with so many sessions.
    pub fn new(sessions: u64) -> Names
        ensures changes { result.changes.parts ≡ sessions }
        ensures faults { result.faults.parts ≡ sessions }
    {
        Names {
            list: NewList::new(),
            changes: Blank::new(sessions),
            faults: Blank::new(sessions),
        }
    }
}
