//! [`Replay`]: a version to which entries are applied one after another.
ghost use Rattle.std.specs.Prelude.{◌≡◌, IfOk, IsErrOf};
ghost use Rattle.pod_rows.specs.Apply.{Applies};
ghost use Rattle.pod_rows.specs.WellFormed.{IsWellFormedSnapshot};
ghost use Rattle.pod_pages.specs.State.{first_state, state_after};

use crate::entry_effects::{Effect, drop_old, make_room};
use crate::version::Version;
use pod_base::Mem;
use pod_command::{Entry, Snapshot};
use pod_rows::{PodState, StateFault};
use std::alloc::Global;
use std::marker::Model;

/// A version that nobody looks at while entries are applied to it, as when a store is opened. What
/// an entry replaces is freed at once, where [`PodState::after`] keeps it for the old version.
#[derive(Drop)]
pub struct Replay {
    /// Without effects.
    version: Version,
    /// Those that the version keeps, among others that are too old.
    effects: Vec<Effect>,
}

impl Model for Replay {
    ghost use Rattle.pod_pages.specs.Effects.{kept_effects};
    ghost use Rattle.pod_pages.specs.State.{VersionState, with_effects};

    ghost Value = { VersionState };

    ghost view = { λ r. with_effects (kept_effects r.version.oldest r.effects.items) r.version };
}

impl Replay {
    /// The replay that begins with a snapshot.
    ///
    /// # Errors
    ///
    /// [`StateFault::NotWellFormed`] exactly where the snapshot isn't well-formed.
    pub fn of(alloc: Global, snapshot: Snapshot) -> Result<Replay, StateFault>
        ensures replay { IfOk result (λ replay. replay ≡ first_state snapshot) }
        ensures well_formed { IfOk result (λ _. IsWellFormedSnapshot snapshot) }
        ensures refused { IsErrOf result StateFault.NotWellFormed
            → IsWellFormedSnapshot snapshot → ⊥ }
    {
        let version = Version::of(alloc, snapshot)?;
        Ok(Replay {
            version,
            effects: Vec::new(alloc),
        })
    }

    /// The version that the replay has come to, but for the effects.
    pub fn version(&self) -> &Version
        ensures pod { result.now.pod ≡ self.now.pod }
        ensures next { result.now.next ≡ self.now.next }
    {
        &self.version
    }

    /// The replay after one more entry, which applies.
    pub fn after(self, alloc: Global, entry: &Entry) -> Mem<Replay>
        requires { Applies self.pod self.next entry.now }
        ensures { IfOk result (λ after. after ≡ state_after self entry.now) }
    {
        let Replay { version, effects } = self;
        let mut effects = effects;
        make_room(&mut effects, version.oldest())?;
        let version = version.into_next(alloc, entry, &mut effects)?;
        Ok(Replay { version, effects })
    }

    /// The version that the replay has come to.
    pub fn into_version(self) -> Version
        ensures { result ≡ self }
    {
        let Replay { version, effects } = self;
        let mut effects = effects;
        drop_old(&mut effects, version.oldest());
        version.with_effects(effects)
    }
}
