//! What is published: a version of the pod, and the entries that it stands for.
ghost use Rattle.std.specs.Prelude.{◌≡◌, IfOk, List};
ghost use Rattle.std.specs.Arc.{arc_value};
ghost use Rattle.pod_command.specs.declared.entry.Entry.{Entry as EntryValue};

use crate::store_names::StoreName;
use pod_base::{Mem, NoMemory};
use pod_command::Entry;
use pod_pages::Version;
use published_view::Told;
use std::alloc::Global;
use std::marker::{Model, PhantomData};
use std::sync::Arc;

/// An entry as histories have it: contracts see it without the spare capacity of its lists.
#[derive(Drop)]
pub struct CommittedEntry {
    pub entry: Entry,
}

impl Model for CommittedEntry {
    ghost use Rattle.pod_command.specs.Bare.{bare_entry};
    ghost use Rattle.pod_command.specs.declared.entry.Entry.{Entry};

    ghost Value = { Entry };

    ghost view = { λ e. bare_entry e.entry };
}

/// A version that is published: that after the entries since the store was opened.
#[derive(Drop)]
pub struct Shown<N: StoreName> {
    pub version: Arc<Version>,
    of: PhantomData<N>,
}

impl<N: StoreName> Told for Shown<N> {
    ghost use Rattle.std.specs.Prelude.{◌≡◌};
    ghost use Rattle.std.specs.Arc.{arc_value};
    ghost use Rattle.pod_pages.specs.State.{states_after};

    type Item = CommittedEntry;

    ghost stands = { λ v first entries. arc_value v.version ≡ states_after N.opened entries };
}

/// What is published, where its items are entries. [`Shown`] is the only one: a struct that holds a
/// publisher is generic in it, and its contracts see the list as entries.
pub trait PodTold: Told {
    ghost entries: { List Self.Item → List EntryValue };
}

impl<N: StoreName> PodTold for Shown<N> {
    ghost entries = { λ items. items };
}

impl<N: StoreName> Shown<N> {
    /// The version of the pod as it is published.
    pub(crate) fn of(alloc: Global, version: &Arc<Version>) -> Mem<Arc<Shown<N>>>
        ensures { IfOk result
            (λ shown. arc_value (arc_value shown).version ≡ arc_value version.now) }
    {
        let Ok(version) = Arc::try_clone(version) else {
            return Err(NoMemory);
        };
        let shown = Shown {
            version,
            of: PhantomData,
        };
        match Arc::new(alloc, shown) {
            Ok(shown) => Ok(shown),
            Err(_) => Err(NoMemory),
        }
    }
}
