//! [`Resolved`]: the access list in force for a path; entries share it.
ghost use Rattle.std.specs.Prelude.{◌≡◌, IfOk};

use acl_rules::How;
use pod_base::Mem;
use pod_path::Path;
use std::alloc::Global;
use std::marker::Model;
use std::sync::Arc;

/// The access list that governs a path: the path whose list it is, and whether that is the path's
/// own or an ancestor's.
#[derive(Drop)]
pub struct Resolved {
    pub at: Path,
    pub how: How,
}

/// A [`Resolved`] that several entries share. A copy costs a count.
#[derive(Drop)]
pub(crate) struct SharedResolved {
    resolved: Arc<Resolved>,
}

impl Model for SharedResolved {
    ghost use Rattle.std.specs.Arc.{arc_value};
    ghost use Rattle.access_index.specs.declared.resolved_list.Resolved.{Resolved};

    ghost Value = { Resolved };

    ghost view = { λ s. arc_value s.resolved };
}

impl SharedResolved {
    /// The shared form of a resolved access list.
    pub(crate) fn new(alloc: Global, resolved: Resolved) -> Mem<SharedResolved>
        ensures { IfOk result (λ shared. shared ≡ resolved) }
    {
        let resolved = Arc::new(alloc, resolved)?;
        Ok(SharedResolved { resolved })
    }

    /// The same resolved access list, which is shared.
    pub(crate) fn copy(&self) -> Mem<SharedResolved>
        ensures { IfOk result (λ copy. copy ≡ self.now) }
    {
        let resolved = Arc::try_clone(&self.resolved)?;
        Ok(SharedResolved { resolved })
    }

    /// Lends the resolved access list.
    pub(crate) fn as_resolved(&self) -> &Resolved
        ensures { result.now ≡ self.now }
    {
        &self.resolved
    }
}
