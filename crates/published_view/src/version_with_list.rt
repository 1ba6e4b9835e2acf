//! What each of the two copies under a view holds.
use crate::list_prefix::Front;
use crate::represented_list::Told;
use crate::view_name::ViewName;
use left_right::Absorb;
use std::alloc::AllocError;
use std::marker::Model;
use std::sync::Arc;

/// A version, and the list that it stands for.
#[derive(Drop)]
pub struct VersionWithList<V: Told, N: ViewName<V::Item>> {
    pub(crate) version: Arc<V>,
    pub(crate) front: Front<V::Item, N>,
}

impl<V: Told, N: ViewName<V::Item>> Model for VersionWithList<V, N> {
    ghost use Rattle.std.specs.Arc.{arc_value};
    ghost use Rattle.published_view.specs.VersionWithList as seen;

    ghost Value = { seen.VersionWithList V V.Item };

    ghost view = { λ e. record { version = arc_value e.version; list = e.front } };

    ghost invariant = { λ e. V.stands (arc_value e.version) N.first_number e.front };
}

/// What `left_right` keeps in two copies, each of which takes the place of the one before.
/// [`VersionWithList`] is the only one. A struct that holds a publisher repeats the bound
/// `VersionWithList<V, N>: KeptTwice`, by which its contracts see what is published.
pub trait KeptTwice: Absorb<Self, State = Self> + Drop {}

impl<V: Told, N: ViewName<V::Item>> KeptTwice for VersionWithList<V, N> {}

impl<V: Told, N: ViewName<V::Item>> Absorb<VersionWithList<V, N>> for VersionWithList<V, N> {
    type State = VersionWithList<V, N>;

    ghost state = { λ e. e };

    ghost applied = { λ _ next. next };

    fn absorb_first(
        &mut self,
        operation: &VersionWithList<V, N>,
        _other: &VersionWithList<V, N>,
    ) -> Result<(), AllocError> {
        let version = Arc::try_clone(&operation.version)?;
        let front = operation.front.copy();
        *self = VersionWithList { version, front };
        Ok(())
    }

    fn absorb_second(
        &mut self,
        operation: VersionWithList<V, N>,
        _other: &VersionWithList<V, N>,
    ) -> Result<(), VersionWithList<V, N>> {
        *self = operation;
        Ok(())
    }
}
