//! [`find_place`], [`member_place`]: where a new row goes in the tree.

ghost use Rattle.std.specs.Prelude.{◌≡◌, ◌<◌, ℕ, List as TheList, IfOk, Some, false, true};
ghost use Rattle.std.specs.Prelude.{length};
ghost use Rattle.pod_command.specs.declared.row.Row.{Row as TheRow};
ghost use Rattle.pod_edits.specs.Places.{IsPlaceOf};
ghost use Rattle.pod_edits.specs.Refusals.{added_rows};
ghost use Rattle.pod_path.specs.Hierarchy.{is_auxiliary, parent_of};
ghost use Rattle.pod_path.specs.Norm.{IsPath};
ghost use Rattle.pod_rows.specs.Pod.{Pod, is_row};
ghost use Rattle.pod_rows.specs.WellFormed.{WellFormed};

use pod_base::{List, Mem};
use pod_path::Path;
use pod_rows::PodState;
use std::alloc::Global;

/// Where a new row goes.
#[derive(Debug, Drop)]
pub struct Place {
    /// The nearest container above the path that is a row.
    pub nearest: Path,
    /// The containers between, which are no rows, from the top.
    pub missing: List<Path>,
}

impl Place {
    /// How many rows a new row adds at this place, if it is no access list and no description:
    /// itself and the missing containers.
    pub fn added_rows(&self) -> usize
        ensures { (rows : TheList TheRow) (path : TheList ℕ) → is_auxiliary path ≡ false
            → IsPlaceOf rows path self.now → result ≡ added_rows rows path }
    {
        self.missing.as_slice().len() + 1
    }
}

/// The place of a new member of a container that is a row: nothing is missing above it. It looks
/// nothing up.
pub fn member_place(alloc: Global, container: &Path) -> Mem<Place>
    ensures { IfOk result (λ place. (pod : Pod) (path : TheList ℕ) → WellFormed pod
        → IsPath path → parent_of path ≡ Some container.now
        → is_row pod.rows container.now ≡ true → IsPlaceOf pod.rows path place) }
{
    let nearest = container.copy(alloc)?;
    Ok(Place {
        nearest,
        missing: List::new(alloc),
    })
}

/// The container just above a path that is no row, for the place of a new row.
fn parent_of<S: PodState>(alloc: Global, state: &S, path: &Path) -> Mem<Path>
    requires { is_row (S.pod state.now).rows path.now ≡ false }
    ensures parent { IfOk result (λ parent. parent_of path.now ≡ Some parent) }
    ensures path { IfOk result (λ _. IsPath path.now) }
    ensures parent_path { IfOk result IsPath }
    ensures shorter { IfOk result (λ parent. length parent < length path.now) }
{
    state.is_well_formed();
    let _path = path.as_str();
    match path.parent(alloc)? {
        Some(parent) => {
            let _parent = parent.as_str();
            Ok(parent)
        }
        None => unreachable!(),
    }
}

/// The place of a new row at a path that is no row, in one walk up to the nearest container that is
/// one.
pub fn find_place<S: PodState>(alloc: Global, state: &S, path: &Path) -> Mem<Place>
    requires { is_row (S.pod state.now).rows path.now ≡ false }
    ensures { IfOk result (IsPlaceOf (S.pod state.now).rows path.now) }
{
    state.is_well_formed();
    let mut missing = Vec::new(alloc);
    let mut above = parent_of(alloc, state, path)?;
    while !state.taken(&above) {
        let next = parent_of(alloc, state, &above)?;
        missing.push(above)?;
        above = next;
    }
    missing.reverse();
    Ok(Place {
        nearest: above,
        missing: List::from_vec(missing),
    })
}
