//! The paths of items.

ghost use Rattle.std.specs.Prelude.{◌≡◌, IfOk, map};
ghost use Rattle.row_pages.specs.Items.{path_of};

use pod_base::Mem;
use pod_path::Path;
use row_pages::Item;
use std::alloc::Global;

/// The paths of the rows of items.
pub(crate) fn item_paths(alloc: Global, items: &[Item]) -> Mem<Vec<Path>>
    ensures { IfOk result (λ paths. paths.items ≡ map path_of items.now) }
{
    let mut paths = Vec::with_capacity(alloc, items.len())?;
    for item in items {
        let path = item.row().path.copy(alloc)?;
        paths.push(path)?;
    }
    Ok(paths)
}
