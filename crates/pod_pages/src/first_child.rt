//! Whether a container has children: a search that ends at the first one.
ghost use Rattle.std.specs.Prelude.{◌≡◌, ◌++◌, ◌∷◌, [], false, nat_eq, true, IfNone, IfOk, IfSome};
ghost use Rattle.std.specs.Prelude.{OnOk, Some};
ghost use Rattle.std.specs.List.{starts_with};
ghost use Rattle.pod_pages.specs.FirstChild.{has_direct_child};
ghost use Rattle.row_pages.specs.Items.{AreItemsInOrder, begins_with, first_from};
ghost use Rattle.row_pages.specs.Seeks.{items_from};

use pod_base::Mem;
use pod_path::Path;
use pod_rows::is_child_of;
use row_pages::{Item, Rows};
use std::alloc::Global;

/// Whether the item's path begins with the container's, as that of its first child does.
fn begins_with(item: &Item, container: &Path) -> bool
    ensures { result ≡ begins_with container.now item.now }
{
    let path = item.row().path.as_str().as_bytes();
    path.starts_with(container.as_str().as_bytes())
}

/// The first item from a text on in the search for a container's first child, if its path begins
/// with the container's, with which the text begins.
fn next_below<'a>(rows: &'a Rows, text: &[u8], container: &Path) -> Option<&'a Item>
    requires order { AreItemsInOrder rows.now }
    requires begins { starts_with nat_eq text.now container.now ≡ true }
    ensures first { IfSome result (λ item. first_from rows.entry.now text.now ≡ Some item.now) }
    ensures below { IfSome result (λ item. begins_with container.now item.now ≡ true) }
    ensures none { IfNone result (has_direct_child (items_from rows.entry.now text.now) container.now
        ≡ false) }
{
    match rows.first_from(text) {
        Some(item) => {
            if begins_with(item, container) {
                Some(item)
            } else {
                None
            }
        }
        None => None,
    }
}

/// Puts the next text in byte order after a path, from which the search for a first child goes on.
fn put_next(path: &[u8], text: &mut Vec<u8>) -> Mem<()>
    ensures { OnOk result (text.new.items ≡ path.now ++ 0 ∷ []) }
{
    text.clear();
    text.extend_from_slice(path)?;
    text.push(0)?;
    Ok(())
}

/// Whether a container has a first child, among the items directly below it. Few of them are none:
/// itself, its access list and its description.
pub(crate) fn has_child(alloc: Global, rows: &Rows, container: &Path) -> Mem<bool>
    ensures { IfOk result (λ r. r ≡ has_direct_child rows.now container.now) }
{
    rows.are_in_order();
    let mut text = Vec::new(alloc);
    text.extend_from_slice(container.as_str().as_bytes())?;
    while let Some(item) = next_below(rows, text.as_slice(), container) {
        if is_child_of(container, item.row()) {
            return Ok(true);
        }
        put_next(item.row().path.as_str().as_bytes(), &mut text)?;
    }
    Ok(false)
}
