//! Which list of a table governs a path.
ghost use Rattle.std.specs.Prelude.{◌≡◌, ◌++◌, IfOk, IsTrue, Some, option_copied};
ghost use Rattle.pod_path.specs.Hierarchy.{root};
ghost use Rattle.pod_rows.specs.Tree.{ancestors};
ghost use Rattle.access_index.specs.Listing.{is_listed};
ghost use Rattle.access_index.specs.Tables.{AreInOrder, keys, container_entry, first_entry};
ghost use Rattle.access_index.specs.Tables.{resolve};

use crate::path_table::{Entry, entry_at};
use crate::resolved_list::{Resolved, SharedResolved};
use acl_rules::How;
use pod_base::Mem;
use pod_path::Path;
use pod_rows::about;
use std::alloc::Global;

/// Looks up a container's entry in the table of access lists, where the text is one.
fn container_entry<'a>(lists: &'a [Entry], path: &[u8]) -> Option<&'a Entry>
    requires { AreInOrder lists.now }
    ensures { option_copied result ≡ container_entry lists.entry.now path.now }
{
    if path.ends_with(b"/") {
        entry_at(lists, path)
    } else {
        None
    }
}

/// Looks up the entry of the nearest ancestor that has one in the table of access lists.
fn entry_above<'a>(lists: &'a [Entry], path: &[u8]) -> Option<&'a Entry>
    requires { AreInOrder lists.now }
    ensures { option_copied result ≡ first_entry lists.entry.now (ancestors path.now) }
{
    let mut n = path.len();
    while n > 0 {
        n -= 1;
        let found = container_entry(lists, &path[..n]);
        if found.is_some() {
            return found;
        }
    }
    None
}

/// Looks up what the table of the access lists resolves for a path. Those that inherit one list
/// share it.
pub(crate) fn resolve(alloc: Global, lists: &[Entry], path: &Path) -> Mem<SharedResolved>
    requires order { AreInOrder lists.now }
    requires root { IsTrue (is_listed (keys lists.now) root) }
    ensures { IfOk result (λ resolved. Some resolved ≡ resolve lists.now path.now) }
{
    let text = about(path.as_str()).as_bytes();
    match entry_at(lists, text) {
        Some(list) => {
            let at = list.path.copy(alloc)?;
            SharedResolved::new(alloc, Resolved { at, how: How::Own })
        }
        None => match entry_above(lists, text) {
            Some(list) => list.resolved.copy(),
            None => unreachable!(),
        },
    }
}
