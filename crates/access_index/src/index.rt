//! [`AccessIndex`]: the access list in force for each path of a list.
ghost use Rattle.std.specs.Prelude.{◌≡◌, IfOk, IfSome, IsTrue, false, is_some, option_copied};
ghost use Rattle.pod_path.specs.Hierarchy.{root};
ghost use Rattle.pod_rows.specs.Access.{list_path};
ghost use Rattle.access_index.specs.Governing.{has_list, IsEffective};
ghost use Rattle.access_index.specs.Index.{AreTables};
ghost use Rattle.access_index.specs.Listing.{is_listed, is_listed_after, IsListOf};
ghost use Rattle.access_index.specs.Tables.{keys};

use crate::acl_subjects::list_subjects;
use crate::path_table::{Entry, copy_entries, entry_at, remove_all};
use crate::resolved_list::Resolved;
use crate::table_changes::{add_lists, add_paths, refreshed};
use pod_base::{List, Mem};
use pod_path::Path;
use std::alloc::Global;
use std::marker::Model;

/// The access list in force for each path of a list. Contracts see the paths, in byte order.
///
/// Each path shares its text with the path that was handed in, and the paths that inherit one list
/// share what is resolved.
#[derive(Drop)]
pub struct AccessIndex {
    entries: Vec<Entry>,
    lists: Vec<Entry>,
}

impl Model for AccessIndex {
    ghost use Rattle.std.specs.Prelude.{List, ℕ};
    ghost use Rattle.access_index.specs.Index.{IsIndex};
    ghost use Rattle.access_index.specs.Tables.{keys};

    ghost Value = { List (List ℕ) };

    ghost view = { λ index. keys index.entries.items };

    ghost invariant = { λ index. IsIndex index.entries.items index.lists.items };
}

impl AccessIndex {
    /// The index of the access lists in force for these paths, in any order. `/.acl` is among them.
    pub fn of(alloc: Global, paths: &List<Path>) -> Mem<AccessIndex>
        requires { IsTrue (has_list (is_listed paths.now.items) root) }
        ensures paths { IfOk result (λ index. IsListOf (is_listed paths.now.items) index) }
    {
        let none = Vec::new(alloc);
        changed(alloc, &[], &[], paths.as_slice(), &none)
    }

    /// The access list in force for a path of the index, and none for any other path. It is a
    /// binary search, and takes no memory.
    pub fn find(&self, path: &Path) -> Option<&Resolved>
        ensures listed { is_some (option_copied result) ≡ is_listed self.now path.now }
        ensures governs { IfSome (option_copied result)
            (λ found. IsEffective (is_listed self.now) path.now found) }
    {
        match entry_at(self.entries.as_slice(), path.as_str().as_bytes()) {
            Some(entry) => Some(entry.resolved.as_resolved()),
            None => None,
        }
    }

    /// The index of the paths without the removed and with the added ones, in any order. `/.acl`
    /// is not among the removed ones. A path that is added and removed is a path of the new index.
    ///
    /// Paths at and below the subjects of added and removed access lists are resolved anew. All
    /// other entries share their path and what is resolved with this index.
    pub fn after(&self, alloc: Global, added: &List<Path>, removed: &List<Path>) -> Mem<AccessIndex>
        requires { is_listed removed.now.items (list_path root) ≡ false }
        ensures paths { IfOk result (λ index. IsListOf
            (is_listed_after self.now added.now.items removed.now.items) index) }
    {
        changed(
            alloc,
            self.entries.as_slice(),
            self.lists.as_slice(),
            added.as_slice(),
            removed.as_slice(),
        )
    }
}

/// The index after these paths are added to its tables and those removed.
fn changed(
    alloc: Global,
    entries: &[Entry],
    lists: &[Entry],
    added: &[Path],
    removed: &[Path],
) -> Mem<AccessIndex>
    requires tables { AreTables entries.now lists.now }
    requires root { IsTrue (has_list
        (is_listed_after (keys entries.now) added.now removed.now) root) }
    ensures { IfOk result (λ index. IsListOf
        (is_listed_after (keys entries.now) added.now removed.now) index) }
{
    let gone = list_subjects(alloc, removed)?;
    let new = list_subjects(alloc, added)?;
    let mut new_lists = copy_entries(alloc, lists)?;
    remove_all(&mut new_lists, gone.as_slice());
    add_lists(alloc, &mut new_lists, new.as_slice())?;
    let mut all = refreshed(
        alloc,
        new_lists.as_slice(),
        gone.as_slice(),
        new.as_slice(),
        entries,
    )?;
    remove_all(&mut all, removed);
    add_paths(alloc, new_lists.as_slice(), &mut all, added)?;
    Ok(AccessIndex {
        entries: all,
        lists: new_lists,
    })
}
