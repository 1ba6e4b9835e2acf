//! What changes of paths make of the tables of an index.
ghost use Rattle.std.specs.Prelude.{◌≡◌, ◌++◌, ◌∷◌, [], IfOk, OnOk, IsTrue, map};
ghost use Rattle.std.specs.List.{AllByRecursion};
ghost use Rattle.pod_path.specs.Hierarchy.{root};
ghost use Rattle.pod_path.specs.Norm.{IsPath};
ghost use Rattle.access_index.specs.Listing.{is_listed};
ghost use Rattle.access_index.specs.Tables.{AreInOrder, keys};
ghost use Rattle.access_index.specs.Tables.{add_lists, add_paths, refreshed};

use crate::change_reach::is_reached;
use crate::path_table::{Entry, copy_entry, entry_at, insert};
use crate::resolved_list::{Resolved, SharedResolved};
use crate::table_lookup::resolve;
use acl_rules::How;
use pod_base::Mem;
use pod_path::Path;
use std::alloc::Global;

/// Adds the list of a subject to the table of the access lists, unless it is in it.
fn add_list(alloc: Global, lists: &mut Vec<Entry>, subject: &Path) -> Mem<()>
    requires { AreInOrder lists.old.items }
    ensures { OnOk result (lists.new.items ≡ add_lists lists.old.items (subject.now ∷ [])) }
{
    if entry_at(lists.as_slice(), subject.as_str().as_bytes()).is_some() {
        return Ok(());
    }
    let path = subject.copy(alloc)?;
    let at = subject.copy(alloc)?;
    let how = How::Inherited;
    let resolved = SharedResolved::new(alloc, Resolved { at, how })?;
    insert(lists, Entry { path, resolved })
}

/// Adds the lists of these subjects to the table of the access lists.
pub(crate) fn add_lists(alloc: Global, lists: &mut Vec<Entry>, subjects: &[Path]) -> Mem<()>
    requires { AreInOrder lists.old.items }
    ensures { OnOk result (lists.new.items ≡ add_lists lists.old.items subjects.now) }
{
    for subject in subjects {
        add_list(alloc, lists, subject)?;
    }
    Ok(())
}

/// Adds a path to a table, unless it is in it, with what the lists resolve for it.
fn add_path(alloc: Global, lists: &[Entry], entries: &mut Vec<Entry>, path: &Path) -> Mem<()>
    requires order { AreInOrder entries.old.items }
    requires lists { AreInOrder lists.now }
    requires root { IsTrue (is_listed (keys lists.now) root) }
    ensures added { OnOk result (entries.new.items
        ≡ add_paths lists.now entries.old.items (path.now ∷ [])) }
    ensures path { IsPath path.now }
{
    if entry_at(entries.as_slice(), path.as_str().as_bytes()).is_some() {
        return Ok(());
    }
    let resolved = resolve(alloc, lists, path)?;
    let path = path.copy(alloc)?;
    insert(entries, Entry { path, resolved })
}

/// Adds these paths to a table, each with what the lists resolve for it.
pub(crate) fn add_paths(
    alloc: Global,
    lists: &[Entry],
    entries: &mut Vec<Entry>,
    paths: &[Path],
) -> Mem<()>
    requires order { AreInOrder entries.old.items }
    requires lists { AreInOrder lists.now }
    requires root { IsTrue (is_listed (keys lists.now) root) }
    ensures added { OnOk result (entries.new.items
        ≡ add_paths lists.now entries.old.items paths.now) }
    ensures paths { OnOk result (AllByRecursion IsPath paths.now) }
{
    for path in paths {
        add_path(alloc, lists, entries, path)?;
    }
    Ok(())
}

/// The entry of a table after a change, resolved anew where a list of one of these subjects was
/// removed or added.
fn refreshed_entry(
    alloc: Global,
    lists: &[Entry],
    gone: &[Path],
    new: &[Path],
    entry: &Entry,
) -> Mem<Entry>
    requires lists { AreInOrder lists.now }
    requires root { IsTrue (is_listed (keys lists.now) root) }
    ensures { IfOk result (λ e. e ≡ refreshed lists.now gone.now new.now entry.now) }
{
    if !(is_reached(gone, &entry.path) || is_reached(new, &entry.path)) {
        return copy_entry(alloc, entry);
    }
    let path = entry.path.copy(alloc)?;
    let resolved = resolve(alloc, lists, &path)?;
    Ok(Entry { path, resolved })
}

/// The entries of a table after a change, resolved anew at and below the subjects of removed and
/// added lists. What is shared of any other entry is copied: its cost doesn't grow with the length
/// of its path.
pub(crate) fn refreshed(
    alloc: Global,
    lists: &[Entry],
    gone: &[Path],
    new: &[Path],
    entries: &[Entry],
) -> Mem<Vec<Entry>>
    requires lists { AreInOrder lists.now }
    requires root { IsTrue (is_listed (keys lists.now) root) }
    ensures { IfOk result (λ all. all.items
        ≡ map (refreshed lists.now gone.now new.now) entries.now) }
{
    let mut all = Vec::with_capacity(alloc, entries.len())?;
    for entry in entries {
        let next = refreshed_entry(alloc, lists, gone, new, entry)?;
        all.push(next)?;
    }
    Ok(all)
}
