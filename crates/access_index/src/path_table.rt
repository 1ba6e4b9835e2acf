//! Tables of paths in byte order, each path with what is resolved for it.
ghost use Rattle.std.specs.Prelude.{◌≡◌, IfOk, OnOk, None, option_copied};
ghost use Rattle.access_index.specs.Tables.{AreInOrder, entry_at, keep_at, rank, placed, without};
ghost use Rattle.access_index.specs.Tables.{without_all};

use crate::resolved_list::SharedResolved;
use pod_base::Mem;
use pod_path::Path;
use std::alloc::Global;
use std::cmp::Ordering;

/// A path, and what is resolved for it.
#[derive(Drop)]
pub(crate) struct Entry {
    pub path: Path,
    pub resolved: SharedResolved,
}

/// How many entries of a table of paths are before the path, by binary search.
fn rank(entries: &[Entry], path: &[u8]) -> usize
    requires { AreInOrder entries.now }
    ensures { result ≡ rank path.now entries.now }
{
    let half = entries.len() / 2;
    let (before, after) = entries.split_at(half);
    let Some((entry, rest)) = after.split_first() else {
        return 0;
    };
    match path.cmp(entry.path.as_str().as_bytes()) {
        Ordering::Less => rank(before, path),
        Ordering::Equal => half,
        Ordering::Greater => half + 1 + rank(rest, path),
    }
}

/// The entry of a table of paths, where it is at the path.
fn keep_at<'a>(entry: Option<&'a Entry>, path: &[u8]) -> Option<&'a Entry>
    ensures { option_copied result ≡ keep_at path.now (option_copied entry.entry) }
{
    match entry {
        Some(entry) => {
            if entry.path.as_str().as_bytes() == path {
                Some(entry)
            } else {
                None
            }
        }
        None => None,
    }
}

/// The entry at a path in a table of paths.
pub(crate) fn entry_at<'a>(entries: &'a [Entry], path: &[u8]) -> Option<&'a Entry>
    requires { AreInOrder entries.now }
    ensures { option_copied result ≡ entry_at entries.entry.now path.now }
{
    keep_at(entries.get(rank(entries, path)), path)
}

/// Inserts an entry into a table of paths where it belongs.
pub(crate) fn insert(entries: &mut Vec<Entry>, entry: Entry) -> Mem<()>
    requires { AreInOrder entries.old.items }
    ensures { OnOk result (entries.new.items ≡ placed entry entries.old.items) }
{
    let at = rank(entries.as_slice(), entry.path.as_str().as_bytes());
    entries.insert(at, entry)?;
    Ok(())
}

/// Removes the entry at a path from a table of paths, if there is one.
fn remove(entries: &mut Vec<Entry>, path: &Path)
    requires { AreInOrder entries.old.items }
    ensures { entries.new.items ≡ without entries.old.items path.now }
{
    let text = path.as_str().as_bytes();
    if entry_at(entries.as_slice(), text).is_none() {
        return;
    }
    let at = rank(entries.as_slice(), text);
    let _gone = entries.remove(at);
}

/// Removes the entries at these paths from a table of paths.
pub(crate) fn remove_all(entries: &mut Vec<Entry>, paths: &[Path])
    requires { AreInOrder entries.old.items }
    ensures { entries.new.items ≡ without_all entries.old.items paths.now }
{
    for path in paths {
        remove(entries, path);
    }
}

/// A copy of an entry in a table of paths, which shares the path and what is resolved.
pub(crate) fn copy_entry(alloc: Global, entry: &Entry) -> Mem<Entry>
    ensures { IfOk result (λ copy. copy ≡ entry.now) }
{
    let path = entry.path.copy(alloc)?;
    let resolved = entry.resolved.copy()?;
    Ok(Entry { path, resolved })
}

/// Copies of the entries in a table of paths, in their order.
pub(crate) fn copy_entries(alloc: Global, entries: &[Entry]) -> Mem<Vec<Entry>>
    ensures { IfOk result (λ copies. copies.items ≡ entries.now) }
{
    let mut copies = Vec::with_capacity(alloc, entries.len())?;
    for entry in entries {
        let copy = copy_entry(alloc, entry)?;
        copies.push(copy)?;
    }
    Ok(copies)
}
