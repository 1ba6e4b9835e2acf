//! Cases of an index, as it is made and after changes.
ghost use Rattle.std.specs.Prelude.{◌≡◌};
ghost use Rattle.pod_path.specs.Hierarchy.{root};
ghost use Rattle.pod_rows.specs.Access.{list_path};
ghost use Rattle.access_index.specs.Listing.{is_listed};

use crate::index_text::{found_text, index_text};
use crate::paths::{PATHS, next_number, paths_of, push_path};
use access_index::AccessIndex;
use pod_base::{List, Mem, NoMemory};
use pod_path::Path;
use std::alloc::Global;

/// Whether the root's list is among the paths.
fn has_root_list(paths: &[Path]) -> bool
    ensures { result ≡ is_listed paths.now (list_path root) }
{
    paths.iter().any(|path| path.as_str() == "/.acl")
}

/// The index of these paths, if the root's list is among them.
fn made(alloc: Global, paths: &List<Path>) -> Mem<Option<AccessIndex>> {
    if !has_root_list(paths.as_slice()) {
        return Ok(None);
    }
    let index = AccessIndex::of(alloc, paths)?;
    Ok(Some(index))
}

/// The index after a change, if the root's list stays.
fn changed(
    alloc: Global,
    index: &AccessIndex,
    added: &List<Path>,
    removed: &List<Path>,
) -> Mem<Option<AccessIndex>> {
    if has_root_list(removed.as_slice()) {
        return Ok(None);
    }
    let next = index.after(alloc, added, removed)?;
    Ok(Some(next))
}

/// What an index finds for a path.
pub(crate) fn find(alloc: Global, paths: &str, path: &str) -> Mem<String> {
    let paths = paths_of(alloc, paths)?;
    let wanted = paths_of(alloc, path)?;
    match made(alloc, &paths)? {
        Some(index) => match wanted.as_slice().first() {
            Some(path) => found_text(alloc, index.find(path)),
            None => Ok(String::from_str(alloc, "no path")?),
        },
        None => Ok(String::from_str(alloc, "no list of the root")?),
    }
}

/// Appends a copy of a path.
fn push_copy(alloc: Global, paths: &mut List<Path>, path: &Path) -> Mem<()> {
    let copy = path.copy(alloc)?;
    match paths.push(alloc, copy) {
        Ok(()) => Ok(()),
        Err(_) => Err(NoMemory),
    }
}

/// Whether the path is one of these.
fn is_one(path: &Path, paths: &List<Path>) -> bool {
    paths
        .as_slice()
        .iter()
        .any(|other| other.as_str() == path.as_str())
}

/// The paths without the removed and with the added ones.
fn paths_after(
    alloc: Global,
    paths: &List<Path>,
    added: &List<Path>,
    removed: &List<Path>,
) -> Mem<List<Path>> {
    let mut after = List::new(alloc);
    for path in paths.as_slice() {
        if !is_one(path, removed) {
            push_copy(alloc, &mut after, path)?;
        }
    }
    for path in added.as_slice() {
        push_copy(alloc, &mut after, path)?;
    }
    Ok(after)
}

/// Whether two indexes find the same for these paths.
fn finds_same(alloc: Global, one: &AccessIndex, other: &AccessIndex, all: &[Path]) -> Mem<bool> {
    let found = index_text(alloc, one, all)?;
    let wanted = index_text(alloc, other, all)?;
    Ok(found.as_str() == wanted.as_str())
}

/// Whether the index finds for these paths what one made anew of its paths finds.
fn is_as_made(alloc: Global, index: &AccessIndex, paths: &List<Path>, all: &[Path]) -> Mem<bool> {
    match made(alloc, paths)? {
        Some(anew) => finds_same(alloc, index, &anew, all),
        None => Ok(false),
    }
}

/// An index, its paths, and how many indexes before it found what one made anew finds.
#[derive(Drop)]
struct RunState {
    index: AccessIndex,
    paths: List<Path>,
    same: usize,
}

/// The run after one more change, if the root's list stays.
fn step(
    alloc: Global,
    run: &RunState,
    added: &List<Path>,
    removed: &List<Path>,
    all: &[Path],
) -> Mem<Option<RunState>> {
    let paths = paths_after(alloc, &run.paths, added, removed)?;
    match changed(alloc, &run.index, added, removed)? {
        Some(index) => {
            let holds = is_as_made(alloc, &index, &paths, all)?;
            let same = run.same.saturating_add(if holds { 1 } else { 0 });
            Ok(Some(RunState { index, paths, same }))
        }
        None => Ok(None),
    }
}

/// The paths of a change's words with this sign.
fn signed(alloc: Global, change: &str, sign: &str) -> Mem<List<Path>> {
    let mut paths = List::new(alloc);
    for word in change.split(' ') {
        if let Some(text) = word.strip_prefix(sign) {
            push_path(alloc, &mut paths, text)?;
        }
    }
    Ok(paths)
}

/// The run after a change's words.
fn word_step(alloc: Global, run: &RunState, change: &str) -> Mem<Option<RunState>> {
    let added = signed(alloc, change, "+")?;
    let removed = signed(alloc, change, "-")?;
    let mut all = paths_after(alloc, &run.paths, &added, &removed)?;
    for path in removed.as_slice() {
        push_copy(alloc, &mut all, path)?;
    }
    step(alloc, run, &added, &removed, all.as_slice())
}

/// The run of an index as it is made.
fn start(alloc: Global, paths: List<Path>) -> Mem<Option<RunState>> {
    match made(alloc, &paths)? {
        Some(index) => Ok(Some(RunState {
            index,
            paths,
            same: 0,
        })),
        None => Ok(None),
    }
}

/// The run after changes, if the root's list stays.
fn word_steps(alloc: Global, first: RunState, changes: &[&str]) -> Mem<Option<RunState>> {
    let mut run = first;
    for change in changes {
        match word_step(alloc, &run, change)? {
            Some(next) => run = next,
            None => return Ok(None),
        }
    }
    Ok(Some(run))
}

/// What an index finds for its paths after so many changes.
fn run_text(alloc: Global, run: &RunState, count: usize) -> Mem<String> {
    let text = index_text(alloc, &run.index, run.paths.as_slice())?;
    Ok(format!(in alloc; "{} of {count} as made anew: {text}", run.same)?)
}

/// What an index finds for its paths after changes.
pub(crate) fn run(alloc: Global, paths: &str, changes: &[&str]) -> Mem<String> {
    let last = match start(alloc, paths_of(alloc, paths)?)? {
        Some(first) => word_steps(alloc, first, changes)?,
        None => None,
    };
    match last {
        Some(run) => run_text(alloc, &run, changes.len()),
        None => Ok(String::from_str(alloc, "no list of the root")?),
    }
}

/// The paths of runs that are made here whose bits are set.
fn chosen(alloc: Global, bits: u32) -> Mem<List<Path>> {
    let mut paths = List::new(alloc);
    let mut rest = bits;
    for text in PATHS {
        if rest % 2 == 1 {
            push_path(alloc, &mut paths, text)?;
        }
        rest /= 2;
    }
    Ok(paths)
}

/// The upper half of a number.
fn upper(number: u64) -> u32 {
    (number >> 32) as u32
}

/// The run after a turn of paths: those that are there are removed, and the others added.
fn turn(
    alloc: Global,
    run: &RunState,
    bits: u32,
    turned: u32,
    all: &[Path],
) -> Mem<Option<RunState>> {
    let added = chosen(alloc, turned & !bits)?;
    let removed = chosen(alloc, turned & bits)?;
    step(alloc, run, &added, &removed, all)
}

/// The run after some turns from a number: each turns about one path of eight. The second path, the
/// root's list, is never removed.
fn turns(alloc: Global, first: RunState, seed: u64, count: u32) -> Mem<Option<RunState>> {
    let all = chosen(alloc, u32::MAX)?;
    let mut number = seed;
    let mut bits = 2;
    let mut run = first;
    for _ in 0..count {
        let first = next_number(number);
        let second = next_number(first);
        number = next_number(second);
        let turned = upper(first) & upper(second) & upper(number) & !2;
        match turn(alloc, &run, bits, turned, all.as_slice())? {
            Some(next) => run = next,
            None => return Ok(None),
        }
        bits ^= turned;
    }
    Ok(Some(run))
}

/// A run of changes from a seed.
pub(crate) fn random(alloc: Global, seed: &str, count: &str) -> Mem<String> {
    let seed: u64 = seed.parse().unwrap_or(0);
    let count: u32 = count.parse().unwrap_or(0);
    let last = match start(alloc, chosen(alloc, 2)?)? {
        Some(first) => turns(alloc, first, seed, count)?,
        None => None,
    };
    match last {
        Some(run) => Ok(format!(in alloc; "{} of {count} as made anew", run.same)?),
        None => Ok(String::from_str(alloc, "no list of the root")?),
    }
}
