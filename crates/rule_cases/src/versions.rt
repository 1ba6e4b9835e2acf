//! Cases of versions of a pod, and of the indexes of their access lists.
//!
//! Calls on an index have the paths of the index in the first field, with a space between.
//!
//! | Fields | Result |
//! |---|---|
//! | `index-find` PATHS PATH | the path whose list is found, and `own` or `inherited` |
//! | `index-run` PATHS CHANGE.. | after how many changes the index found what one made anew finds, and what is found for each path after the last |
//! | `index-random` SEED COUNT | the same of a run of changes of the program's own making |
//!
//! A change has `+` before each path that is added, and `-` before each that is removed.
//!
//! | Fields | Result |
//! |---|---|
//! | `run` ENTRY.. | whether the version was as one list of rows after each entry, what governs each path, and the effects that are kept |
//! | `random` SEED COUNT | after how many entries of the program's own making the version was as the list, a copy of it too, and the version before as it was |
//! | `replayed` SEED COUNT | whether a replay of these entries, and a version that is moved on by them, come to the same version |
//! | `window` COUNT | which effects are kept after so many entries that touch the root |
//! | `fill` COUNT | whether a pod of so many rows has a state and a version, at how many of six paths they have the same, and at how many a search makes at most 33 comparisons |
//!
//! An entry is words with a sign before a path. `+` puts a row, `*` changes a graph, `~` touches a
//! row and `-` removes it. An entry that doesn't apply is left out.

use crate::{full_pods, index_runs, replays, version_runs};
use pod_base::Mem;
use std::alloc::Global;

/// What the libraries return for a call and the other fields of a case.
pub(crate) fn answer(alloc: Global, call: &str, fields: &[&str]) -> Mem<String> {
    match (call, fields) {
        ("index-find", [paths, path]) => index_runs::find(alloc, paths, path),
        ("index-run", [paths, changes @ ..]) => index_runs::run(alloc, paths, changes),
        ("index-random", [seed, count]) => index_runs::random(alloc, seed, count),
        ("run", entries) => version_runs::run(alloc, entries),
        ("random", [seed, count]) => version_runs::random(alloc, seed, count),
        ("replayed", [seed, count]) => replays::replayed(alloc, seed, count),
        ("window", [count]) => version_runs::window(alloc, count),
        ("fill", [count]) => full_pods::fill(alloc, count),
        _ => Ok(String::from_str(alloc, "no case")?),
    }
}
