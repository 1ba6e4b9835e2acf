//! Cases of pods with many rows.

use crate::entries::pod_of;
use crate::searches::steps_of;
use crate::version_text::place_text;
use case_words::path_or_root;
use pod_base::{Mem, NoMemory};
use pod_command::Snapshot;
use pod_pages::Version;
use pod_path::Path;
use pod_rows::{PlainRows, PodState, StateFault};
use std::alloc::Global;

/// Paths of pods with many rows, and one with none.
const FULL_PATHS: [&str; 6] = [
    "/",
    "/.acl",
    "/00000/",
    "/00327/00034",
    "/00655/00033",
    "/00655/00034",
];

/// A state of a snapshot, unless it isn't well-formed.
fn made<S>(found: Result<S, StateFault>) -> Mem<Option<S>> {
    match found {
        Ok(state) => Ok(Some(state)),
        Err(StateFault::NotWellFormed) => Ok(None),
        Err(StateFault::NoMemory) => Err(NoMemory),
    }
}

/// Whether both have the same at a path.
fn is_same_at(alloc: Global, plain: &PlainRows, version: &Version, path: &Path) -> Mem<bool> {
    let wanted = place_text(alloc, plain, path)?;
    let found = place_text(alloc, version, path)?;
    Ok(found.as_str() == wanted.as_str())
}

/// The most comparisons that a search may make among 65,536 rows, a number of 17 binary digits.
const MOST_STEPS: u64 = 33;

/// At how many paths a search makes at most as many comparisons.
fn searched_within(alloc: Global, version: &Version) -> Mem<usize> {
    let mut within: usize = 0;
    for text in FULL_PATHS {
        let path = path_or_root(alloc, text)?;
        if steps_of(version, &path) <= MOST_STEPS {
            within = within.saturating_add(1);
        }
    }
    Ok(within)
}

/// How many rows both have, at how many paths they have the same, and at how many a search makes at
/// most 33 comparisons.
fn places_text(alloc: Global, plain: &PlainRows, version: &Version) -> Mem<String> {
    let mut same: usize = 0;
    for text in FULL_PATHS {
        let path = path_or_root(alloc, text)?;
        if is_same_at(alloc, plain, version, &path)? {
            same = same.saturating_add(1);
        }
    }
    let within = searched_within(alloc, version)?;
    let (rows, pages) = (plain.count(), version.count());
    Ok(format!(in alloc;
        "{rows} and {pages} rows, the same at {same} paths, found in at most 33 comparisons at {within}"
    )?)
}

/// What a list of rows and the version of a snapshot have.
fn beside_version(alloc: Global, plain: &Option<PlainRows>, snapshot: Snapshot) -> Mem<String> {
    let version = made(Version::of(alloc, snapshot))?;
    match (plain, &version) {
        (Some(plain), Some(version)) => places_text(alloc, plain, version),
        (None, None) => Ok(String::from_str(alloc, "not well-formed")?),
        _ => Ok(String::from_str(alloc, "the two differ")?),
    }
}

/// Whether there are a state and a version of a pod with so many rows, and at how many paths they
/// have the same.
pub(crate) fn fill(alloc: Global, count: &str) -> Mem<String> {
    let snapshot = pod_of(alloc, count.parse().unwrap_or(0))?;
    let plain = made(PlainRows::of(alloc, &snapshot))?;
    beside_version(alloc, &plain, snapshot)
}
