//! Paths of cases, and the numbers of runs that are made here.

use case_words::path_or_root;
use pod_base::{List, Mem, NoMemory};
use pod_path::Path;
use std::alloc::Global;

/// The paths of the runs that are made here.
pub(crate) const PATHS: [&str; 26] = [
    "/",
    "/.acl",
    "/.meta",
    "/a",
    "/a.acl",
    "/a.meta",
    "/ab",
    "/ab.acl",
    "/a-b",
    "/b/",
    "/b/.acl",
    "/b/.meta",
    "/b/c",
    "/b/c.acl",
    "/b/c.meta",
    "/b/d/",
    "/b/d/.acl",
    "/b/d/e",
    "/b/d/e.acl",
    "/b/d/f/",
    "/b/d/f/.acl",
    "/b/d/f/g",
    "/b/d/f/g.acl",
    "/bc",
    "/bc.acl",
    "/c",
];

/// The paths of these runs.
pub(crate) fn all_paths(alloc: Global) -> Mem<Vec<Path>> {
    let mut paths = Vec::new(alloc);
    for text in PATHS {
        paths.push(path_or_root(alloc, text)?)?;
    }
    Ok(paths)
}

/// Appends the path with a text, if it is one.
pub(crate) fn push_path(alloc: Global, paths: &mut List<Path>, text: &str) -> Mem<()> {
    match Path::of_text(alloc, text)? {
        Some(path) => match paths.push(alloc, path) {
            Ok(()) => Ok(()),
            Err(_) => Err(NoMemory),
        },
        None => Ok(()),
    }
}

/// The paths of words with a space between.
pub(crate) fn paths_of(alloc: Global, text: &str) -> Mem<List<Path>> {
    let mut paths = List::new(alloc);
    for word in text.split(' ') {
        push_path(alloc, &mut paths, word)?;
    }
    Ok(paths)
}

/// The next number of a generator.
pub(crate) fn next_number(number: u64) -> u64 {
    number
        .wrapping_mul(6_364_136_223_846_793_005)
        .wrapping_add(1_442_695_040_888_963_407)
}
