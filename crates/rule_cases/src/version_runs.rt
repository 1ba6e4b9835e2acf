//! Cases of a version beside a plain list of rows.

use crate::entries::{entry, pod_of};
use crate::paths::{all_paths, next_number};
use crate::version_text::{access_text, effects_text, is_same};
use pod_base::{Mem, NoMemory};
use pod_command::Entry;
use pod_pages::Version;
use pod_path::Path;
use pod_records::fits as fits_touched;
use pod_rows::{PlainRows, PodState, StateFault, fits};
use std::alloc::Global;

/// A state as one list of rows and a version, and how many entries applied, and after how many of
/// them both were the same.
#[derive(Drop)]
pub(crate) struct Both {
    plain: PlainRows,
    pub(crate) version: Version,
    pub(crate) applied: usize,
    same: usize,
}

/// The state of a pod that is well-formed.
fn state_of<S>(found: Result<S, StateFault>) -> Mem<S> {
    match found {
        Ok(state) => Ok(state),
        Err(_) => Err(NoMemory),
    }
}

/// Both of a new pod.
pub(crate) fn start(alloc: Global) -> Mem<Both> {
    let snapshot = pod_of(alloc, 2)?;
    let plain = state_of(PlainRows::of(alloc, &snapshot))?;
    let version = state_of(Version::of(alloc, snapshot))?;
    Ok(Both {
        plain,
        version,
        applied: 0,
        same: 0,
    })
}

/// The version after an entry, if it applies to it by what its edits touch.
fn version_after(alloc: Global, version: &Version, entry: &Entry) -> Mem<Option<Version>> {
    if fits_touched(alloc, version, entry)? {
        let next = version.after(alloc, entry)?;
        Ok(Some(next))
    } else {
        Ok(None)
    }
}

/// The list of rows after an entry, if it applies.
fn plain_after(alloc: Global, plain: &PlainRows, entry: &Entry) -> Mem<Option<PlainRows>> {
    if fits(alloc, plain, entry)? {
        let next = plain.after(alloc, entry)?;
        Ok(Some(next))
    } else {
        Ok(None)
    }
}

/// Whether a copy of a version is the same as a list of rows.
fn is_copy_same(alloc: Global, plain: &PlainRows, version: &Version, paths: &[Path]) -> Mem<bool> {
    let copy = version.share(alloc)?;
    is_same(alloc, plain, &copy, paths)
}

/// Whether the new list and the new version are the same, and the old version is as it was.
fn holds(
    alloc: Global,
    old: &Both,
    plain: &PlainRows,
    version: &Version,
    paths: &[Path],
) -> Mem<bool> {
    if !is_same(alloc, plain, version, paths)? {
        return Ok(false);
    }
    if !is_copy_same(alloc, plain, version, paths)? {
        return Ok(false);
    }
    is_same(alloc, &old.plain, &old.version, paths)
}

/// One more.
fn more(count: usize) -> usize {
    count.saturating_add(1)
}

/// Goes on to these, and counts whether both are the same.
fn go_on(
    alloc: Global,
    both: &mut Both,
    plain: PlainRows,
    version: Version,
    paths: &[Path],
) -> Mem<bool> {
    let same = holds(alloc, both, &plain, &version, paths);
    both.plain = plain;
    both.version = version;
    both.applied = more(both.applied);
    if same? {
        both.same = more(both.same);
    }
    Ok(true)
}

/// Goes on to the list after an entry and to the version after it. Where there is none, the entry
/// counts as one that applied, after which they aren't the same.
fn version_step(
    alloc: Global,
    both: &mut Both,
    plain: PlainRows,
    entry: &Entry,
    paths: &[Path],
) -> Mem<bool> {
    match version_after(alloc, &both.version, entry) {
        Ok(Some(version)) => go_on(alloc, both, plain, version, paths),
        Ok(None) => {
            both.applied = more(both.applied);
            Ok(true)
        }
        Err(none) => Err(none),
    }
}

/// Goes on to what follows an entry, if it applies; whether it does.
fn entry_step(alloc: Global, both: &mut Both, entry: &Entry, paths: &[Path]) -> Mem<bool> {
    match plain_after(alloc, &both.plain, entry)? {
        Some(plain) => version_step(alloc, both, plain, entry, paths),
        None => {
            let applies = fits_touched(alloc, &both.version, entry)?;
            if applies {
                both.applied = more(both.applied);
            }
            Ok(applies)
        }
    }
}

/// The same of the entry of words.
fn step(alloc: Global, both: &mut Both, words: &str, paths: &[Path]) -> Mem<bool> {
    let entry = entry(alloc, both.plain.next(), words)?;
    entry_step(alloc, both, &entry, paths)
}

/// Goes on by entries.
fn run_entries(alloc: Global, both: &mut Both, entries: &[&str]) -> Mem<()> {
    let paths = all_paths(alloc)?;
    for words in entries {
        let _applies = step(alloc, both, words, paths.as_slice())?;
    }
    Ok(())
}

/// How many versions were the same, and what the last one has.
fn both_text(alloc: Global, both: &Both) -> Mem<String> {
    let access = access_text(alloc, &both.version)?;
    let effects = effects_text(alloc, &both.version)?;
    Ok(format!(in alloc;
        "{} of {} the same; {access}{effects}",
        both.same, both.applied
    )?)
}

/// A version after entries.
pub(crate) fn run(alloc: Global, entries: &[&str]) -> Mem<String> {
    let mut both = start(alloc)?;
    run_entries(alloc, &mut both, entries)?;
    both_text(alloc, &both)
}

/// A word of an edit.
fn push_word(text: &mut String, version: &Version, path: &Path, choice: u64) -> Mem<()> {
    if !text.is_empty() {
        text.push(' ')?;
    }
    let sign = if version.find(path).is_none() {
        "+"
    } else {
        match choice % 6 {
            0 => "~",
            1 => "+",
            2 => "*",
            _ => "-",
        }
    };
    text.push_str(sign)?;
    text.push_str(path.as_str())?;
    Ok(())
}

/// The words of an entry, and the next number.
fn words(alloc: Global, version: &Version, paths: &[Path], number: u64) -> Mem<(String, u64)> {
    let mut text = String::new(alloc);
    let mut now = next_number(number);
    let count = (now >> 40) % 4;
    for _ in 0..count + 1 {
        now = next_number(now);
        let place = (now >> 33) % 26;
        if let Some(path) = paths.get(place as usize) {
            push_word(&mut text, version, path, now >> 50)?;
        }
    }
    Ok((text, now))
}

/// Goes on by the entry of a number, and adds its words if it applies. Gives the next number.
fn random_step(
    alloc: Global,
    both: &mut Both,
    applied: &mut Vec<String>,
    paths: &[Path],
    number: u64,
) -> Mem<u64> {
    let (text, next) = words(alloc, &both.version, paths, number)?;
    if step(alloc, both, text.as_str(), paths)? {
        applied.push(text)?;
    }
    Ok(next)
}

/// Goes on by a run from a seed, until so many entries applied, or 64 times as many were tried; adds
/// the words of the entries that applied.
pub(crate) fn run_random(
    alloc: Global,
    both: &mut Both,
    applied: &mut Vec<String>,
    seed: &str,
    count: &str,
) -> Mem<()> {
    let mut number: u64 = seed.parse().unwrap_or(0);
    let count: usize = count.parse().unwrap_or(0);
    let paths = all_paths(alloc)?;
    for _ in 0..count.saturating_mul(64) {
        if both.applied >= count {
            break;
        }
        number = random_step(alloc, both, applied, paths.as_slice(), number)?;
    }
    Ok(())
}

/// A run from a seed, until so many entries applied, or 64 times as many were tried.
pub(crate) fn random(alloc: Global, seed: &str, count: &str) -> Mem<String> {
    let mut both = start(alloc)?;
    let mut applied = Vec::new(alloc);
    run_random(alloc, &mut both, &mut applied, seed, count)?;
    Ok(format!(in alloc; "{} of {} the same", both.same, both.applied)?)
}

/// Which effects a version keeps.
fn window_text(alloc: Global, version: &Version) -> Mem<String> {
    let effects = version.effects();
    let first = match effects.first() {
        Some(effect) => effect.seq,
        None => version.seq(),
    };
    let (oldest, kept) = (version.oldest(), effects.len());
    Ok(format!(in alloc; "from {oldest}: {kept} effects, the first of {first}")?)
}

/// How many effects a version keeps after so many touches of the root, and of which entries.
pub(crate) fn window(alloc: Global, count: &str) -> Mem<String> {
    let count: u32 = count.parse().unwrap_or(0);
    let mut both = start(alloc)?;
    for _ in 0..count {
        let _applies = step(alloc, &mut both, "~/", &[])?;
    }
    window_text(alloc, &both.version)
}
