//! Cases of entries that are replayed in place.

use crate::entries::{entry, pod_of};
use crate::paths::all_paths;
use crate::version_runs::{run_random, start};
use crate::version_text::{effects_text, is_same};
use pod_base::{Mem, NoMemory};
use pod_command::Entry;
use pod_pages::{Replay, Version};
use pod_path::Path;
use pod_records::fits as fits_touched;
use pod_rows::PodState;
use std::alloc::Global;

/// The replay of a new pod.
fn first_replay(alloc: Global) -> Mem<Replay> {
    match Replay::of(alloc, pod_of(alloc, 2)?) {
        Ok(replay) => Ok(replay),
        Err(_) => Err(NoMemory),
    }
}

/// The replay after an entry, if it applies.
fn replay_after(alloc: Global, replay: Replay, entry: &Entry) -> Mem<Option<Replay>> {
    if !fits_touched(alloc, replay.version(), entry)? {
        return Ok(None);
    }
    let next = replay.after(alloc, entry)?;
    Ok(Some(next))
}

/// The replay after the entry of words, if it applies.
fn replay_words(alloc: Global, replay: Replay, words: &str) -> Mem<Option<Replay>> {
    let entry = entry(alloc, replay.version().next(), words)?;
    replay_after(alloc, replay, &entry)
}

/// The version to which entries come, if each of them applies.
fn version_replayed(alloc: Global, entries: &[String]) -> Mem<Option<Version>> {
    let mut replay = first_replay(alloc)?;
    for words in entries {
        match replay_words(alloc, replay, words.as_str())? {
            Some(next) => replay = next,
            None => return Ok(None),
        }
    }
    Ok(Some(replay.into_version()))
}

/// The version of a new pod.
fn first_version(alloc: Global) -> Mem<Version> {
    match Version::of(alloc, pod_of(alloc, 2)?) {
        Ok(version) => Ok(version),
        Err(_) => Err(NoMemory),
    }
}

/// Moves a version on to what follows the entry of words; whether it applies.
fn advance_words(alloc: Global, version: &mut Version, words: &str) -> Mem<bool> {
    let entry = entry(alloc, version.next(), words)?;
    if !fits_touched(alloc, version, &entry)? {
        return Ok(false);
    }
    version.advance(alloc, &entry)?;
    Ok(true)
}

/// The version to which a new pod is moved on by entries.
fn version_advanced(alloc: Global, entries: &[String]) -> Mem<Version> {
    let mut version = first_version(alloc)?;
    for words in entries {
        let _applies = advance_words(alloc, &mut version, words.as_str())?;
    }
    Ok(version)
}

/// Whether a new pod that is moved on by entries has the same as a version, and no effects.
fn is_advanced_same(
    alloc: Global,
    version: &Version,
    entries: &[String],
    paths: &[Path],
) -> Mem<bool> {
    let advanced = version_advanced(alloc, entries)?;
    if !advanced.effects().is_empty() {
        return Ok(false);
    }
    is_same(alloc, version, &advanced, paths)
}

/// Whether two versions have the same at these paths, and the same effects.
fn are_same(alloc: Global, one: &Version, other: &Version, paths: &[Path]) -> Mem<bool> {
    if !is_same(alloc, one, other, paths)? {
        return Ok(false);
    }
    let wanted = effects_text(alloc, one)?;
    let found = effects_text(alloc, other)?;
    Ok(found.as_str() == wanted.as_str())
}

/// Whether entries that came to a version come to the same in place.
fn replayed_text(alloc: Global, version: &Version, entries: &[String]) -> Mem<&'static str> {
    let paths = all_paths(alloc)?;
    match version_replayed(alloc, entries)? {
        Some(replayed) => {
            if !are_same(alloc, version, &replayed, paths.as_slice())? {
                return Ok("another");
            }
            let same = is_advanced_same(alloc, version, entries, paths.as_slice())?;
            Ok(if same { "the same" } else { "another" })
        }
        None => Ok("an entry doesn't apply"),
    }
}

/// Whether the entries of a run from a seed come to the same in place.
pub(crate) fn replayed(alloc: Global, seed: &str, count: &str) -> Mem<String> {
    let mut both = start(alloc)?;
    let mut applied = Vec::new(alloc);
    run_random(alloc, &mut both, &mut applied, seed, count)?;
    let word = replayed_text(alloc, &both.version, applied.as_slice())?;
    Ok(format!(in alloc; "{word} after {} entries", both.applied)?)
}
