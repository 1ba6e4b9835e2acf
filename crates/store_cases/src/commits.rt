//! Commits of a keeper: steps, a field each: `put PATH TEXT`, `big PATH LEN`, `many PATH LEN COUNT` or
//! `checkpoint`.

use crate::begun::{disk, disks_of, images};
use crate::disks::letters;
use crate::held_keeper::Held;
use crate::requests::put;
use case_words::{first_word, number_of, numbers_of};
use journal_log::OpenFault;
use pod_base::{Bytes, List, Mem, NoMemory};
use pod_core::Answer;
use pod_disk::{Disks, MemDisk};
use pod_keeper::CommitFault;
use pod_rows::PodState;
use std::alloc::Global;

/// The most bytes of a body that a step makes.
const BODY_LIMIT: u64 = 2_000_000;

/// The most commits of a step.
const COUNT_LIMIT: u64 = 1_000;

/// The last 64 calls of a disk, a letter each.
fn last_letters(alloc: Global, disk: &MemDisk) -> Mem<String> {
    let noted = disk.noted();
    letters(alloc, &noted[noted.len().saturating_sub(64)..])
}

/// How many rows and entries a store has, and the number of its next entry.
fn counted(alloc: Global, held: &Held, records: &List<Bytes>) -> Mem<String> {
    let rows = held.version().count();
    let entries = records.len().saturating_sub(1);
    let next = held.seq();
    Ok(format!(in alloc; "rows={rows} entries={entries} next={next}")?)
}

/// How many rows and entries a store has, and the number of its next entry, or why it isn't opened.
pub(crate) fn checked(alloc: Global, first: &[u8], second: &[u8]) -> Mem<String> {
    match Held::open(alloc, disks_of(alloc, first, second)?) {
        Ok((held, records)) => counted(alloc, &held, &records),
        Err(fault) => fault_text(alloc, fault),
    }
}

/// The digit of a head's format and its epoch.
fn head(alloc: Global, bytes: &[u8]) -> Mem<String> {
    match bytes {
        [_, _, _, _, _, _, _, format, _, _, _, _, _, _, _, epoch, ..] => {
            Ok(format!(in alloc; "{}/{epoch}", *format as char)?)
        }
        _ => Ok(String::from_str(alloc, "-")?),
    }
}

/// The outcome of a commit: a status and its place.
fn told(alloc: Global, outcome: Option<Result<Answer, CommitFault>>) -> Mem<String> {
    match outcome {
        Some(Ok(done)) => Ok(format!(in alloc; "{}@{}", done.response.status, done.place)?),
        Some(Err(CommitFault::DiskFault)) => Ok(String::from_str(alloc, "disk")?),
        Some(Err(CommitFault::NoMemory)) => Err(NoMemory),
        None => Ok(String::from_str(alloc, "no change")?),
    }
}

fn commit(alloc: Global, held: &mut Held, path: &str, body: &[u8]) -> Mem<String> {
    let request = put(alloc, path, body)?;
    let outcome = held.commit(alloc, &request)?;
    told(alloc, outcome)
}

fn checkpoint(alloc: Global, held: &mut Held) -> Mem<String> {
    match held.checkpoint(alloc) {
        Ok(()) => Ok(String::from_str(alloc, "ok")?),
        Err(CommitFault::DiskFault) => Ok(String::from_str(alloc, "disk")?),
        Err(CommitFault::NoMemory) => Err(NoMemory),
    }
}

/// A body of that many bytes.
fn body_of(alloc: Global, len: &str) -> Mem<Vec<u8>> {
    Ok(vec![in alloc; 120u8; number_of(len).min(BODY_LIMIT) as usize]?)
}

/// Commits the same PUT so often. The outcome of the last one.
fn many(alloc: Global, held: &mut Held, path: &str, rest: &str) -> Mem<String> {
    let (len, count) = first_word(rest);
    let body = body_of(alloc, len)?;
    let mut last = String::new(alloc);
    for _ in 0..number_of(count).min(COUNT_LIMIT) {
        last = commit(alloc, held, path, &body)?;
    }
    Ok(last)
}

/// Takes one step.
pub(crate) fn step(alloc: Global, held: &mut Held, field: &str) -> Mem<String> {
    let (word, rest) = first_word(field);
    let (path, text) = first_word(rest);
    match word {
        "put" => commit(alloc, held, path, text.as_bytes()),
        "big" => commit(alloc, held, path, &body_of(alloc, text)?),
        "many" => many(alloc, held, path, text),
        "checkpoint" => checkpoint(alloc, held),
        _ => Ok(String::from_str(alloc, "no step")?),
    }
}

/// The keeper of a store whose disks' calls of these numbers fail, or why it isn't opened.
pub(crate) fn opened(
    alloc: Global,
    failing: (&str, &str),
    start: &str,
) -> Mem<Result<Held, OpenFault>> {
    let (first, second) = images(alloc, start)?;
    let first = disk(alloc, &first, numbers_of(alloc, failing.0, ',')?)?;
    let second = disk(alloc, &second, numbers_of(alloc, failing.1, ',')?)?;
    match Held::open(alloc, Disks { first, second }) {
        Ok((held, _records)) => Ok(Ok(held)),
        Err(fault) => Ok(Err(fault)),
    }
}

/// Why a store isn't opened.
pub(crate) fn fault_text(alloc: Global, fault: OpenFault) -> Mem<String> {
    Ok(format!(in alloc; "{fault}")?)
}

/// The outcome of each of these steps, a word each.
fn taken(alloc: Global, held: &mut Held, steps: &[&str]) -> Mem<String> {
    let mut text = String::new(alloc);
    for field in steps {
        let one = step(alloc, held, field)?;
        text.push_str(one.as_str())?;
        text.push(' ')?;
    }
    Ok(text)
}

/// The calls of both disks, their heads, and what they are opened as.
fn shown(alloc: Global, disks: &Disks<MemDisk>) -> Mem<String> {
    let calls = (
        last_letters(alloc, &disks.first)?,
        last_letters(alloc, &disks.second)?,
    );
    let (first, second) = (disks.first.bytes(), disks.second.bytes());
    let heads = (head(alloc, first)?, head(alloc, second)?);
    let held = checked(alloc, first, second)?;
    Ok(format!(in alloc; "{} {} {} {} {held}", calls.0, calls.1, heads.0, heads.1)?)
}

/// The outcomes of steps, and the disks then.
pub(crate) fn outcomes(
    alloc: Global,
    failing: (&str, &str),
    start: &str,
    steps: &[&str],
) -> Mem<String> {
    match opened(alloc, failing, start)? {
        Ok(mut held) => {
            let text = taken(alloc, &mut held, steps);
            let shown = shown(alloc, &held.close());
            Ok(format!(in alloc; "{}{}", text?, shown?)?)
        }
        Err(fault) => fault_text(alloc, fault),
    }
}
