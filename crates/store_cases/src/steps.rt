//! Steps of a store, a field each: `open` or `init BODY` first, and then `append BODY`, `repair`
//! and `checkpoint BODY`.

use crate::disks::letters;
use crate::pairs::{after_crash, disk};
use crate::store::Store;
use case_words::{bytes, first_word, shown};
use journal_log::{DiskFault, Framed, OpenFault, frame};
use pod_base::Mem;
use pod_disk::MemDisk;
use std::alloc::Global;

/// A step after the first one.
#[derive(Drop)]
enum Step {
    Append(Framed),
    Checkpoint(Framed),
    Repair,
}

fn step_of(alloc: Global, field: &str) -> Mem<Step> {
    let (word, body) = first_word(field);
    let framed = frame(alloc, &bytes(alloc, body)?)?;
    match word {
        "append" => Ok(Step::Append(framed)),
        "checkpoint" => Ok(Step::Checkpoint(framed)),
        _ => Ok(Step::Repair),
    }
}

fn take(store: &mut Store, step: &Step) -> &'static str {
    match step {
        Step::Append(framed) => store.append(framed),
        Step::Checkpoint(snapshot) => store.checkpoint(snapshot),
        Step::Repair => store.repair(),
    }
}

/// The outcome of each of these steps, a word each.
fn outcomes(alloc: Global, store: &mut Store, fields: &[&str]) -> Mem<String> {
    let mut text = String::new(alloc);
    for field in fields {
        let step = step_of(alloc, field)?;
        text.push_str(take(store, &step))?;
        text.push(' ')?;
    }
    Ok(text)
}

/// Why a store is not begun.
#[derive(Clone, Copy)]
enum Refusal {
    /// One of its disks holds something.
    NotEmpty,
    /// A disk failed.
    Disk(DiskFault),
    /// It was not opened.
    Open(OpenFault),
}

fn refusal_text(alloc: Global, refusal: Refusal) -> Mem<String> {
    match refusal {
        Refusal::NotEmpty => Ok(String::from_str(alloc, "not empty")?),
        Refusal::Disk(fault) => Ok(format!(in alloc; "{fault}")?),
        Refusal::Open(fault) => Ok(format!(in alloc; "{fault}")?),
    }
}

/// The store after the first step on two disks.
fn started(
    alloc: Global,
    first: MemDisk,
    second: MemDisk,
    word: &str,
    snapshot: &Framed,
) -> Result<Store, Refusal> {
    if word != "init" {
        return match Store::open(alloc, first, second) {
            Ok(store) => Ok(store),
            Err(fault) => Err(Refusal::Open(fault)),
        };
    }
    if !first.bytes().is_empty() || !second.bytes().is_empty() {
        return Err(Refusal::NotEmpty);
    }
    match Store::init(first, second, snapshot) {
        Ok(store) => Ok(store),
        Err(fault) => Err(Refusal::Disk(fault)),
    }
}

/// The store after the first step on disks of these fields.
fn begun(
    alloc: Global,
    disks: (&str, &str),
    failing: (&str, &str),
    start: &str,
) -> Mem<Result<Store, Refusal>> {
    let (word, body) = first_word(start);
    let snapshot = frame(alloc, &bytes(alloc, body)?)?;
    let first = disk(alloc, disks.0, failing.0)?;
    let second = disk(alloc, disks.1, failing.1)?;
    Ok(started(alloc, first, second, word, &snapshot))
}

/// The outcomes of steps of a store, and what a crash leaves of its disks, opened.
fn crashed(alloc: Global, store: &mut Store, crash: (&str, &str), fields: &[&str]) -> Mem<String> {
    let outcomes = outcomes(alloc, store, fields)?;
    let then = after_crash(alloc, store.first(), store.second(), crash)?;
    Ok(format!(in alloc; "{outcomes}{then}")?)
}

/// The calls of the disks of a store, a letter each, and what they hold.
fn called(alloc: Global, store: &mut Store, fields: &[&str]) -> Mem<String> {
    let _outcomes = outcomes(alloc, store, fields)?;
    let (first, second) = (store.first(), store.second());
    let calls = (
        letters(alloc, first.noted())?,
        letters(alloc, second.noted())?,
    );
    let held = (shown(alloc, first.bytes())?, shown(alloc, second.bytes())?);
    Ok(format!(in alloc; "{} {} {} {}", calls.0, calls.1, held.0, held.1)?)
}

/// The outcomes of steps on disks of these fields, and what a crash leaves of them, opened.
pub(crate) fn crashes(
    alloc: Global,
    disks: (&str, &str),
    failing: (&str, &str),
    crash: (&str, &str),
    fields: &[&str],
) -> Mem<String> {
    match fields {
        [start, steps @ ..] => match begun(alloc, disks, failing, start)? {
            Ok(mut store) => crashed(alloc, &mut store, crash, steps),
            Err(refusal) => refusal_text(alloc, refusal),
        },
        [] => Ok(String::from_str(alloc, "no step")?),
    }
}

/// The calls of disks of these fields, and what they hold after these steps.
pub(crate) fn calls(alloc: Global, disks: (&str, &str), fields: &[&str]) -> Mem<String> {
    match fields {
        [start, steps @ ..] => match begun(alloc, disks, ("", ""), start)? {
            Ok(mut store) => called(alloc, &mut store, steps),
            Err(refusal) => refusal_text(alloc, refusal),
        },
        [] => Ok(String::from_str(alloc, "no step")?),
    }
}
