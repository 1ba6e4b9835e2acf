//! Calls of a disk in memory, and what a crash leaves of it. A call is a field: `len`, `read AT
//! COUNT`, `write AT BYTES`, `cut LEN` or `sync`.

use crate::tears::tears;
use case_words::{bytes, first_word, number_of, shown};
use pod_base::Mem;
use pod_disk::{Call, Disk, MemDisk, NotedCall};
use pod_io::Failed;
use std::alloc::Global;

fn read(disk: &mut MemDisk, at: u64, into: &mut [u8]) -> Result<(), Failed> {
    let len = disk.bytes().len();
    if at > len as u64 || into.len() > len - at as usize {
        return Err(Failed);
    }
    disk.read(at, into)
}

fn write(disk: &mut MemDisk, at: u64, bytes: &[u8]) -> Result<(), Failed> {
    if at > disk.bytes().len() as u64 {
        return Err(Failed);
    }
    disk.write_at(at, bytes)
}

fn cut(disk: &mut MemDisk, len: u64) -> Result<(), Failed> {
    if len > disk.bytes().len() as u64 {
        return Err(Failed);
    }
    disk.cut(len)
}

fn done(alloc: Global, outcome: Result<(), Failed>) -> Mem<String> {
    match outcome {
        Ok(()) => Ok(String::from_str(alloc, "ok")?),
        Err(Failed) => Ok(String::from_str(alloc, "failed")?),
    }
}

fn measured(alloc: Global, disk: &mut MemDisk) -> Mem<String> {
    match disk.len() {
        Ok(len) => Ok(format!(in alloc; "{len}")?),
        Err(failed) => done(alloc, Err(failed)),
    }
}

fn bytes_read(alloc: Global, disk: &mut MemDisk, at: u64, count: u64) -> Mem<String> {
    let mut into = vec![in alloc; 0u8; count.min(65_536) as usize]?;
    match read(disk, at, &mut into) {
        Ok(()) => Ok(shown(alloc, &into)?),
        Err(failed) => done(alloc, Err(failed)),
    }
}

/// Makes a call, and gives its outcome. One whose range lies outside the disk fails without a call.
fn outcome(alloc: Global, disk: &mut MemDisk, field: &str) -> Mem<String> {
    let (word, rest) = first_word(field);
    let (first, second) = first_word(rest);
    match word {
        "len" => measured(alloc, disk),
        "read" => bytes_read(alloc, disk, number_of(first), number_of(second)),
        "write" => {
            let bytes = bytes(alloc, second)?;
            let written = write(disk, number_of(first), &bytes);
            done(alloc, written)
        }
        "cut" => {
            let cut = cut(disk, number_of(first));
            done(alloc, cut)
        }
        "sync" => {
            let synced = disk.sync();
            done(alloc, synced)
        }
        _ => Ok(String::from_str(alloc, "no call")?),
    }
}

/// A disk of these bytes whose call of this number fails.
fn failing_at(alloc: Global, image: Vec<u8>, failing: u64) -> Mem<MemDisk> {
    MemDisk::new(alloc, image, vec![in alloc; failing]?)
}

/// Makes these calls, and gives their outcomes.
fn make(alloc: Global, disk: &mut MemDisk, calls: &[&str]) -> Mem<String> {
    let mut text = String::new(alloc);
    for field in calls {
        let one = outcome(alloc, disk, field)?;
        text.push_str(one.as_str())?;
        text.push(' ')?;
    }
    Ok(text)
}

/// Makes these calls, and gives their outcomes, then how many calls the disk has noted, and what it
/// holds.
fn made(alloc: Global, disk: &mut MemDisk, calls: &[&str]) -> Mem<String> {
    let text = make(alloc, disk, calls)?;
    let held = shown(alloc, disk.bytes())?;
    Ok(format!(in alloc; "{text}{} {held}", disk.noted().len())?)
}

/// The outcomes of these calls on a disk of these bytes whose call of this number fails, then how
/// many calls it has noted, and what it holds.
pub(crate) fn outcomes(alloc: Global, image: Vec<u8>, failing: u64, calls: &[&str]) -> Mem<String> {
    let mut disk = failing_at(alloc, image, failing)?;
    made(alloc, &mut disk, calls)
}

/// What is said of a crash after calls that weren't made.
pub(crate) fn no_such_call(alloc: Global) -> Mem<String> {
    Ok(String::from_str(alloc, "no such call")?)
}

/// What a crash after so many calls leaves of a disk, with these tears.
pub(crate) fn crash(alloc: Global, disk: &MemDisk, count: u64, field: &str) -> Mem<String> {
    if count > disk.noted().len() as u64 {
        return no_such_call(alloc);
    }
    let left = disk.crash(alloc, count as usize, &tears(alloc, field)?)?;
    Ok(shown(alloc, left.as_slice())?)
}

/// Makes these calls, and gives what a crash after so many of them leaves.
fn crashed(
    alloc: Global,
    disk: &mut MemDisk,
    count: u64,
    field: &str,
    calls: &[&str],
) -> Mem<String> {
    let _outcomes = make(alloc, disk, calls)?;
    crash(alloc, disk, count, field)
}

/// What a crash after so many calls leaves of a disk of these bytes whose call of this number fails.
pub(crate) fn crashes(
    alloc: Global,
    image: Vec<u8>,
    failing: u64,
    count: u64,
    field: &str,
    calls: &[&str],
) -> Mem<String> {
    let mut disk = failing_at(alloc, image, failing)?;
    crashed(alloc, &mut disk, count, field, calls)
}

/// Whether a disk has noted as many calls as a crash is after: `COUNT`, or `COUNT TEARS`.
pub(crate) fn is_noted(disk: &MemDisk, field: &str) -> bool {
    let (count, _tears) = first_word(field);
    number_of(count) <= disk.noted().len() as u64
}

/// What a crash leaves of a disk after so many calls, with these tears, or for `-` what it holds.
pub(crate) fn crash_image(alloc: Global, disk: &MemDisk, field: &str) -> Mem<Vec<u8>> {
    let (count, torn) = first_word(field);
    match count.parse::<usize>() {
        Ok(count) => {
            let count = count.min(disk.noted().len());
            disk.crash(alloc, count, &tears(alloc, torn)?)
        }
        Err(_) => Ok(disk.bytes().to_vec(alloc)?),
    }
}

fn letter(call: &Call) -> char {
    match call {
        Call::Length => 'l',
        Call::Read { .. } => 'r',
        Call::Write { .. } => 'w',
        Call::Cut { .. } => 'c',
        Call::Sync => 's',
    }
}

/// Calls that a disk has noted, a letter each.
pub(crate) fn letters(alloc: Global, calls: &[NotedCall]) -> Mem<String> {
    let mut letters = String::new(alloc);
    for noted in calls {
        letters.push(letter(&noted.call))?;
    }
    Ok(letters)
}
