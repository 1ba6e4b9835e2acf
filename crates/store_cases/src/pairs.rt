//! What two disks are opened as.

use crate::disks::{crash_image, is_noted, no_such_call};
use crate::images::image;
use case_words::{numbers_of, shown};
use journal_log::OpenFault;
use journal_pair::Pair;
use pod_base::{Bytes, List, Mem, NoMemory};
use pod_disk::MemDisk;
use std::alloc::Global;

/// A disk of a field, on which the calls of these numbers fail.
pub(crate) fn disk(alloc: Global, field: &str, failing: &str) -> Mem<MemDisk> {
    MemDisk::new(
        alloc,
        image(alloc, field)?,
        numbers_of(alloc, failing, ',')?,
    )
}

/// The side, format and epoch of a pair, and its records.
fn told(alloc: Global, pair: &Pair, records: &List<Bytes>) -> Mem<String> {
    let (side, format, epoch) = (pair.active(), pair.format(), pair.epoch());
    let mut text = format!(in alloc; "{side} {format} {epoch}")?;
    for record in records.as_slice() {
        text.push(' ')?;
        text.push_str(shown(alloc, record.as_slice())?.as_str())?;
    }
    Ok(text)
}

/// What two disks are opened as.
fn open(alloc: Global, first: &mut MemDisk, second: &mut MemDisk) -> Mem<String> {
    match Pair::open(alloc, first, second) {
        Ok((pair, records)) => told(alloc, &pair, &records),
        Err(OpenFault::NoMemory) => Err(NoMemory),
        Err(fault) => Ok(format!(in alloc; "{fault}")?),
    }
}

/// What disks of these bytes are opened as.
fn opened(alloc: Global, first: Vec<u8>, second: Vec<u8>) -> Mem<String> {
    let mut first = MemDisk::new(alloc, first, Vec::new(alloc))?;
    let mut second = MemDisk::new(alloc, second, Vec::new(alloc))?;
    open(alloc, &mut first, &mut second)
}

/// What disks of these fields are opened as.
pub(crate) fn opens_once(alloc: Global, fields: (&str, &str)) -> Mem<String> {
    opened(alloc, image(alloc, fields.0)?, image(alloc, fields.1)?)
}

/// What two disks are opened as three times, one after the other.
fn open_thrice(alloc: Global, first: &mut MemDisk, second: &mut MemDisk) -> Mem<String> {
    let one = open(alloc, first, second)?;
    let two = open(alloc, first, second)?;
    let three = open(alloc, first, second)?;
    Ok(format!(in alloc; "{one}, {two}, {three}")?)
}

/// What disks of these fields are opened as three times, one after the other.
pub(crate) fn opens(alloc: Global, fields: (&str, &str), failing: (&str, &str)) -> Mem<String> {
    let mut first = disk(alloc, fields.0, failing.0)?;
    let mut second = disk(alloc, fields.1, failing.1)?;
    open_thrice(alloc, &mut first, &mut second)
}

/// What a crash leaves of two disks, opened.
pub(crate) fn after_crash(
    alloc: Global,
    first: &MemDisk,
    second: &MemDisk,
    crash: (&str, &str),
) -> Mem<String> {
    if !is_noted(first, crash.0) || !is_noted(second, crash.1) {
        return no_such_call(alloc);
    }
    let left = crash_image(alloc, first, crash.0)?;
    opened(alloc, left, crash_image(alloc, second, crash.1)?)
}

/// Opens two disks, and gives what a crash leaves of them, opened.
fn open_crashed(
    alloc: Global,
    first: &mut MemDisk,
    second: &mut MemDisk,
    crash: (&str, &str),
) -> Mem<String> {
    let _outcome = open(alloc, first, second)?;
    after_crash(alloc, first, second, crash)
}

/// What a crash while disks of these fields are opened leaves of them, opened.
pub(crate) fn open_crashes(
    alloc: Global,
    fields: (&str, &str),
    failing: (&str, &str),
    crash: (&str, &str),
) -> Mem<String> {
    let mut first = disk(alloc, fields.0, failing.0)?;
    let mut second = disk(alloc, fields.1, failing.1)?;
    open_crashed(alloc, &mut first, &mut second, crash)
}
