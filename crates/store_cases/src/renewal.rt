//! Renewals of a disk of any bytes.

use crate::disks::{crash, letters, no_such_call};
use crate::opened::{crash_opened, opened};
use journal_log::{Framed, Journal, RenewFault, frame};
use pod_base::Mem;
use pod_disk::MemDisk;
use std::alloc::Global;

/// What a disk is opened as once its journal is shut, where it has the place of a gate.
fn shut(alloc: Global, disk: &mut MemDisk) -> Mem<String> {
    if disk.bytes().len() < 17 || Journal::shut(disk).is_err() {
        return Ok(String::from_str(alloc, "not shut")?);
    }
    opened(alloc, disk.bytes().to_vec(alloc)?)
}

/// A renewal whose call fails, and then one that does not.
fn renewed_twice(alloc: Global, disk: &mut MemDisk, first: &Framed) -> Mem<String> {
    let fault = Journal::renew(disk, 2, first).err();
    let between = match fault {
        Some(RenewFault::InDoubt) => shut(alloc, disk)?,
        _ => String::from_str(alloc, "-")?,
    };
    let Ok(journal) = Journal::renew(disk, 3, first) else {
        return Ok(String::from_str(alloc, "no renewal")?);
    };
    let (format, epoch, len) = (journal.format(), journal.epoch(), journal.len());
    let then = opened(alloc, disk.bytes().to_vec(alloc)?)?;
    Ok(format!(in alloc; "{fault:?} {between} {format} {epoch} {len} {then}")?)
}

/// A renewal whose call of this number fails, and then one that does not: the fault, what the disk
/// is opened as when it is shut behind a fault in doubt, and what it is opened as at last.
pub(crate) fn fails(alloc: Global, image: Vec<u8>, failing: u64) -> Mem<String> {
    let first = frame(alloc, b"new")?;
    let mut disk = MemDisk::new(alloc, image, vec![in alloc; failing]?)?;
    renewed_twice(alloc, &mut disk, &first)
}

/// A disk that was renewed with one record.
fn renewed(alloc: Global, image: Vec<u8>) -> Mem<MemDisk> {
    let first = frame(alloc, b"new")?;
    let mut disk = MemDisk::new(alloc, image, Vec::new(alloc))?;
    let _renewed = Journal::renew(&mut disk, 2, &first);
    Ok(disk)
}

/// What a crash after so many calls of a renewal is opened as.
pub(crate) fn crashes(alloc: Global, image: Vec<u8>, count: u64, field: &str) -> Mem<String> {
    let disk = renewed(alloc, image)?;
    if count > disk.noted().len() as u64 {
        no_such_call(alloc)
    } else {
        crash_opened(alloc, &disk, count as usize, field)
    }
}

/// The calls of a disk, a letter each, and what a crash before the last two of them leaves.
fn last_calls(alloc: Global, disk: &MemDisk) -> Mem<String> {
    let calls = disk.noted().len().saturating_sub(2);
    let laid = crash(alloc, disk, calls as u64, "")?;
    let letters = letters(alloc, disk.noted())?;
    Ok(format!(in alloc; "{letters} {laid}")?)
}

/// The calls of a renewal, a letter each, and what a crash before the last two of them leaves.
pub(crate) fn calls(alloc: Global, image: Vec<u8>) -> Mem<String> {
    let disk = renewed(alloc, image)?;
    last_calls(alloc, &disk)
}
