//! What a disk is opened as.

use crate::tears::tears;
use case_words::shown;
use journal_log::{Journal, Side};
use pod_base::{Bytes, List, Mem};
use pod_disk::MemDisk;
use std::alloc::Global;

/// How many records there are, and the last of them.
fn records_text(alloc: Global, records: &List<Bytes>) -> Mem<String> {
    match records.as_slice().last() {
        Some(last) => {
            let last = shown(alloc, last.as_slice())?;
            Ok(format!(in alloc; "{} {last}", records.len())?)
        }
        None => Ok(String::from_str(alloc, "0")?),
    }
}

/// How many records a disk of these bytes is opened with, and the last of them, or why it is not
/// opened.
pub(crate) fn opened(alloc: Global, image: Vec<u8>) -> Mem<String> {
    let mut disk = MemDisk::new(alloc, image, Vec::new(alloc))?;
    match Journal::open(alloc, &mut disk, Side::Second) {
        Ok((_journal, records)) => records_text(alloc, &records),
        Err(fault) => Ok(format!(in alloc; "{fault}")?),
    }
}

/// What a crash after so many calls, with these tears, is opened as.
pub(crate) fn crash_opened(
    alloc: Global,
    disk: &MemDisk,
    calls: usize,
    field: &str,
) -> Mem<String> {
    let calls = calls.min(disk.noted().len());
    opened(alloc, disk.crash(alloc, calls, &tears(alloc, field)?)?)
}
