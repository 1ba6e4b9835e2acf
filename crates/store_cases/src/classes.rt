//! What a disk is by its head and its first gate.

use journal_log::Journal;
use pod_base::Mem;
use pod_disk::MemDisk;
use std::alloc::Global;

/// The class of a disk of these bytes.
pub(crate) fn class(alloc: Global, image: Vec<u8>) -> Mem<String> {
    let mut disk = MemDisk::new(alloc, image, Vec::new(alloc))?;
    match Journal::classify(&mut disk) {
        Ok(class) => Ok(format!(in alloc; "{class:?}")?),
        Err(fault) => Ok(format!(in alloc; "{fault}")?),
    }
}
