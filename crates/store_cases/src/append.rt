//! Appends to a journal with one record.

ghost use Rattle.std.specs.Prelude.{List, ℕ, IfOk};
ghost use Rattle.pod_disk.specs.NotedCalls.{MayLeave};
ghost use Rattle.journal_log.specs.CleanJournal.{IsClean};

use crate::disks::letters;
use crate::opened::{crash_opened, opened};
use journal_log::{DiskFault, Framed, Journal, frame};
use pod_base::{Mem, NoMemory};
use pod_disk::MemDisk;
use std::alloc::Global;

/// A journal with one record, on a disk on which the calls of these numbers fail; its making takes
/// three.
fn begun(alloc: Global, failing: Vec<u64>) -> Mem<(MemDisk, Journal)>
    ensures clean { IfOk result (λ made. (bodies : List (List ℕ))
        × IsClean (MayLeave made.0) made.1 bodies) }
{
    let first = frame(alloc, b"first")?;
    let mut disk = MemDisk::new(alloc, Vec::new(alloc), failing)?;
    match Journal::init(&mut disk, 1, &first) {
        Ok(journal) => Ok((disk, journal)),
        Err(DiskFault) => Err(NoMemory),
    }
}

/// Adds a record, and closes a gate that is in doubt then. Whether it was added, and whether a gate
/// was in doubt.
fn add(disk: &mut MemDisk, journal: &mut Journal, entry: &Framed) -> Result<(bool, bool), DiskFault>
    requires { (bodies : List (List ℕ)) × IsClean (MayLeave disk.old) journal.old bodies }
    ensures { IfOk result (λ _. (bodies : List (List ℕ))
        × IsClean (MayLeave disk.new) journal.new bodies) }
{
    match journal.append(disk, entry) {
        Ok(()) => Ok((true, false)),
        Err(_fault) => {
            if !journal.needs_repair() {
                return Ok((false, false));
            }
            match journal.repair(disk) {
                Ok(()) => Ok((false, true)),
                Err(fault) => Err(fault),
            }
        }
    }
}

/// An append whose call fails, and then one that does not.
fn added(alloc: Global, disk: &mut MemDisk, journal: &mut Journal, entry: &Framed) -> Mem<String>
    requires { (bodies : List (List ℕ)) × IsClean (MayLeave disk.old) journal.old bodies }
{
    let Ok((done, doubt)) = add(disk, journal, entry) else {
        return Ok(String::from_str(alloc, "no repair")?);
    };
    let again = journal.append(disk, entry);
    let then = opened(alloc, disk.bytes().to_vec(alloc)?)?;
    Ok(format!(in alloc; "{done} {doubt} {again:?} {} {then}", journal.len())?)
}

/// An append whose call of this number fails, and then one that does not: whether the first is
/// done, whether it left a gate in doubt, the length then, and what the disk is opened as.
pub(crate) fn fails(alloc: Global, failing: u64) -> Mem<String> {
    let entry = frame(alloc, b"entry")?;
    let (mut disk, mut journal) = begun(alloc, vec![in alloc; failing.saturating_add(3)]?)?;
    added(alloc, &mut disk, &mut journal, &entry)
}

/// What a crash after so many calls of an append is opened as.
pub(crate) fn crashes(alloc: Global, count: u64, field: &str) -> Mem<String> {
    let entry = frame(alloc, b"entry")?;
    let (mut disk, mut journal) = begun(alloc, Vec::new(alloc))?;
    let calls = count.saturating_add(3) as usize;
    if journal.append(&mut disk, &entry).is_ok() && calls <= disk.noted().len() {
        crash_opened(alloc, &disk, calls, field)
    } else {
        Ok(String::from_str(alloc, "no append")?)
    }
}

/// The calls of a disk on which a journal is begun, a letter each.
pub(crate) fn init_calls(alloc: Global) -> Mem<String> {
    let (disk, _journal) = begun(alloc, Vec::new(alloc))?;
    letters(alloc, disk.noted())
}
