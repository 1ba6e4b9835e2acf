//! What crashes leave of a store: one at each call of the last step, with a kind of tear; and a store
//! cut at each length.

use crate::commits::{checked, opened, step};
use crate::held_keeper::Held;
use crate::tears::tear;
use pod_base::Mem;
use pod_disk::{Disks, MemDisk, Tear};
use std::alloc::Global;

/// What a crash leaves after so many calls, of each write since the last sync.
pub(crate) fn left(alloc: Global, disk: &MemDisk, count: usize, tear: Tear) -> Mem<Vec<u8>> {
    let count = count.min(disk.noted().len());
    let tears = vec![in alloc; tear]?;
    disk.crash(alloc, count, &tears)
}

/// Outcomes, without those that are as the one before.
#[derive(Drop)]
struct Outcomes {
    text: String,
    last: String,
}

impl Outcomes {
    fn new(alloc: Global) -> Outcomes {
        Outcomes {
            text: String::new(alloc),
            last: String::new(alloc),
        }
    }

    fn note(&mut self, outcome: String) -> Mem<()> {
        if outcome.as_str() == self.last.as_str() {
            return Ok(());
        }
        if !self.text.is_empty() {
            self.text.push_str("; ")?;
        }
        self.text.push_str(outcome.as_str())?;
        self.last = outcome;
        Ok(())
    }
}

/// Takes these steps.
fn take(alloc: Global, held: &mut Held, steps: &[&str]) -> Mem<()> {
    for field in steps {
        let _outcome = step(alloc, held, field)?;
    }
    Ok(())
}

/// The disks after these steps, or none where the store isn't opened.
fn after(alloc: Global, start: &str, steps: &[&str]) -> Mem<Option<Disks<MemDisk>>> {
    match opened(alloc, ("", ""), start)? {
        Ok(mut held) => match take(alloc, &mut held, steps) {
            Ok(()) => Ok(Some(held.close())),
            Err(none) => Err(none),
        },
        Err(_fault) => Ok(None),
    }
}

/// What crashes leave after so many calls of the first disk, and those of the second from this
/// number on.
fn crashed_at(
    alloc: Global,
    disks: &Disks<MemDisk>,
    calls: (usize, usize),
    tear: Tear,
    outcomes: &mut Outcomes,
) -> Mem<()> {
    let first = left(alloc, &disks.first, calls.0, tear)?;
    for other in calls.1..disks.second.noted().len() + 1 {
        let second = left(alloc, &disks.second, other, tear)?;
        let outcome = checked(alloc, &first, &second)?;
        outcomes.note(outcome)?;
    }
    Ok(())
}

/// What crashes after at least these calls of both disks leave, opened.
fn crashed(
    alloc: Global,
    disks: &Disks<MemDisk>,
    before: (usize, usize),
    tear: Tear,
) -> Mem<String> {
    let mut outcomes = Outcomes::new(alloc);
    for count in before.0..disks.first.noted().len() + 1 {
        crashed_at(alloc, disks, (count, before.1), tear, &mut outcomes)?;
    }
    Ok(outcomes.text)
}

/// How many calls both disks have noted after these steps, or none where the store isn't opened.
fn calls_after(alloc: Global, start: &str, steps: &[&str]) -> Mem<Option<(usize, usize)>> {
    match after(alloc, start, steps)? {
        Some(disks) => Ok(Some((disks.first.noted().len(), disks.second.noted().len()))),
        None => Ok(None),
    }
}

/// What crashes at each call of the last step leave, opened.
pub(crate) fn crashes(alloc: Global, kind: &str, start: &str, steps: &[&str]) -> Mem<String> {
    let front = match steps {
        [front @ .., _] => front,
        [] => steps,
    };
    let before = calls_after(alloc, start, front)?.unwrap_or((0, 0));
    match after(alloc, start, steps)? {
        Some(disks) => crashed(alloc, &disks, before, tear(kind)),
        None => Ok(String::from_str(alloc, "not opened")?),
    }
}

/// What two disks are opened as, the first of them cut at each length past 0.
fn cut(alloc: Global, first: &[u8], second: &[u8]) -> Mem<String> {
    let mut outcomes = Outcomes::new(alloc);
    for len in 1..first.len() + 1 {
        let outcome = checked(alloc, &first[..len], second)?;
        outcomes.note(outcome)?;
    }
    Ok(outcomes.text)
}

/// What a store is opened as whose first disk is cut at each length past 0.
pub(crate) fn cuts(alloc: Global, start: &str, steps: &[&str]) -> Mem<String> {
    match after(alloc, start, steps)? {
        Some(disks) => cut(alloc, disks.first.bytes(), disks.second.bytes()),
        None => Ok(String::from_str(alloc, "not opened")?),
    }
}
