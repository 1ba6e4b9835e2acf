//! A run of generated changes, some of them with a crash at each of their calls and each tear.

use crate::begun::disks_of;
use crate::commits::{fault_text, opened};
use crate::crashes::left;
use crate::held_keeper::Held;
use crate::requests::request;
use pod_base::{Mem, Method, Request};
use pod_disk::{Disks, MemDisk, Tear};
use pod_rows::PodState;
use std::alloc::Global;

/// The most changes of a run.
const CHANGES_LIMIT: u64 = 10_000;

/// The tears of a crash.
const TEARS: [Tear; 10] = [
    Tear::Prefix(0),
    Tear::Prefix(1),
    Tear::Prefix(5),
    Tear::Prefix(9),
    Tear::Prefix(64),
    Tear::Prefix(1_000_000),
    Tear::Filled(0),
    Tear::Filled(1),
    Tear::Filled(7),
    Tear::Filled(255),
];

/// What a run has counted.
#[derive(Clone, Copy)]
struct Counts {
    /// Changes with an entry.
    entries: u64,
    /// Crash images that were opened as the pod before a change, after it, or as neither.
    old: u64,
    new: u64,
    other: u64,
}

/// The change of this number.
fn change(alloc: Global, k: u64) -> Mem<Request> {
    let folder = k / 7 % 5;
    match k % 8 {
        1 => {
            let path = format!(in alloc; "/g{folder}.ttl")?;
            let body = format!(in alloc; "<> <http://e.example/n> {k} .")?;
            request(alloc, Method::Put, &path, "text/turtle", body.as_bytes())
        }
        2 => {
            let path = format!(in alloc; "/d{folder}/")?;
            let body = format!(in alloc; "{k}")?;
            request(alloc, Method::Post, &path, "text/plain", body.as_bytes())
        }
        3 => {
            let path = format!(in alloc; "/g{folder}.ttl")?;
            let body = format!(in alloc; "INSERT DATA {{ <> <http://e.example/p> {k} . }}")?;
            let ctype = "application/sparql-update";
            request(alloc, Method::Patch, &path, ctype, body.as_bytes())
        }
        5 => {
            let path = format!(in alloc; "/d{folder}/f{}", k % 3)?;
            request(alloc, Method::Delete, &path, "text/plain", b"")
        }
        _ => {
            let path = format!(in alloc; "/d{folder}/f{}", k % 3)?;
            let body = vec![in alloc; 120u8; (k % 300) as usize]?;
            request(alloc, Method::Put, &path, "text/plain", &body)
        }
    }
}

/// The number of the next change and all rows, as a text.
fn text_of(alloc: Global, held: &Held) -> Mem<String> {
    let rows = held.version().rows(alloc)?;
    Ok(format!(in alloc; "{} {:?}", held.seq(), rows.as_slice())?)
}

/// The pod of a store as a text, and why where it isn't opened.
fn pod_of(alloc: Global, first: &[u8], second: &[u8]) -> Mem<String> {
    match Held::open(alloc, disks_of(alloc, first, second)?) {
        Ok((held, _records)) => text_of(alloc, &held),
        Err(fault) => fault_text(alloc, fault),
    }
}

/// Opens what a crash with each tear leaves after so many calls of the first disk.
fn crash(
    alloc: Global,
    disks: &Disks<MemDisk>,
    count: usize,
    pods: (&str, &str),
    counts: &mut Counts,
) -> Mem<()> {
    for tear in TEARS {
        let first = left(alloc, &disks.first, count, tear)?;
        let pod = pod_of(alloc, &first, disks.second.bytes())?;
        if pod.as_str() == pods.1 {
            counts.new = counts.new.saturating_add(1);
        } else if pod.as_str() == pods.0 {
            counts.old = counts.old.saturating_add(1);
        } else {
            counts.other = counts.other.saturating_add(1);
        }
    }
    Ok(())
}

/// Opens what a crash leaves at each of the last four calls of the first disk, and after them.
fn crash_last(
    alloc: Global,
    disks: &Disks<MemDisk>,
    pods: (&str, &str),
    counts: &mut Counts,
) -> Mem<()> {
    let calls = disks.first.noted().len();
    for count in calls.saturating_sub(4)..calls + 1 {
        crash(alloc, disks, count, pods, counts)?;
    }
    Ok(())
}

/// Makes the change of this number, and counts its entry. Whether it had one.
fn make(alloc: Global, held: &mut Held, k: u64) -> Mem<bool> {
    let request = change(alloc, k)?;
    let before = held.seq();
    let _outcome = held.commit(alloc, &request)?;
    Ok(held.seq() > before)
}

/// Makes the changes of these numbers, and counts those that have an entry.
fn calm(alloc: Global, held: &mut Held, from: u64, to: u64, counts: &mut Counts) -> Mem<()> {
    for k in from..to {
        let has = make(alloc, held, k)?;
        counts.entries = counts.entries.saturating_add(has as u64);
    }
    Ok(())
}

/// Makes the changes of these numbers, and gives the pod before the last one and after it as texts.
fn turn(
    alloc: Global,
    held: &mut Held,
    from: u64,
    to: u64,
    counts: &mut Counts,
) -> Mem<(String, String)> {
    calm(alloc, held, from, to, counts)?;
    let before = text_of(alloc, held)?;
    calm(alloc, held, to, to.saturating_add(1), counts)?;
    Ok((before, text_of(alloc, held)?))
}

/// Crashes the last change, where there was memory for both texts.
fn crash_after(
    alloc: Global,
    disks: &Disks<MemDisk>,
    pods: Mem<(String, String)>,
    counts: &mut Counts,
) -> Mem<()> {
    let (before, after) = pods?;
    crash_last(alloc, disks, (&before, &after), counts)
}

/// The keeper of these disks.
fn reopened(alloc: Global, disks: Disks<MemDisk>) -> Mem<Option<Held>> {
    match Held::open(alloc, disks) {
        Ok((held, _records)) => Ok(Some(held)),
        Err(_fault) => Ok(None),
    }
}

/// Makes the changes of these numbers, of which the last one is crashed: the keeper is closed after
/// it, and opened again.
fn turned(alloc: Global, held: Held, from: u64, to: u64, counts: &mut Counts) -> Mem<Option<Held>> {
    let mut held = held;
    let pods = turn(alloc, &mut held, from, to, counts);
    let disks = held.close();
    match crash_after(alloc, &disks, pods, counts) {
        Ok(()) => reopened(alloc, disks),
        Err(none) => Err(none),
    }
}

/// The keeper of a new store.
fn begun(alloc: Global) -> Mem<Option<Held>> {
    match opened(alloc, ("", ""), "new")? {
        Ok(held) => Ok(Some(held)),
        Err(_fault) => Ok(None),
    }
}

/// A run of so many changes, each of that many with a crash at each of its calls.
fn counted(alloc: Global, changes: u64, every: u64) -> Mem<Counts> {
    let mut counts = Counts {
        entries: 0,
        old: 0,
        new: 0,
        other: 0,
    };
    let mut held = begun(alloc)?;
    for number in 0..changes / every.max(1) {
        let from = number.saturating_mul(every);
        let to = from.saturating_add(every).saturating_sub(1);
        held = match held {
            Some(held) => turned(alloc, held, from, to, &mut counts)?,
            None => None,
        };
    }
    Ok(counts)
}

/// What a run of so many changes counted, each of that many with a crash at each of its calls.
pub(crate) fn run(alloc: Global, changes: u64, every: u64) -> Mem<String> {
    let Counts {
        entries,
        old,
        new,
        other,
    } = counted(alloc, changes.min(CHANGES_LIMIT), every)?;
    Ok(format!(in alloc; "entries={entries} old={old} new={new} other={other}")?)
}
