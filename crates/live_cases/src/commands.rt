//! Makes, checks and audits the store of a case, as `podctl` does.
ghost use Rattle.std.specs.Prelude.{IfOk, IsSome};

use crate::case_state::{Fault, Held};
use crate::shown_state::push_taken;
use crate::store::make;
use pod_base::Mem;
use pod_disk::{Disk, Disks, MemDisk, Place};
use pod_io::{MemSink, MemSource, Sink};
use podctl_commands::{audit, check};
use std::alloc::Global;

/// How many bytes a sink takes at a time, and how many a read gives at most.
const PIECE: usize = 64;

/// The words of a text, which are separated by spaces.
pub(crate) fn words_of(alloc: Global, text: &str) -> Mem<Vec<String>> {
    let mut words = Vec::new(alloc);
    for word in text.split(' ') {
        if !word.is_empty() {
            words.push(String::from_str(alloc, word)?)?;
        }
    }
    Ok(words)
}

/// A disk of these bytes with that fault.
fn disk_of(alloc: Global, bytes: &[u8], fault: &Fault, object: &str) -> Mem<MemDisk> {
    let failing = fault.calls(alloc, object)?;
    MemDisk::new(alloc, bytes.to_vec(alloc)?, failing)
}

/// The disks of a case, with that fault.
fn disks_of(alloc: Global, held: &Held, fault: &Fault) -> Mem<Disks<MemDisk>> {
    let first = disk_of(alloc, &held.first, fault, "first")?;
    let second = disk_of(alloc, &held.second, fault, "second")?;
    Ok(Disks { first, second })
}

/// The place of what is run next, with that fault.
pub(crate) fn place_of(alloc: Global, held: &Held, fault: &Fault) -> Mem<Place<MemDisk, MemSource>>
    ensures { IfOk result (λ place. IsSome place.disks) }
{
    let failing = fault.calls(alloc, "tokens")?;
    let tokens = MemSource::new(held.tokens.to_vec(alloc)?, PIECE, failing);
    let disks = disks_of(alloc, held, fault)?;
    Ok(Place {
        disks: Some(disks),
        tokens,
    })
}

/// A sink with that fault.
pub(crate) fn sink_of(alloc: Global, fault: &Fault, object: &str) -> Mem<MemSink> {
    Ok(MemSink::new(alloc, PIECE, fault.calls(alloc, object)?))
}

/// Keeps what disks hold.
pub(crate) fn keep(alloc: Global, held: &mut Held, disks: &Disks<MemDisk>) -> Mem<()> {
    held.first = disks.first.bytes().to_vec(alloc)?;
    held.second = disks.second.bytes().to_vec(alloc)?;
    Ok(())
}

/// Checks or audits the store of these disks, and returns the status.
fn run_word<D: Disk, K: Sink, E: Sink>(
    alloc: Global,
    word: &str,
    disks: Disks<D>,
    output: &mut K,
    errors: &mut E,
) -> u8 {
    if word == "check" {
        check(alloc, disks, output, errors).end.status()
    } else {
        audit(alloc, disks, output, errors).end.status()
    }
}

/// Makes the store of a case, and shows the status.
pub(crate) fn begin(alloc: Global, held: &mut Held) -> Mem<String> {
    let mut disks = disks_of(alloc, held, &Fault::none(alloc))?;
    let status = make(alloc, &mut disks)?;
    keep(alloc, held, &disks)?;
    Ok(format!(in alloc; "{status}")?)
}

/// Checks or audits the store of a case, and shows the status and what was printed.
pub(crate) fn look_at(alloc: Global, held: &Held, word: &str) -> Mem<String> {
    let none = Fault::none(alloc);
    let mut output = sink_of(alloc, &none, "")?;
    let mut errors = sink_of(alloc, &none, "")?;
    let disks = disks_of(alloc, held, &none)?;
    let status = run_word(alloc, word, disks, &mut output, &mut errors);
    let mut text = format!(in alloc; "{status}")?;
    push_taken(alloc, &mut text, " out ", output.taken())?;
    push_taken(alloc, &mut text, " err ", errors.taken())?;
    Ok(text)
}
