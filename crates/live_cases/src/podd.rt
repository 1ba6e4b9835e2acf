//! Runs `podd` over gates in memory.
ghost use Rattle.std.specs.Prelude.{IfOk, IsSome};

use crate::case_state::{Fault, Held};
use crate::commands::{keep, place_of, sink_of, words_of};
use crate::link::ScriptLink;
use crate::shown_state::{push_gates, push_taken};
use crate::store::SECONDS;
use pod_base::{List, Mem};
use pod_disk::{Disk, MemDisk, Place};
use pod_io::{Listen, MemListen, MemSink, MemSource, SetClock, Sink, Source};
use pod_serve::{Status, run_podd};
use published_view::Places;
use std::alloc::Global;
use std::mem;
use std::sync::Wait;
use std::thread::Threads;

/// What `podd` is run over.
#[derive(Drop)]
struct Run {
    place: Place<MemDisk, MemSource>,
    listen: MemListen<ScriptLink>,
    errors: MemSink,
}

/// What the next run is over. The gates of the case go to its listener.
fn next_run(alloc: Global, held: &mut Held) -> Mem<Run>
    ensures { IfOk result (λ run. IsSome run.place.disks) }
{
    let fault = mem::replace(&mut held.fault, Fault::none(alloc));
    let place = place_of(alloc, held, &fault)?;
    let errors = sink_of(alloc, &fault, "errors")?;
    let failing = fault.calls(alloc, "listen")?;
    let gates = mem::replace(&mut held.gates, List::new(alloc));
    Ok(Run {
        place,
        listen: MemListen::new(alloc, gates, failing),
        errors,
    })
}

/// Runs `podd` with these words, and returns its status. It is generic, so that what its caller
/// knows of a run doesn't grow with the types of the objects.
fn run_words<D: Disk + Send, T: Source, O: Listen, E: Sink, R: Threads + Wait + Sync>(
    rt: &R,
    alloc: Global,
    words: &[String],
    place: &mut Place<D, T>,
    listen: &mut O,
    errors: &mut E,
) -> u8
where
    O::Gate: Send,
    requires { IsSome place.old.disks }
{
    let clock = SetClock { seconds: SECONDS };
    let mut places = Places::new();
    let Status(status) = run_podd(rt, alloc, words, place, listen, &mut places, errors, &clock);
    status
}

/// What a run left, after its status.
fn shown(alloc: Global, status: u8, run: &Run) -> Mem<String> {
    let mut text = format!(in alloc; "{status}")?;
    push_taken(alloc, &mut text, " err ", run.errors.taken())?;
    push_gates(alloc, &mut text, run.listen.back())?;
    Ok(text)
}

/// Runs `podd` with these words over the gates of the case, and shows what it left.
pub(crate) fn podd<R: Threads + Wait + Sync>(
    rt: &R,
    alloc: Global,
    held: &mut Held,
    words: &str,
) -> Mem<String> {
    let words = words_of(alloc, words)?;
    let mut run = next_run(alloc, held)?;
    let status = run_words(
        rt,
        alloc,
        &words,
        &mut run.place,
        &mut run.listen,
        &mut run.errors,
    );
    if let Some(disks) = &run.place.disks {
        keep(alloc, held, disks)?;
    }
    shown(alloc, status, &run)
}
