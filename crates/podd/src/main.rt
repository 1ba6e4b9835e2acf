//! `podd` over loopback, with the store in the current folder: the files `pod.a`, `pod.b` and
//! `pod.tokens`.
#![tactic(auto)]

ghost use Rattle.std.specs.Prelude.{IsSome};

use pod_disk::{Disk, Place};
use pod_io::{Clock, HeldStreams, HostClock, Listen, Sink, Source, StdSink, TcpListen};
use pod_pipe::{Status, given_words, store_in_folder};
use pod_serve::run_podd;
use published_view::Places;
use std::alloc::Global;
use std::process::ExitCode;
use std::sync::Wait;
use std::thread::Threads;

/// Runs the words over a place, a listener and a clock, whatever they are: their checks then see no
/// more of them than their contracts.
fn run<D: Disk + Send, T: Source, O: Listen, E: Sink, C: Clock + Sync, R: Threads + Wait + Sync>(
    rt: &R,
    alloc: Global,
    words: &[String],
    place: &mut Place<D, T>,
    listen: &mut O,
    errors: &mut E,
    clock: &C,
) -> Status
where
    O::Gate: Send,
    requires { IsSome place.old.disks }
{
    let mut places = Places::new();
    run_podd(rt, alloc, words, place, listen, &mut places, errors, clock)
}

fn main(rt: HostRuntime) -> ExitCode {
    let Ok(_held) = HeldStreams::open(&rt) else {
        return Status::NO_MEMORY.exit_code();
    };
    let words = match given_words(&rt, rt.alloc()) {
        Ok(words) => words,
        Err(status) => return status.exit_code(),
    };
    let Ok(mut place) = store_in_folder(&rt, rt.alloc()) else {
        return Status::NO_MEMORY.exit_code();
    };
    let Ok(host) = rt.clone() else {
        return Status::NO_MEMORY.exit_code();
    };
    let Ok(clock) = rt.clone() else {
        return Status::NO_MEMORY.exit_code();
    };
    let mut listen = TcpListen::new(host);
    let mut errors = StdSink::new(rt.stderr());
    let status = run(
        &rt,
        rt.alloc(),
        words.as_slice(),
        &mut place,
        &mut listen,
        &mut errors,
        &HostClock::new(clock),
    );
    status.exit_code()
}
