//! `podctl` over the standard streams, with the store in the current folder: the files `pod.a`,
//! `pod.b` and `pod.tokens`.
#![tactic(auto)]

use pod_base::Mem;
use pod_io::{Clock, HeldStreams, HostClock, SetClock, StdSink, StdSource};
use pod_pipe::{Status, given_words, store_in_folder};
use pod_tool::run_podctl;
use program_words::{Asking, Command, read};
use std::alloc::Global;
use std::process::ExitCode;

/// The fixed moment of the clock of a pod in memory, in seconds: the date in the examples of the
/// HTTP standard.
const FIXED_MOMENT: u64 = 784_111_777;

/// Whether the command of the words is for a pod in memory, whose clock is fixed.
fn is_in_memory(alloc: Global, words: &[String]) -> Mem<bool> {
    match read(alloc, words)? {
        Some(Command::Pipe { asking, trail: _ }) => Ok(matches!(&asking, Asking::Fresh(_))),
        Some(Command::Load(_requests)) => Ok(true),
        _ => Ok(false),
    }
}

/// Runs the command of the words over the standard streams, the current folder and this clock.
fn run<C: Clock>(rt: &HostRuntime, words: &[String], clock: &mut C) -> Status {
    let Ok(mut place) = store_in_folder(rt, rt.alloc()) else {
        return Status::NO_MEMORY;
    };
    let mut input = StdSource::new(rt.stdin());
    let mut output = StdSink::new(rt.stdout());
    let mut errors = StdSink::new(rt.stderr());
    run_podctl(
        rt.alloc(),
        words,
        &mut input,
        &mut output,
        &mut errors,
        &mut place,
        clock,
    )
}

/// Runs the command of the words, with the clock that it needs.
fn run_words(rt: &HostRuntime, words: &[String]) -> Mem<Status> {
    if is_in_memory(rt.alloc(), words)? {
        let mut clock = SetClock {
            seconds: FIXED_MOMENT,
        };
        Ok(run(rt, words, &mut clock))
    } else {
        Ok(run(rt, words, &mut HostClock::new(rt.clone()?)))
    }
}

fn main(rt: HostRuntime) -> ExitCode {
    let Ok(_held) = HeldStreams::open(&rt) else {
        return Status::NO_MEMORY.exit_code();
    };
    let words = match given_words(&rt, rt.alloc()) {
        Ok(words) => words,
        Err(status) => return status.exit_code(),
    };
    match run_words(&rt, &words) {
        Ok(status) => status.exit_code(),
        Err(_error) => Status::NO_MEMORY.exit_code(),
    }
}
