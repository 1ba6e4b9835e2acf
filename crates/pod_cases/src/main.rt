//! Cases of a pod as a client or a user of `podctl` sees it: each is a run of `run_podctl`, or some,
//! over disks in memory, a token table, a clock that stands at the moment 784,111,777, and streams of
//! which a call may fail. It reads one case from each line of standard input, and prints the line
//! with what happened as one more field. `stdin` has the cases, and `stdout` what is expected of
//! them, worked out by hand.
//!
//! | Fields | What is tried |
//! |---|---|
//! | `pipe` or `pipe-large`, INPUT | how a connection of a fresh pod ends: its status, its last line, its output; the same in pieces of 1, 2, 3, 7, 20, 1,000 and 100,000 bytes, or of 65,536 and 100,000 |
//! | `pipe-ends` INPUT | the places at which the input may end between messages |
//! | `dialogue` FIRST SECOND | a connection of a fresh pod, whose read of the second request fails unless the answer to the first was written before |
//! | `asks` STORE INPUT.. | the inputs, a connection of the store each |
//! | `fails` SIDE STORE INPUT LOOK | the input, with each call of the disk `first` or `second` failing in turn; then what LOOK reads |
//! | `ends` STORE INPUT | the input, ended after each of its bytes |
//! | `cuts` STORE INPUT LOOK | the store after the input, with its first disk cut at each length past 0; then what LOOK reads |
//! | `store` STEP.., `leader` STEP.. | commands on a store, as [`steps`] and [`leader`] have them |
//!
//! A STORE is `new`, or `old` for one in format 1 without entries, whose first change makes a
//! checkpoint. Each request is the owner's. Outcomes of numbers that follow each other are joined
//! where they are equal. Of a run over a STORE the status is shown, and each response in brackets:
//! its status, and its body without the last line end; of a store what `check` prints, or its damage;
//! and of a disk its calls, a letter each: `s` a sync, `l` a length, `r` a read, `w` a write, `c` a
//! cut. A `dialogue` is shown as a run over a STORE.
#![tactic(auto)]

mod case_state;
mod cut_stores;
mod dialogue;
mod failing_disks;
mod followed_store;
mod frames;
mod input_ends;
mod pipe;
mod ranges;
mod responses;
mod runs;
mod steps;
mod store_connections;
mod stores;

use case_words::known;
use pod_base::Mem;
use std::alloc::{AllocError, Global};
use std::io;

/// What happens in a case.
fn case(alloc: Global, fields: &[&str]) -> Mem<String> {
    match fields {
        ["pipe", input] => pipe::in_sizes(alloc, input, &[1, 2, 3, 7, 20, 1_000]),
        ["pipe-large", input] => pipe::in_sizes(alloc, input, &[65_536]),
        ["pipe-ends", input] => pipe::ended_anywhere(alloc, input),
        ["dialogue", first, second] => dialogue::outcome(alloc, first, second),
        ["asks", store, inputs @ ..] => store_connections::outcomes(alloc, store, inputs),
        ["fails", side, store, input, look] => failing_disks::outcomes(
            alloc, side, store, input, look,
        ),
        ["ends", store, input] => input_ends::outcomes(alloc, store, input),
        ["cuts", store, input, look] => cut_stores::outcomes(alloc, store, input, look),
        ["store", steps @ ..] => steps::of_store(alloc, steps),
        ["leader", steps @ ..] => steps::of_leader(alloc, steps),
        _ => Ok(String::from_str(alloc, "no case")?),
    }
}

fn answer(alloc: Global, fields: &[&str]) -> Result<String, AllocError> {
    known(case(alloc, fields))
}

fn main(rt: HostRuntime) -> io::Result<()> {
    case_words::run(&rt, answer)
}
