//! Runs cases of disks, journals, stores and keepers in memory: reads one from each line of standard
//! input, and prints it with its outcome as one more field.
#![tactic(auto)]

mod append;
mod begun;
mod classes;
mod commits;
mod crashes;
mod disks;
mod generated;
mod held_keeper;
mod images;
mod opened;
mod pairs;
mod renewal;
mod requests;
mod steps;
mod store;
mod tears;

use case_words::{bytes, known, number_of};
use pod_base::Mem;
use std::alloc::{AllocError, Global};
use std::io;

/// The cases of a disk alone.
fn of_disk(alloc: Global, fields: &[&str]) -> Mem<String> {
    match fields {
        ["calls", image, failing, calls @ ..] => {
            disks::outcomes(alloc, bytes(alloc, image)?, number_of(failing), calls)
        }
        ["crash", image, failing, count, tears, calls @ ..] => {
            let (failing, count) = (number_of(failing), number_of(count));
            disks::crashes(alloc, bytes(alloc, image)?, failing, count, tears, calls)
        }
        _ => Ok(String::from_str(alloc, "no case")?),
    }
}

/// The cases of a journal on a disk.
fn of_journal(alloc: Global, fields: &[&str]) -> Mem<String> {
    match fields {
        ["open", image] => opened::opened(alloc, bytes(alloc, image)?),
        ["class", image] => classes::class(alloc, bytes(alloc, image)?),
        ["init_calls"] => append::init_calls(alloc),
        ["append", failing] => append::fails(alloc, number_of(failing)),
        ["append_crash", count, tears] => append::crashes(alloc, number_of(count), tears),
        ["renew", image, failing] => renewal::fails(
            alloc,
            bytes(alloc, image)?,
            number_of(failing),
        ),
        ["renew_crash", image, count, tears] => {
            renewal::crashes(alloc, bytes(alloc, image)?, number_of(count), tears)
        }
        ["renew_calls", image] => renewal::calls(alloc, bytes(alloc, image)?),
        _ => of_disk(alloc, fields),
    }
}

/// The cases of a store on two disks.
fn of_store(alloc: Global, fields: &[&str]) -> Mem<String> {
    match fields {
        ["pair", one, two] => pairs::opens_once(alloc, (one, two)),
        ["pair_opens", one, two, failing, failing_2] => {
            pairs::opens(alloc, (one, two), (failing, failing_2))
        }
        [
            "pair_open_crash",
            one,
            two,
            failing,
            failing_2,
            crash,
            crash_2,
        ] => {
            let failing = (*failing, *failing_2);
            pairs::open_crashes(alloc, (one, two), failing, (crash, crash_2))
        }
        ["pair_steps", one, two, failing, failing_2, steps @ ..] => {
            steps::crashes(alloc, (one, two), (failing, failing_2), ("-", "-"), steps)
        }
        [
            "pair_crash",
            one,
            two,
            failing,
            failing_2,
            crash,
            crash_2,
            steps @ ..,
        ] => {
            let failing = (*failing, *failing_2);
            steps::crashes(alloc, (one, two), failing, (crash, crash_2), steps)
        }
        ["pair_calls", one, two, steps @ ..] => steps::calls(alloc, (one, two), steps),
        _ => of_journal(alloc, fields),
    }
}

/// The cases of keepers.
fn of_keeper(alloc: Global, fields: &[&str]) -> Mem<String> {
    match fields {
        ["keeper", failing, failing_2, start, steps @ ..] => {
            commits::outcomes(alloc, (failing, failing_2), start, steps)
        }
        ["crashes", tear, start, steps @ ..] => crashes::crashes(alloc, tear, start, steps),
        ["cuts", start, steps @ ..] => crashes::cuts(alloc, start, steps),
        ["run", changes, every] => generated::run(alloc, number_of(changes), number_of(every)),
        _ => of_store(alloc, fields),
    }
}

fn answer(alloc: Global, fields: &[&str]) -> Result<String, AllocError> {
    known(of_keeper(alloc, fields))
}

fn main(rt: HostRuntime) -> io::Result<()> {
    case_words::run(&rt, answer)
}
