//! Cases of the sessions of one store beside each other, where no client of one connection sees them:
//! connections that wait for each other, the ends of connections and desks, and feeds; and cases of
//! worlds. It reads one case from each line of standard input, and prints the line with what happened
//! as one more field. `stdin` has the cases, and `stdout` what is expected of them, worked out by hand,
//! of worlds from the definition of a world.
//!
//! Each case but those of `serve` and `world` has a new store of the base `http://127.0.0.1:8080/`, whose owner's,
//! `https://alice.example/#me`, all requests are. The clock stands at the moment 784111777. The
//! answer ends with the number of the store's next entry.
//!
//! - `visit`: the first of two sessions puts a document, and the last one reads it. The answer is
//!   both statuses, what the last one has then seen, and the number of the version that it looks at.
//! - `conn` TEXT PIECE QUIET READS WRITES: how a connection of that text ends, how many entries its
//!   session added, and what was sent. A read gives at most PIECE bytes, and a write takes as many.
//!   The reads of the numbers QUIET are quiet times, and the calls of the numbers READS and WRITES
//!   fail.
//! - `desks` CALLS..: how desks end, and how many connections came back to each. The gate of each
//!   has one connection, and fails in the calls of these numbers.
//! - `feed` NAME STEP..: a feed on a document of the store, which is changed meanwhile by the steps of
//!   [`script`].
//! - `serve` NAME STEP..: runs of `podd` over many connections beside each other, by [`steps`].
//! - `world` CONNS EVENT..: the events of so many connections in a world of that base and owner, by
//!   [`world_events`]. The outcome of each is `ok` or `not now`, and what each connection wrote: its
//!   number, and for each response the status and the body, if there is one. The last is the number of
//!   entries.
#![tactic(auto)]

mod case_state;
mod commands;
mod feeds;
mod link;
mod mem_links;
mod podd;
mod script;
mod session_runs;
mod shown_responses;
mod shown_state;
mod steps;
mod store;
mod wire;
mod world_events;
mod world_runs;

use case_words::known;
use pod_base::Mem;
use session_runs::{Kind, Work};
use std::alloc::{AllocError, Global};
use std::io;
use std::sync::Wait;
use std::thread::Threads;

/// What is done in a case of sessions.
fn work_of<'a>(alloc: Global, fields: &'a [&'a str]) -> Mem<Option<Work<'a>>> {
    match fields {
        ["visit"] => Ok(Some(Work::new(alloc, Kind::Visit)?)),
        ["conn", text, piece, quiet, reads, writes] => {
            let mut work = Work::new(alloc, Kind::Connection)?;
            let link = mem_links::link(alloc, text, piece, quiet, reads, writes)?;
            work.add_gate(alloc, link, "")?;
            Ok(Some(work))
        }
        ["desks", calls @ ..] => {
            let mut work = Work::new(alloc, Kind::Desks)?;
            for numbers in calls {
                let link = mem_links::link(alloc, mem_links::GET, "1000", "", "", "")?;
                work.add_gate(alloc, link, numbers)?;
            }
            Ok(Some(work))
        }
        ["feed", _name, steps @ ..] => Ok(Some(Work::new(alloc, Kind::Feed(steps))?)),
        _ => Ok(None),
    }
}

/// What happens in a case.
fn case<R: Threads + Wait + Sync>(rt: &R, alloc: Global, fields: &[&str]) -> Mem<String> {
    match fields {
        ["serve", _name, steps @ ..] => steps::run(rt, alloc, steps),
        ["world", conns, events @ ..] => world_runs::outcomes(alloc, conns, events),
        _ => match work_of(alloc, fields)? {
            Some(work) => session_runs::run(rt, alloc, work),
            None => Ok(String::from_str(alloc, "no case")?),
        },
    }
}

/// What the answer to a case is.
fn answer<R: Threads + Wait + Sync>(
    rt: &R,
    alloc: Global,
    fields: &[&str],
) -> Result<String, AllocError> {
    known(case(rt, alloc, fields))
}

fn main(rt: HostRuntime) -> io::Result<()> {
    case_words::run(&rt, |alloc: Global, fields: &[&str]| {
        answer(&rt, alloc, fields)
    })
}
