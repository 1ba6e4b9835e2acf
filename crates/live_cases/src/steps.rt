//! The steps of a case of `podd`, a field each.
//!
//! The two disks and the token table are empty at first, and the clock stands at the moment
//! 784111777.
//!
//! | Step | What it does |
//! |---|---|
//! | `init`, `check`, `audit` | does what that command of `podctl` does |
//! | `tokens TEXT` | sets the token table |
//! | `damage AT VALUE` | changes a byte of the first disk |
//! | `link NAME` | begins a connection, of which the next steps speak |
//! | `give TEXT` | a read of it gives this text |
//! | `quiet N` | N reads of it are quiet times |
//! | `slowly N TEXT` | N quiet times before each byte of the text |
//! | `break` | a read of it fails |
//! | `raise N`, `wait N ..` | the flag N is raised before a read; a read waits for these flags |
//! | `on-write N` | each write of it raises the flag N |
//! | `piece N` | a write of it takes at most N bytes |
//! | `stop N` | its N-th write fails |
//! | `gate N ..` | makes a gate of the connections so far; its calls of these numbers fail |
//! | `fault OBJECT N` | the N-th call of that object fails in the next run |
//! | `podd WORDS` | runs `podd` with these words over the gates |
//!
//! The objects are `listen`, `first`, `second`, `tokens` and `errors`.
//!
//! What a command and `podd` did is shown by the status and what was printed. After `podd` follow
//! the gates in the order in which they came back, each with its connections in the order in which
//! these came back: the name of a connection, how it was left, and what it has sent. It is left
//! `ended` where its end was read, `stuck` where it waited for a flag in vain, and else `left N`,
//! where N steps of its reads are left.
//!
//! Flags are shared by all connections of a case. A read that waits loads them at most
//! 1,000,000,000 times, and then fails: connections that wait for each other end even where they
//! are served in turn, and are `stuck` then. Nothing that is shown depends on which thread runs
//! when.

use crate::case_state::{Fault, Held, flags};
use crate::commands::{begin, look_at};
use crate::link::Action;
use crate::podd::podd;
use case_words::{bytes, first_word, number_of};
use pod_base::Mem;
use std::alloc::Global;
use std::sync::Wait;
use std::thread::Threads;

/// Adds quiet times to the last connection.
fn add_quiet(held: &mut Held, count: u64) -> Mem<()> {
    for _ in 0..count {
        held.act(Action::Quiet)?;
    }
    Ok(())
}

/// Adds the bytes of a text to the last connection, with quiet times before each: `N TEXT`.
fn add_slowly(alloc: Global, held: &mut Held, words: &str) -> Mem<()> {
    let (count, text) = first_word(words);
    for byte in bytes(alloc, text)?.as_slice() {
        add_quiet(held, number_of(count))?;
        held.act(Action::Give([*byte].to_vec(alloc)?))?;
    }
    Ok(())
}

/// Adds what the next read of the last connection does. Returns whether it is such a step.
fn add_action(alloc: Global, held: &mut Held, word: &str, rest: &str) -> Mem<bool> {
    match word {
        "give" => held.act(Action::Give(bytes(alloc, rest)?))?,
        "quiet" => add_quiet(held, number_of(rest))?,
        "slowly" => add_slowly(alloc, held, rest)?,
        "break" => held.act(Action::Break)?,
        "raise" => held.act(Action::Raise(flags(rest)))?,
        "wait" => held.act(Action::Wait(flags(rest)))?,
        _ => return Ok(false),
    }
    Ok(true)
}

/// Sets what the writes of the last connection do.
fn set_writes(held: &mut Held, word: &str, rest: &str) {
    let Some(link) = held.last_link() else {
        return;
    };
    match word {
        "on-write" => link.raise_on_write(flags(rest)),
        "piece" => link.cut_writes(number_of(rest) as usize),
        "stop" => link.stop_at(number_of(rest)),
        _ => {}
    }
}

/// Changes what is held.
fn change(alloc: Global, held: &mut Held, word: &str, rest: &str) -> Mem<()> {
    match word {
        "tokens" => held.tokens = bytes(alloc, rest)?,
        "damage" => held.damage(rest),
        "fault" => held.fault = Fault::of(alloc, rest)?,
        "link" => held.add_link(alloc, rest)?,
        "gate" => held.add_gate(alloc, rest)?,
        _ => {
            if !add_action(alloc, held, word, rest)? {
                set_writes(held, word, rest);
            }
        }
    }
    Ok(())
}

/// What a step shows, where it shows something.
fn step<R: Threads + Wait + Sync>(
    rt: &R,
    alloc: Global,
    held: &mut Held,
    field: &str,
) -> Mem<Option<String>> {
    let (word, rest) = first_word(field);
    match word {
        "init" => Ok(Some(begin(alloc, held)?)),
        "check" | "audit" => Ok(Some(look_at(alloc, held, word)?)),
        "podd" => Ok(Some(podd(rt, alloc, held, rest)?)),
        _ => {
            change(alloc, held, word, rest)?;
            Ok(None)
        }
    }
}

/// What the steps showed, one after the other.
pub(crate) fn run<R: Threads + Wait + Sync>(rt: &R, alloc: Global, steps: &[&str]) -> Mem<String> {
    let mut held = Held::new(alloc)?;
    let mut text = String::new(alloc);
    for field in steps {
        if let Some(done) = step(rt, alloc, &mut held, field)? {
            if !text.as_str().is_empty() {
                text.push_str("; ")?;
            }
            text.push_str(done.as_str())?;
        }
    }
    Ok(text)
}
