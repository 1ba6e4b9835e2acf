//! Cases of steps, a field each. The store, the token table and the input are empty at first. A
//! `store` reads 64 bytes and writes 4 at a time; a `leader` reads 100 and writes 16, and begins with
//! `init`.
//!
//! | Step | What it does |
//! |---|---|
//! | `init`, `check`, `audit` | runs the command, and shows its status and what it printed |
//! | `init FAULT` and so on | the same, where one call of one object fails |
//! | `run WORDS` | runs `podctl` with these words on the input |
//! | `run !FAULT WORDS` | the same, where one call of one object fails |
//! | `input TEXT`, `tokens TEXT` | sets the input of what follows, or the token table |
//! | `record PIECES` | adds a record to the first disk, after its last gate |
//! | `byte SIDE AT VALUE` | changes a byte of the disk `first` or `second` |
//! | `cut SIDE LEN` | cuts a disk |
//! | `bytes SIDE` | shows how many bytes a disk has |
//!
//! `init` makes a store of the base `http://127.0.0.1:8080/` and the owner
//! `https://alice.example/#me`. A FAULT is `first N` or `second N`, the N-th call of that disk;
//! `input N` or `tokens N`, the N-th read of that source; or `output N` or `errors N`, the N-th
//! write of that sink. PIECES are separated by `|`; each is hexadecimal digits, and after a space
//! what they are. [`crate::leader`] has the other steps.

use crate::case_state::{Held, add_record};
use crate::followed_store;
use crate::runs::Run;
use crate::stores::Store;
use case_words::{bytes, first_word, shown_whole};
use pod_base::Mem;
use std::alloc::Global;

/// Appends a word and what a sink has taken, where it has taken something.
pub(crate) fn push_taken(alloc: Global, text: &mut String, word: &str, taken: &[u8]) -> Mem<()> {
    if !taken.is_empty() {
        text.push_str(word)?;
        text.push_str(shown_whole(alloc, taken)?.as_str())?;
    }
    Ok(())
}

/// The status of a command, and what it printed.
fn shown(alloc: Global, done: &Run) -> Mem<String> {
    let mut text = format!(in alloc; "{}", done.status)?;
    push_taken(alloc, &mut text, " out ", &done.output)?;
    push_taken(alloc, &mut text, " err ", &done.errors)?;
    Ok(text)
}

/// Runs a command on the input, with that fault, and shows what it did.
pub(crate) fn command(alloc: Global, held: &mut Held, words: &str, fault: &str) -> Mem<String> {
    let done = held.run_on(alloc, words, &held.input, fault)?;
    let text = shown(alloc, &done)?;
    held.store = done.store;
    Ok(text)
}

/// The fault and the words of `!OBJECT N WORDS`, or no fault and the words.
fn split_fault(text: &str) -> (&str, &str) {
    let Some(rest) = text.strip_prefix('!') else {
        return ("", text);
    };
    let (_object, words) = first_word(rest);
    let (_call, words) = first_word(words);
    (rest, words)
}

/// Changes what is held.
fn change(alloc: Global, held: &mut Held, word: &str, rest: &str) -> Mem<&'static str> {
    match word {
        "record" => {
            add_record(alloc, &mut held.store.first, rest)?;
            Ok("added")
        }
        "byte" => {
            held.change(rest);
            Ok("changed")
        }
        "cut" => {
            held.cut(rest);
            Ok("cut")
        }
        "input" => {
            held.input = bytes(alloc, rest)?;
            Ok("input")
        }
        "tokens" => {
            held.tokens = bytes(alloc, rest)?;
            Ok("tokens")
        }
        _ => followed_store::change(alloc, held, word, rest),
    }
}

/// What a step did.
fn step(alloc: Global, held: &mut Held, field: &str) -> Mem<String> {
    let (word, rest) = first_word(field);
    match word {
        "init" | "check" | "audit" => command(alloc, held, word, rest),
        "run" => {
            let (fault, words) = split_fault(rest);
            command(alloc, held, words, fault)
        }
        "bytes" => Ok(format!(in alloc; "{}", held.len(rest))?),
        "serve" | "load" | "ship" | "follow" | "same" => followed_store::step(
            alloc, held, word, rest,
        ),
        _ => {
            let done = change(alloc, held, word, rest)?;
            Ok(String::from_str(alloc, done)?)
        }
    }
}

/// What each of the steps did.
fn outcomes(alloc: Global, held: &mut Held, steps: &[&str]) -> Mem<String> {
    let mut text = String::new(alloc);
    for field in steps {
        let done = step(alloc, held, field)?;
        if !text.as_str().is_empty() {
            text.push_str("; ")?;
        }
        text.push_str(done.as_str())?;
    }
    Ok(text)
}

/// What each of the steps of a `store` did.
pub(crate) fn of_store(alloc: Global, steps: &[&str]) -> Mem<String> {
    let mut held = Held::new(alloc, 64, 4);
    outcomes(alloc, &mut held, steps)
}

/// What each of the steps of a `leader` did.
pub(crate) fn of_leader(alloc: Global, steps: &[&str]) -> Mem<String> {
    let mut held = Held::new(alloc, 100, 16);
    held.store = Store::named(alloc, "new")?;
    outcomes(alloc, &mut held, steps)
}
