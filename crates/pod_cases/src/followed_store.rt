//! Steps of a store that is followed.
//!
//! | Step | What it does |
//! |---|---|
//! | `serve TEXT` | serves requests of the owner at the leader, and shows the first line of what was written |
//! | `load N` | the same of N requests of the load generator |
//! | `ship` | ships the leader's records, and shows how many frames that makes |
//! | `send NUMBERS` | appends shipped frames to the input: `0 2 1`, or `0..5` for the first five |
//! | `read AGENT TEXT` | appends a read |
//! | `frame TEXT` | appends a frame with that body |
//! | `more TEXT` | appends bytes |
//! | `drop N` | drops the last N bytes of the input |
//! | `follow FAULT` | follows the input, and shows the status and what was written; then the input is empty |
//! | `same TEXT` | shows whether the follower of the input answers each request as the leader does |

use crate::case_state::Held;
use crate::frames::{count_frames, push_frame, push_numbers, push_read};
use crate::steps::push_taken;
use case_words::{bytes, first_word, number_of, shown_whole};
use load_generator::stream;
use pod_base::Mem;
use std::alloc::Global;

/// The first line of a text.
fn first_line(text: &str) -> &str {
    text.split_once("\r\n").map_or(text, |(line, _rest)| line)
}

/// Appends the first line of responses, and what follows the first head.
fn push_brief(alloc: Global, text: &mut String, written: &[u8]) -> Mem<()> {
    let written = str::from_utf8(written).unwrap_or("not UTF-8");
    text.push_str(first_line(written))?;
    if let Some((_head, body)) = written.split_once("\r\n\r\n") {
        text.push_str("|")?;
        text.push_str(shown_whole(alloc, body.as_bytes())?.as_str())?;
    }
    Ok(())
}

/// Serves requests of the owner, and returns what was written.
fn served(alloc: Global, held: &mut Held, requests: &[u8]) -> Mem<Vec<u8>> {
    let done = held.run_on(alloc, "pipe --owner", requests, "")?;
    held.store = done.store;
    Ok(done.output)
}

/// Serves requests, and shows the first line of what was written.
fn serve(alloc: Global, held: &mut Held, requests: &[u8]) -> Mem<String> {
    let output = served(alloc, held, requests)?;
    let written = str::from_utf8(&output).unwrap_or("not UTF-8");
    Ok(String::from_str(alloc, first_line(written))?)
}

/// Ships the leader's records.
fn ship(alloc: Global, held: &mut Held) -> Mem<String> {
    let done = held.run_on(alloc, "ship", b"", "")?;
    held.frames = done.output;
    let count = count_frames(&held.frames);
    Ok(format!(in alloc; "{} {count} frames", done.status)?)
}

/// Follows the input.
fn follow(alloc: Global, held: &mut Held, fault: &str) -> Mem<String> {
    let done = held.run_on(alloc, "follow", &held.input, fault)?;
    held.input.clear();
    let mut text = format!(in alloc; "{}", done.status)?;
    if !done.output.is_empty() {
        text.push_str(" out ")?;
        push_brief(alloc, &mut text, &done.output)?;
    }
    push_taken(alloc, &mut text, " err ", &done.errors)?;
    Ok(text)
}

/// Whether the follower of the input answers a request of the owner as the leader does.
fn compare(alloc: Global, held: &mut Held, request: &[u8]) -> Mem<String> {
    push_read(alloc, &mut held.input, "https://alice.example/#me", request)?;
    let follower = held.run_on(alloc, "follow", &held.input, "")?.output;
    held.input.clear();
    let leader = served(alloc, held, request)?;
    let word = if follower.as_slice() == leader.as_slice() {
        "same"
    } else {
        "another"
    };
    Ok(String::from_str(alloc, word)?)
}

/// Appends a read: an agent, and a request.
fn add_read(alloc: Global, held: &mut Held, text: &str) -> Mem<()> {
    let (word, request) = first_word(text);
    push_read(alloc, &mut held.input, word, &bytes(alloc, request)?)
}

/// Drops the last bytes of the input.
fn drop_last(input: &mut Vec<u8>, count: &str) {
    let count = number_of(count) as usize;
    input.truncate(input.len().saturating_sub(count));
}

/// Changes the input.
pub(crate) fn change(alloc: Global, held: &mut Held, word: &str, rest: &str) -> Mem<&'static str> {
    match word {
        "send" => push_numbers(&mut held.input, &held.frames, rest)?,
        "read" => add_read(alloc, held, rest)?,
        "frame" => push_frame(&mut held.input, &bytes(alloc, rest)?)?,
        "more" => held.input.extend_from_slice(&bytes(alloc, rest)?)?,
        "drop" => drop_last(&mut held.input, rest),
        _ => return Ok("no step"),
    }
    Ok("input")
}

/// What a step did.
pub(crate) fn step(alloc: Global, held: &mut Held, word: &str, rest: &str) -> Mem<String> {
    match word {
        "serve" => serve(alloc, held, &bytes(alloc, rest)?),
        "load" => serve(
            alloc,
            held,
            &stream(alloc, rest.parse::<u16>().unwrap_or(0))?,
        ),
        "ship" => ship(alloc, held),
        "follow" => follow(alloc, held, rest),
        _ => compare(alloc, held, &bytes(alloc, rest)?),
    }
}
