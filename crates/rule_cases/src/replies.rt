//! Cases of replies: runs of requests. What a request changes is there for the next one.
//!
//! | Field after the pod | What it is |
//! |---|---|
//! | first | the names of the response fields that are shown, with commas between them |
//! | each other | a request |
//!
//! A request is its method, its target and its agent, and `1.0` of that version, with a space
//! between; then its fields, each after `|`, and its body after `||`. The agent `!` is one whose
//! token isn't accepted. The moment is 784,111,777.
//!
//! A reply is its response as [`crate::response_text`] shows it, and `|entry:` with the line of its entry in the
//! audit trail where the first field names it. `not applied` follows where the entry doesn't apply.
//! The replies are further fields of the result.

use crate::pod_words::snapshot_of;
use crate::requests::request_of;
use crate::response_text::response_text;
use crate::row_words::BASE;
use audit_trail::entry_line;
use case_words::{pod_iri, shown_whole};
use pod_base::{Mem, Moment, NoMemory, Request, Response, Stamp, Text};
use pod_command::Entry;
use pod_core::answer as answer_to;
use pod_pages::Version;
use pod_records::fits;
use pod_reply::Replied;
use pod_rows::{PodState, StateFault};
use std::alloc::Global;
use token_table::Asked;

/// The reply to a request of the agent of a word.
fn reply_as(
    alloc: Global,
    state: &Version,
    number: u64,
    request: &Request,
    word: &str,
) -> Mem<Replied> {
    let seq = state.next();
    let stamp = Stamp {
        conn: 1,
        number,
        moment: Moment(784_111_777),
    };
    match word {
        "-" => answer_to(alloc, state, request, &Asked::Public, seq, stamp),
        "!" => answer_to(alloc, state, request, &Asked::Refused, seq, stamp),
        _ => {
            let iri = pod_iri(alloc, BASE, word)?;
            let agent = Text::of(alloc, iri.as_str())?;
            answer_to(alloc, state, request, &Asked::Known(&agent), seq, stamp)
        }
    }
}

/// The reply to the request of a text, the number of which is one of its connection.
fn reply_to(alloc: Global, state: &Version, number: u64, text: &str) -> Mem<Replied> {
    let (request, word) = request_of(alloc, text)?;
    reply_as(alloc, state, number, &request, word)
}

/// Appends the line of an entry in the audit trail, where it is wanted.
fn push_entry(alloc: Global, shown: &mut String, entry: &Entry, wanted: &str) -> Mem<()> {
    if wanted.split(',').any(|word| word == "entry") {
        let line = entry_line(alloc, entry)?;
        let line = shown_whole(alloc, line.as_slice())?;
        write!(shown, "|entry: {line}")?;
    }
    Ok(())
}

/// The state after an entry, if it applies; that it doesn't is noted.
fn state_after(
    alloc: Global,
    state: &Version,
    entry: &Entry,
    shown: &mut String,
) -> Mem<Option<Version>> {
    if fits(alloc, state, entry)? {
        Ok(Some(state.after(alloc, entry)?))
    } else {
        shown.push_str(" not applied")?;
        Ok(None)
    }
}

/// Appends a response, after a tab where it isn't the first one.
fn push_response(
    alloc: Global,
    shown: &mut String,
    response: &Response,
    wanted: &str,
    number: u64,
) -> Mem<()> {
    if number > 0 {
        shown.push('\t')?;
    }
    let text = response_text(alloc, response, wanted)?;
    shown.push_str(text.as_str())?;
    Ok(())
}

/// Appends a reply, and returns the state after it where it is another one.
fn push_reply(
    alloc: Global,
    state: &Version,
    shown: &mut String,
    replied: &Replied,
    wanted: &str,
    number: u64,
) -> Mem<Option<Version>> {
    push_response(alloc, shown, &replied.response, wanted, number)?;
    match &replied.entry {
        Some(entry) => {
            push_entry(alloc, shown, entry, wanted)?;
            state_after(alloc, state, entry, shown)
        }
        None => Ok(None),
    }
}

/// Appends the reply to a request, and goes on to the state after it.
fn step(
    alloc: Global,
    state: &mut Version,
    shown: &mut String,
    wanted: &str,
    number: u64,
    text: &str,
) -> Mem<()> {
    let replied = reply_to(alloc, state, number, text)?;
    if let Some(next) = push_reply(alloc, state, shown, &replied, wanted, number)? {
        *state = next;
    }
    Ok(())
}

/// The replies to requests to a pod.
fn replies(alloc: Global, state: &mut Version, wanted: &str, requests: &[&str]) -> Mem<String> {
    let mut shown = String::new(alloc);
    for (index, text) in requests.iter().enumerate() {
        step(alloc, state, &mut shown, wanted, index as u64, text)?;
    }
    Ok(shown)
}

/// The version of the pod with a head and rows, unless that isn't well-formed.
fn version_of(alloc: Global, head: &str, rows: &str) -> Mem<Option<Version>> {
    let snapshot = snapshot_of(alloc, head, rows)?;
    match Version::of(alloc, snapshot) {
        Ok(version) => Ok(Some(version)),
        Err(StateFault::NotWellFormed) => Ok(None),
        Err(StateFault::NoMemory) => Err(NoMemory),
    }
}

/// The replies to the requests of a case.
pub(crate) fn answer(alloc: Global, fields: &[&str]) -> Mem<String> {
    match fields {
        [head, rows, wanted, requests @ ..] => match version_of(alloc, head, rows)? {
            Some(mut state) => replies(alloc, &mut state, wanted, requests),
            None => Ok(String::from_str(alloc, "not well-formed")?),
        },
        _ => Ok(String::from_str(alloc, "no case")?),
    }
}
