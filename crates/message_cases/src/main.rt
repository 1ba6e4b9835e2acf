//! Cases of the messages of HTTP and of what they say: heads, bodies, connections and the bytes of
//! responses; what a request's fields say, and the responses of a pod; the words of `podctl`, and
//! the load generator. It reads one case from each line of standard input, and prints the line with
//! what the libraries answer as one more field. `stdin` has the cases, and `stdout` what is expected
//! of them, worked out by hand from RFC 9110, RFC 9112, RFC 8288, RFC 6455 and the table of response
//! fields.
//!
//! The first field names the kind of the case. [`parsed`] has those of a message's bytes, [`said`]
//! those of a request's fields, [`forms`] those of a request's form, and [`responses`] those of
//! responses. The others are:
//!
//! | Fields | Answer |
//! |---|---|
//! | `words` WORD.. | the command that the words ask for, or `none` |
//! | `stream` N | the bytes of N requests |
//! | `line` N IN WRITTEN ROWS | the line of a run |
//! | `owner` | the owner of the pod of a run |
#![tactic(auto)]

mod accept_choice;
mod admission;
mod bodies;
mod change_responses;
mod commands;
mod connections;
mod field_cases;
mod field_forms;
mod field_lists;
mod head_ends;
mod heads;
mod load_requests;
mod member_names;
mod message_bytes;
mod preconditions;
mod print;
mod ranges;
mod read_responses;
mod refusal_responses;
mod response_bytes;
mod responses;
mod tokens;
mod upgrades;

use std::alloc::{AllocError, Global};
use std::io;

/// What the libraries answer to the fields of a case.
fn answer(alloc: Global, fields: &[&str]) -> Result<String, AllocError> {
    match fields {
        ["words", words @ ..] => commands::answer(alloc, words),
        ["stream", requests] => load_requests::stream_text(alloc, requests),
        ["line", requests, bytes_in, written, rows] => {
            load_requests::line(alloc, requests, bytes_in, written, rows)
        }
        ["owner"] => load_requests::owner_text(alloc),
        _ => message_bytes::answer(alloc, fields),
    }
}

fn main(rt: HostRuntime) -> io::Result<()> {
    case_words::run(&rt, answer)
}
