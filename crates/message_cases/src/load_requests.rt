//! The load generator.

use load_generator::{owner, stream, summary_line};
use std::alloc::{AllocError, Global};

/// The number that a field is, 0 where it is none.
fn number(field: &str) -> u16 {
    field.parse::<u16>().unwrap_or(0)
}

/// The bytes of so many requests.
pub(crate) fn stream_text(alloc: Global, requests: &str) -> Result<String, AllocError> {
    match stream(alloc, number(requests)) {
        Ok(text) => case_words::shown_whole(alloc, text.as_slice()),
        Err(_none) => String::from_str(alloc, "out of memory"),
    }
}

/// The line of a run.
pub(crate) fn line(
    alloc: Global,
    requests: &str,
    bytes_in: &str,
    written: &str,
    rows: &str,
) -> Result<String, AllocError> {
    let written = case_words::bytes(alloc, written)?;
    let bytes_in = usize::from(number(bytes_in));
    let rows = usize::from(number(rows));
    match summary_line(alloc, number(requests), bytes_in, written.as_slice(), rows) {
        Ok(line) => case_words::shown_whole(alloc, line.as_bytes()),
        Err(_none) => String::from_str(alloc, "out of memory"),
    }
}

/// The owner of the pod of a run.
pub(crate) fn owner_text(alloc: Global) -> Result<String, AllocError> {
    match owner(alloc) {
        Ok(owner) => String::from_str(alloc, owner.as_str()),
        Err(_none) => String::from_str(alloc, "out of memory"),
    }
}
