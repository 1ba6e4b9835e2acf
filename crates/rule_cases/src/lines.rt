//! Cases of the lines of the audit trail.

use crate::reading::{agent_of, entry_of, request_of};
use audit_trail::{entry_line, session_line};
use case_words::{number_of, shown_whole};
use pod_base::{Bytes, Mem, Moment, NoMemory};
use std::alloc::{AllocError, Global};

/// A line as a field.
fn show(alloc: Global, line: Mem<Bytes>) -> Result<String, AllocError> {
    match line {
        Ok(line) => shown_whole(alloc, line.as_slice()),
        Err(NoMemory) => Err(AllocError),
    }
}

/// The line of an answered request.
pub(crate) fn session(alloc: Global, words: &[&str]) -> Result<String, AllocError> {
    let [place, moment, agent, method, target, status] = words else {
        return String::from_str(alloc, "no request");
    };
    let agent = agent_of(alloc, agent)?;
    let request = request_of(alloc, method, target)?;
    let moment = Moment(number_of(moment));
    let status = status.parse::<u16>().unwrap_or(0);
    show(
        alloc,
        session_line(alloc, number_of(place), moment, &agent, &request, status),
    )
}

/// The line of a change.
pub(crate) fn entry(alloc: Global, words: &[&str]) -> Result<String, AllocError> {
    match entry_of(alloc, words)? {
        Some(entry) => show(alloc, entry_line(alloc, &entry)),
        None => String::from_str(alloc, "no entry"),
    }
}
