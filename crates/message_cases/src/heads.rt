//! Parsed heads: their parts, their framing, and what they ask of the connection.

use case_words::{bytes, shown};
use http_head::{
    HeadEnd, HeadFault, RequestHead, closes, expects_continue, framing, head_end, read_head,
};
use std::alloc::{AllocError, Global};

/// The parsed head, where the bytes are a complete head and nothing else.
fn parse(alloc: Global, text: &[u8]) -> Option<Result<RequestHead, HeadFault>> {
    match head_end(text) {
        HeadEnd::Whole(len) if len == text.len() => Some(read_head(alloc, text)),
        _ => None,
    }
}

/// All parts of a head.
fn parts(alloc: Global, head: &RequestHead) -> Result<String, AllocError> {
    let target = shown(alloc, head.target.as_slice())?;
    let mut text = format!(in alloc; "{:?} {target} {}", head.method, head.minor)?;
    for field in head.fields.list.as_slice() {
        let name = shown(alloc, field.name.as_slice())?;
        let value = shown(alloc, field.value.as_slice())?;
        write!(text, "; {name}={value}")?;
    }
    Ok(text)
}

/// Whether the client waits for `100 Continue`.
fn expects(head: &RequestHead) -> bool {
    match framing(head) {
        Ok(form) => expects_continue(head.minor, &head.fields, form),
        Err(_) => false,
    }
}

/// What is asked of a head.
fn report(alloc: Global, what: &str, head: &RequestHead) -> Result<String, AllocError> {
    match what {
        "head" => parts(alloc, head),
        "framing" => format!(in alloc; "{:?}", framing(head)),
        "closes" => format!(in alloc; "{}", closes(head.minor, &head.fields)),
        "expects" => format!(in alloc; "{}", expects(head)),
        _ => String::from_str(alloc, "no case"),
    }
}

/// What is asked of the head in a field, or its fault.
pub(crate) fn answer(alloc: Global, what: &str, field: &str) -> Result<String, AllocError> {
    let text = bytes(alloc, field)?;
    match parse(alloc, text.as_slice()) {
        Some(Ok(head)) => report(alloc, what, &head),
        Some(Err(HeadFault::NoMemory)) => Err(AllocError),
        Some(Err(fault)) => format!(in alloc; "{fault:?}"),
        None => String::from_str(alloc, "no head"),
    }
}
