//! The requests of cases.

use crate::field_words::fields_of;
use case_words::{bytes, method_of};
use pod_base::{Bytes, Mem, Request};
use std::alloc::Global;

fn bytes_of(alloc: Global, field: &str) -> Mem<Bytes> {
    let bytes = bytes(alloc, field)?;
    Bytes::of(alloc, bytes.as_slice())
}

/// The request of a text, and the word of its agent.
pub(crate) fn request_of<'a>(alloc: Global, text: &'a str) -> Mem<(Request, &'a str)> {
    let (head, body) = text.split_once("||").unwrap_or((text, ""));
    let (line, fields) = head.split_once('|').unwrap_or((head, ""));
    let mut words = line.split(' ');
    let method = words.next().unwrap_or("");
    let target = words.next().unwrap_or("");
    let agent = words.next().unwrap_or("-");
    let request = Request {
        method: method_of(method),
        target: bytes_of(alloc, target)?,
        minor: if words.next() == Some("1.0") { 0 } else { 1 },
        fields: fields_of(alloc, fields)?,
        body: bytes_of(alloc, body)?,
    };
    Ok((request, agent))
}
