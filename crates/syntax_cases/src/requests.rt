//! Requests as the words of a case write them. A FIELD is a name, `: ` and a value.

use case_words::{bytes, method_of};
use pod_base::{Bytes, Field, Fields, Mem, Request};
use std::alloc::Global;

/// Appends the field that `name: value` is.
fn add_field(alloc: Global, fields: &mut Fields, line: &str) -> Mem<()> {
    let (name, value) = line.split_once(": ").unwrap_or((line, ""));
    let value = bytes(alloc, value)?;
    let name = Bytes::of(alloc, name.as_bytes())?;
    let value = Bytes::of(alloc, value.as_slice())?;
    fields.add(alloc, Field { name, value })
}

fn read_fields(alloc: Global, lines: &[&str]) -> Mem<Fields> {
    let mut fields = Fields::new(alloc);
    for line in lines {
        add_field(alloc, &mut fields, line)?;
    }
    Ok(fields)
}

fn body_of(alloc: Global, field: &str) -> Mem<Bytes> {
    let body = bytes(alloc, field)?;
    Bytes::of(alloc, body.as_slice())
}

/// A request with this body and these fields.
pub(crate) fn request(alloc: Global, method: &str, body: &str, lines: &[&str]) -> Mem<Request> {
    let body = body_of(alloc, body)?;
    let fields = read_fields(alloc, lines)?;
    Ok(Request {
        method: method_of(method),
        target: Bytes::new(),
        minor: 1,
        fields,
        body,
    })
}
