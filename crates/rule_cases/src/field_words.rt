//! The fields of requests.

use case_words::bytes;
use pod_base::{Bytes, Field, Fields, Mem};
use std::alloc::Global;

/// The field that a name, `: ` and a value are.
fn field_of(alloc: Global, text: &str) -> Mem<Field> {
    let (name, value) = text.split_once(": ").unwrap_or((text, ""));
    let value = bytes(alloc, value)?;
    Ok(Field {
        name: Bytes::of(alloc, name.as_bytes())?,
        value: Bytes::of(alloc, value.as_slice())?,
    })
}

/// The fields of a text, with `|` between them.
pub(crate) fn fields_of(alloc: Global, text: &str) -> Mem<Fields> {
    let mut fields = Fields::new(alloc);
    for part in text.split('|') {
        if !part.is_empty() {
            fields.add(alloc, field_of(alloc, part)?)?;
        }
    }
    Ok(fields)
}
