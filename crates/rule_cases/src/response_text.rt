//! Responses as text.

use case_words::shown_whole;
use pod_base::{Body, Mem, Response};
use std::alloc::Global;

/// Whether a name is one of the names with commas between them. `*` stands for all names.
fn is_wanted(wanted: &str, name: &str) -> bool {
    wanted.split(',').any(|word| word == "*" || word == name)
}

/// Appends the fields of a response whose names are wanted.
fn push_fields(alloc: Global, text: &mut String, response: &Response, wanted: &str) -> Mem<()> {
    for field in response.fields.list.as_slice() {
        let name = shown_whole(alloc, field.name.as_slice())?;
        if is_wanted(wanted, name.as_str()) {
            let value = shown_whole(alloc, field.value.as_slice())?;
            write!(text, "|{name}: {value}")?;
        }
    }
    Ok(())
}

/// Appends a body, or of one that is left out its length.
fn push_body(alloc: Global, text: &mut String, body: &Body) -> Mem<()> {
    match body {
        Body::Absent => Ok(()),
        Body::Whole(bytes) => {
            let bytes = bytes.to_bytes(alloc)?;
            let shown = shown_whole(alloc, bytes.as_slice())?;
            write!(text, "||{shown}")?;
            Ok(())
        }
        Body::LengthOnly(length) => {
            write!(text, "||{length} bytes")?;
            Ok(())
        }
    }
}

/// A response: its status, its fields with these names, each after `|`, and its body after `||`.
/// The names have commas between them, and `*` stands for all.
pub(crate) fn response_text(alloc: Global, response: &Response, wanted: &str) -> Mem<String> {
    let mut text = format!(in alloc; "{}", response.status)?;
    push_fields(alloc, &mut text, response, wanted)?;
    push_body(alloc, &mut text, &response.body)?;
    Ok(text)
}
