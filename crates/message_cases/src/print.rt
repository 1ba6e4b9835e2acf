//! What a response prints, and what a case names.

use case_words::iri_of;
use iri_ref::Iri;
use pod_base::{Body, Mem, NoMemory, Response, Rope};
use pod_path::Path;
use std::alloc::{AllocError, Global};

/// The base of all cases.
pub(crate) const BASE: &str = "https://pod.example/";

/// The base and a path, where the text is one.
pub(crate) fn place(alloc: Global, path: &str) -> Mem<Option<(Iri, Path)>> {
    let base = iri_of(alloc, BASE)?;
    let path = Path::of_text(alloc, path)?;
    match (base, path) {
        (Some(base), Some(path)) => Ok(Some((base, path))),
        _ => Ok(None),
    }
}

/// Appends the fields of a response.
fn push_fields(alloc: Global, text: &mut String, response: &Response) -> Result<(), AllocError> {
    for field in response.fields.list.as_slice() {
        let name = case_words::shown_whole(alloc, field.name.as_slice())?;
        let value = case_words::shown_whole(alloc, field.value.as_slice())?;
        write!(text, "|{name}: {value}")?;
    }
    Ok(())
}

/// A body as a field.
fn body_text(alloc: Global, body: &Rope) -> Result<String, AllocError> {
    match body.to_bytes(alloc) {
        Ok(bytes) => case_words::shown(alloc, bytes.as_slice()),
        Err(NoMemory) => Err(AllocError),
    }
}

/// Appends the body of a response.
fn push_body(alloc: Global, text: &mut String, body: &Body) -> Result<(), AllocError> {
    match body {
        Body::Absent => Ok(()),
        Body::Whole(bytes) => {
            let bytes = body_text(alloc, bytes)?;
            write!(text, "||{bytes}")
        }
        Body::LengthOnly(length) => write!(text, "||{length} bytes"),
    }
}

/// A response as a field.
fn show(alloc: Global, response: &Response) -> Result<String, AllocError> {
    let mut text = format!(in alloc; "{}", response.status)?;
    push_fields(alloc, &mut text, response)?;
    push_body(alloc, &mut text, &response.body)?;
    Ok(text)
}

/// What a case prints: its response, or that it names none.
pub(crate) fn shown(alloc: Global, response: Mem<Option<Response>>) -> Result<String, AllocError> {
    match response {
        Ok(Some(response)) => show(alloc, &response),
        Ok(None) => String::from_str(alloc, "no case"),
        Err(NoMemory) => Err(AllocError),
    }
}
