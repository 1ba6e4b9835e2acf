//! Cases of the responses to faults of bodies: the status, the fields, each after `|`, and the body
//! after `||`.

use crate::requests;
use case_words::{iri_or_bad, shown};
use pod_base::{Body, Field, Mem, Request, Response};
use pod_path::Path;
use request_body::{BodyFault, read_body, refused};
use std::alloc::Global;

/// Appends a field.
fn push_field(alloc: Global, text: &mut String, field: &Field) -> Mem<()> {
    let name = shown(alloc, field.name.as_slice())?;
    let value = shown(alloc, field.value.as_slice())?;
    write!(text, "|{name}: {value}")?;
    Ok(())
}

/// Appends a body that the response has itself.
fn push_body(alloc: Global, text: &mut String, body: &Body) -> Mem<()> {
    if let Body::Whole(body) = body {
        let body = body.to_bytes(alloc)?;
        let body = shown(alloc, body.as_slice())?;
        write!(text, "||{body}")?;
    }
    Ok(())
}

fn response_text(alloc: Global, response: &Response) -> Mem<String> {
    let mut text = format!(in alloc; "{}", response.status)?;
    for field in response.fields.list.as_slice() {
        push_field(alloc, &mut text, field)?;
    }
    push_body(alloc, &mut text, &response.body)?;
    Ok(text)
}

/// The fault of a body, if it has one.
fn fault_of(alloc: Global, path: &Path, request: &Request) -> Mem<Option<BodyFault>> {
    let base = iri_or_bad(alloc, "http://b.example/")?;
    match read_body(alloc, &base, path, request)? {
        Ok(_) => Ok(None),
        Err(fault) => Ok(Some(fault)),
    }
}

fn response(alloc: Global, path: &Path, request: &Request) -> Mem<String> {
    match fault_of(alloc, path, request)? {
        Some(fault) => {
            let response = refused(alloc, request.method, path, fault)?;
            response_text(alloc, &response)
        }
        None => Ok(String::from_str(alloc, "no fault")?),
    }
}

fn response_at(alloc: Global, path: &str, request: &Request) -> Mem<String> {
    match Path::of_text(alloc, path)? {
        Some(path) => response(alloc, &path, request),
        None => Ok(String::from_str(alloc, "no path")?),
    }
}

/// The response to the fault of the body of a case.
pub(crate) fn call(alloc: Global, case: &[&str]) -> Mem<String> {
    match case {
        [method, path, body, lines @ ..] => {
            let request = requests::request(alloc, method, body, lines)?;
            response_at(alloc, path, &request)
        }
        _ => Ok(String::from_str(alloc, "no case")?),
    }
}
