//! Cases of what a request is about, by its method, its target and its agent: `-` for anybody, `!`
//! for a token that isn't accepted, and else the agent's IRI.

use crate::print::{BASE, shown};
use case_words::{bytes, iri_of, method_of};
use pod_base::{Bytes, Fields, Mem, NoMemory, Request, Response, Text};
use request_target::{Target, admit};
use std::alloc::{AllocError, Global};
use token_table::Asked;

/// The request of a method and a target.
fn request(alloc: Global, name: &str, target: &str) -> Mem<Request> {
    let target = bytes(alloc, target)?;
    Ok(Request {
        method: method_of(name),
        target: Bytes::of(alloc, target.as_slice())?,
        minor: 1,
        fields: Fields::new(alloc),
        body: Bytes::of(alloc, b"")?,
    })
}

fn admitted(
    alloc: Global,
    request: &Request,
    asked: &Asked<'_>,
) -> Mem<Option<Result<Target, Response>>> {
    match iri_of(alloc, BASE)? {
        Some(base) => Ok(Some(admit(alloc, &base, request, asked)?)),
        None => Ok(None),
    }
}

fn admitted_by(
    alloc: Global,
    request: &Request,
    asked: &str,
) -> Mem<Option<Result<Target, Response>>> {
    match asked {
        "-" => admitted(alloc, request, &Asked::Public),
        "!" => admitted(alloc, request, &Asked::Refused),
        _ => {
            let agent = Text::of(alloc, asked)?;
            admitted(alloc, request, &Asked::Known(&agent))
        }
    }
}

fn target_text(alloc: Global, target: &Target) -> Result<String, AllocError> {
    match target {
        Target::Server => String::from_str(alloc, "the server"),
        Target::Resource(path) => String::from_str(alloc, path.as_str()),
    }
}

/// What a request is about, or its refusal.
pub(crate) fn answer(
    alloc: Global,
    name: &str,
    target: &str,
    asked: &str,
) -> Result<String, AllocError> {
    let found = match request(alloc, name, target) {
        Ok(request) => admitted_by(alloc, &request, asked),
        Err(NoMemory) => return Err(AllocError),
    };
    match found {
        Ok(Some(Ok(target))) => target_text(alloc, &target),
        Ok(Some(Err(response))) => shown(alloc, Ok(Some(response))),
        Ok(None) => String::from_str(alloc, "no case"),
        Err(NoMemory) => Err(AllocError),
    }
}
