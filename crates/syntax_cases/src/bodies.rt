//! Cases of `request_body`: what the body of a request means. A graph is its lines; bytes are their
//! type in brackets and themselves; a patch has `? ` before each condition, `- ` before each
//! deletion and `+ ` before each insertion, and an update has the last two.

use crate::{print, requests};
use case_words::{iri_of, shown, triples_text};
use graph_patch::Patch;
use iri_ref::Iri;
use pod_base::{Bytes, Mem, Request, Text};
use pod_command::Content;
use pod_path::Path;
use rdf_graph::Graph;
use request_body::{BodyFault, RequestBody, read_body};
use sparql_patch::Named;
use std::alloc::Global;

/// The status and the word of a fault.
fn fault_text(alloc: Global, fault: BodyFault) -> Mem<String> {
    let word = fault.word(alloc)?;
    let word = shown(alloc, word.as_slice())?;
    let status = fault.status();
    Ok(format!(in alloc; "{status} {word}")?)
}

/// A word, and the text after it.
fn labelled(alloc: Global, word: &str, text: Mem<String>) -> Mem<String> {
    let text = text?;
    Ok(format!(in alloc; "{word} {}", text.as_str())?)
}

/// Bytes, with their content type.
fn bytes_text(alloc: Global, ctype: &Text, bytes: &Bytes) -> Mem<String> {
    let ctype = ctype.as_str();
    let bytes = shown(alloc, bytes.as_slice())?;
    Ok(format!(in alloc; "bytes [{ctype}] {bytes}")?)
}

fn content_text(alloc: Global, content: &Content) -> Mem<String> {
    match content {
        Content::Graph(stored) => labelled(
            alloc,
            "graph",
            triples_text(alloc, stored.graph().as_slice()),
        ),
        Content::Bytes { ctype, bytes } => bytes_text(alloc, ctype, bytes.bytes()),
    }
}

fn body_text(alloc: Global, body: &RequestBody) -> Mem<String> {
    match body {
        RequestBody::Nothing => Ok(String::from_str(alloc, "nothing")?),
        RequestBody::Content(content) => content_text(alloc, content),
        RequestBody::Patch(patch) => labelled(alloc, "patch", print::patch(alloc, patch)),
        RequestBody::Update(named) => labelled(alloc, "update", print::update(alloc, named)),
    }
}

fn meaning(alloc: Global, base: &Iri, path: &Path, request: &Request) -> Mem<String> {
    match read_body(alloc, base, path, request)? {
        Ok(body) => body_text(alloc, &body),
        Err(fault) => fault_text(alloc, fault),
    }
}

fn meaning_at(alloc: Global, base: &str, path: &str, request: &Request) -> Mem<String> {
    let Some(base) = iri_of(alloc, base)? else {
        return Ok(String::from_str(alloc, "no base")?);
    };
    match Path::of_text(alloc, path)? {
        Some(path) => meaning(alloc, &base, &path, request),
        None => Ok(String::from_str(alloc, "no path")?),
    }
}

/// What the body of a case means, or the status and the word of its fault.
pub(crate) fn call(alloc: Global, case: &[&str]) -> Mem<String> {
    match case {
        [base, method, path, body, lines @ ..] => {
            let request = requests::request(alloc, method, body, lines)?;
            meaning_at(alloc, base, path, &request)
        }
        _ => Ok(String::from_str(alloc, "no case")?),
    }
}
