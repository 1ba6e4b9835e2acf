//! Cases of what a request's fields say about its form. A FIELD is a name, `: ` and a value.
//!
//! | Fields | Answer |
//! |---|---|
//! | `type` FIELD.. | the type of the body, and the content type in brackets |
//! | `container` FIELD.. | whether a Link asks for a container |
//! | `upgrade` METHOD MINOR FIELD.. | the key of an upgrade, or `none` |
//! | `slug` FIELD.. | the first Slug, or `none` |
//! | `range` TAG FIELD.. | the only Range, or `none`, and whether If-Range lets it count for TAG |

use crate::preconditions::fields_of;
use crate::responses;
use case_words::{bytes, known, method_of, shown};
use pod_base::{Bytes, Fields, Mem, Request};
use request_fields::{
    allows_ranges, body_type, content_type, links_to_container, range, slug, upgrade_key,
};
use std::alloc::{AllocError, Global};

/// Bytes as a field, or `none`.
fn shown_or_none(alloc: Global, value: Option<&[u8]>) -> Result<String, AllocError> {
    match value {
        Some(value) => shown(alloc, value),
        None => String::from_str(alloc, "none"),
    }
}

/// The type of a body.
fn show_type(alloc: Global, fields: &Fields) -> Result<String, AllocError> {
    let given = body_type(fields);
    match content_type(fields) {
        Some(text) => {
            let text = shown(alloc, text.as_bytes())?;
            format!(in alloc; "{given:?} [{text}]")
        }
        None => format!(in alloc; "{given:?}"),
    }
}

/// The only Range, and whether it counts for a representation with that tag.
fn show_range(alloc: Global, fields: &Fields, tag: &str) -> Result<String, AllocError> {
    let tag = bytes(alloc, tag)?;
    let allowed = allows_ranges(fields, tag.as_slice());
    let value = shown_or_none(alloc, range(fields))?;
    format!(in alloc; "{value} {allowed}")
}

/// The request with a method, a minor version and the fields of some lines.
fn request_of(alloc: Global, method: &str, minor: &str, lines: &[&str]) -> Mem<Request> {
    Ok(Request {
        method: method_of(method),
        target: Bytes::of(alloc, b"/")?,
        minor: minor.parse::<u8>().unwrap_or(0),
        fields: fields_of(alloc, lines)?,
        body: Bytes::of(alloc, b"")?,
    })
}

/// The key of an upgrade.
fn show_key(
    alloc: Global,
    method: &str,
    minor: &str,
    lines: &[&str],
) -> Result<String, AllocError> {
    let request = known(request_of(alloc, method, minor, lines))?;
    shown_or_none(alloc, upgrade_key(&request))
}

/// What the library answers to a call on the fields of some lines.
fn form(alloc: Global, call: &str, tag: &str, lines: &[&str]) -> Result<String, AllocError> {
    let fields = known(fields_of(alloc, lines))?;
    match call {
        "type" => show_type(alloc, &fields),
        "container" => format!(in alloc; "{}", links_to_container(&fields)),
        "slug" => shown_or_none(alloc, slug(&fields)),
        _ => show_range(alloc, &fields, tag),
    }
}

/// What the library answers to the fields of a case.
pub(crate) fn answer(alloc: Global, words: &[&str]) -> Result<String, AllocError> {
    match words {
        ["type", lines @ ..] => form(alloc, "type", "", lines),
        ["container", lines @ ..] => form(alloc, "container", "", lines),
        ["slug", lines @ ..] => form(alloc, "slug", "", lines),
        ["range", tag, lines @ ..] => form(alloc, "range", tag, lines),
        ["upgrade", method, minor, lines @ ..] => show_key(alloc, method, minor, lines),
        _ => responses::answer(alloc, words),
    }
}
