//! Cases of reads.

use crate::print::{place, shown};
use conditional_req::{Tag, tag_of};
use http_out::date_of;
use pod_base::{Body, Bytes, Mem, Moment, Response, Rope};
use pod_responses::{Representation, not_modified, partial, shown as shown_response, upgraded};
use std::alloc::{AllocError, Global};
use stored_bytes::digest_of;

const CHANGED: Moment = Moment(784_111_777);

/// The tag of the bytes `hello`.
fn tag() -> Tag {
    tag_of(&digest_of("text/plain", b"hello"), b'b')
}

fn representation(alloc: Global, ctype: &str, ranges: bool) -> Mem<Representation> {
    let ctype = Bytes::of(alloc, ctype.as_bytes())?;
    Ok(Representation {
        ctype,
        tag: tag(),
        modified: CHANGED,
        granted: Bytes::from_static(b"user=\"read\",public=\"\""),
        ranges,
    })
}

fn hello(alloc: Global) -> Body {
    Body::Whole(Rope::of(alloc, Bytes::from_static(b"hello")))
}

fn reading(alloc: Global, path: &str, ctype: &str, ranges: bool) -> Mem<Option<Response>> {
    let Some((base, path)) = place(alloc, path)? else {
        return Ok(None);
    };
    let representation = representation(alloc, ctype, ranges)?;
    Ok(Some(shown_response(alloc, &base, &path, representation, hello(alloc))?))
}

pub(crate) fn shown_at(
    alloc: Global,
    path: &str,
    ctype: &str,
    ranges: bool,
) -> Result<String, AllocError> {
    shown(alloc, reading(alloc, path, ctype, ranges))
}

fn range_value(alloc: Global, range: Option<&&str>) -> Mem<Option<Bytes>> {
    match range {
        Some(range) => Ok(Some(Bytes::of(alloc, range.as_bytes())?)),
        None => Ok(None),
    }
}

fn part_reading(
    alloc: Global,
    path: &str,
    ctype: &str,
    range: Option<&&str>,
) -> Mem<Option<Response>> {
    let Some((base, path)) = place(alloc, path)? else {
        return Ok(None);
    };
    let representation = representation(alloc, ctype, true)?;
    let range = range_value(alloc, range)?;
    Ok(Some(partial(alloc, &base, &path, representation, range, hello(alloc))?))
}

pub(crate) fn part(
    alloc: Global,
    path: &str,
    ctype: &str,
    range: Option<&&str>,
) -> Result<String, AllocError> {
    shown(alloc, part_reading(alloc, path, ctype, range))
}

fn unchanged(alloc: Global) -> Mem<Option<Response>> {
    Ok(Some(not_modified(alloc, &tag(), CHANGED)?))
}

pub(crate) fn same(alloc: Global) -> Result<String, AllocError> {
    shown(alloc, unchanged(alloc))
}

fn opening(alloc: Global, accept: &str) -> Mem<Option<Response>> {
    let accept = Bytes::of(alloc, accept.as_bytes())?;
    Ok(Some(upgraded(alloc, accept)?))
}

pub(crate) fn opened(alloc: Global, accept: &str) -> Result<String, AllocError> {
    shown(alloc, opening(alloc, accept))
}

pub(crate) fn date(alloc: Global, second: &str) -> Result<String, AllocError> {
    let date = date_of(Moment(second.parse::<u64>().unwrap_or(0)));
    case_words::shown(alloc, &date)
}
