//! The parts of a body that a Range field names.

ghost use Rattle.std.specs.Prelude.{◌≡◌, true, length};
ghost use Rattle.std.specs.List.{list_all};
ghost use Rattle.range_req.specs.RangeSets.{is_within};

use case_words::{bytes, shown_whole};
use pod_base::{Bytes, List, Mem, NoMemory};
use range_req::{Part, RangeSet, multipart, ranges};
use std::alloc::{AllocError, Global};

fn show_parts(alloc: Global, parts: &[Part]) -> Result<String, AllocError> {
    let mut text = String::new(alloc);
    for part in parts {
        write!(text, "[{}-{}]", part.first, part.last)?;
    }
    Ok(text)
}

/// The parts of a body of that size.
pub(crate) fn answer(alloc: Global, value: &str, size: &str) -> Result<String, AllocError> {
    let value = bytes(alloc, value)?;
    match ranges(alloc, value.as_slice(), size.parse::<u64>().unwrap_or(0)) {
        Ok(RangeSet::Whole) => String::from_str(alloc, "whole"),
        Ok(RangeSet::Unsatisfiable) => String::from_str(alloc, "unsatisfiable"),
        Ok(RangeSet::Parts(parts)) => show_parts(alloc, parts.as_slice()),
        Err(NoMemory) => Err(AllocError),
    }
}

/// The boundary of several parts, and the length and the text of their response's body.
fn show_multipart(alloc: Global, ctype: &str, body: &Bytes, parts: &List<Part>) -> Mem<String>
    requires { list_all (is_within (length body.now)) parts.now.items ≡ true }
{
    let (boundary, text) = multipart(alloc, ctype, body, parts)?;
    let text = text.to_bytes(alloc)?;
    let shown = shown_whole(alloc, text.as_slice())?;
    Ok(format!(in alloc; "{} {} {shown}", boundary.as_str(), text.len())?)
}

/// The body of a response with the parts of a body that a field names.
fn body_of_parts(alloc: Global, ctype: &str, body: &Bytes, value: &[u8]) -> Mem<String> {
    match ranges(alloc, value, body.len() as u64)? {
        RangeSet::Parts(parts) => show_multipart(alloc, ctype, body, &parts),
        _ => Ok(String::from_str(alloc, "no parts")?),
    }
}

/// The body of a response with the parts that a field names.
pub(crate) fn text(
    alloc: Global,
    ctype: &str,
    body: &str,
    value: &str,
) -> Result<String, AllocError> {
    let body = bytes(alloc, body)?;
    let value = bytes(alloc, value)?;
    let Ok(body) = Bytes::from_vec(alloc, body) else {
        return Err(AllocError);
    };
    match body_of_parts(alloc, ctype, &body, value.as_slice()) {
        Ok(text) => Ok(text),
        Err(NoMemory) => Err(AllocError),
    }
}
