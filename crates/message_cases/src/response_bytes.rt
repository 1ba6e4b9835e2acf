//! The bytes of responses.

ghost use Rattle.std.specs.Prelude.{◌≡◌, ◌≤◌, ◌<◌, IfOk, IfSome};
ghost use Rattle.std.specs.List.{list_all};
ghost use Rattle.http_out.specs.Text as text;
ghost use Rattle.http_out.specs.Text.{AreFieldLines};

use case_words::{bytes, shown_whole};
use http_out::{Out, bytes_of, disk_text, interim, memory_text};
use pod_base::{Body, Bytes, Field, Fields, Moment, Response, Rope};
use std::alloc::{AllocError, Global};

/// Whether a byte may be part of a line.
fn stays_in_line(byte: u8) -> bool
    ensures { result ≡ text.stays_in_line byte }
{
    !(byte == 0 || byte == b'\n' || byte == b'\r')
}

/// Whether bytes may be part of a line.
fn is_in_line(bytes: &[u8]) -> bool
    ensures { result ≡ list_all text.stays_in_line bytes.now }
{
    bytes.iter().all(|byte| stays_in_line(*byte))
}

/// Whether each field is one line.
fn are_field_lines(fields: &Fields) -> bool
    ensures { result ≡ list_all text.is_field_line fields.now }
{
    fields.list.as_slice().iter().all(|field| is_in_line(field.name.as_slice())
        && is_in_line(field.value.as_slice()))
}

/// The bytes of a field of a case.
fn owned(alloc: Global, field: &str) -> Result<Bytes, AllocError> {
    let value = bytes(alloc, field)?;
    match Bytes::of(alloc, value.as_slice()) {
        Ok(value) => Ok(value),
        Err(_no_memory) => Err(AllocError),
    }
}

/// The field that `name: value` is.
fn field_of(alloc: Global, line: &str) -> Result<Field, AllocError> {
    let (name, value) = line.split_once(": ").unwrap_or((line, ""));
    let name = owned(alloc, name)?;
    let value = owned(alloc, value)?;
    Ok(Field { name, value })
}

fn fields_of(alloc: Global, lines: &[&str]) -> Result<Fields, AllocError> {
    let mut fields = Fields::new(alloc);
    for line in lines {
        let field = field_of(alloc, line)?;
        if fields.add(alloc, field).is_err() {
            return Err(AllocError);
        }
    }
    Ok(fields)
}

/// The body that a field says: `absent`, `length=N` for a length alone, or the bytes after
/// `bytes=`.
fn body_of(alloc: Global, field: &str) -> Result<Body, AllocError> {
    if let Some(length) = field.strip_prefix("length=") {
        return Ok(Body::LengthOnly(length.parse::<u64>().unwrap_or(0)));
    }
    match field.strip_prefix("bytes=") {
        Some(text) => {
            let bytes = owned(alloc, text)?;
            Ok(Body::Whole(Rope::of(alloc, bytes)))
        }
        None => Ok(Body::Absent),
    }
}

/// The response of a case, none where a field breaks its line.
fn response_of(
    alloc: Global,
    status: u16,
    body: &str,
    lines: &[&str],
) -> Result<Option<Response>, AllocError>
    ensures { IfOk result (λ found. IfSome found (λ r. AreFieldLines r.fields × ((100 ≤ r.status)
        × (r.status < 600)))) }
{
    let fields = fields_of(alloc, lines)?;
    let body = body_of(alloc, body)?;
    if are_field_lines(&fields) {
        Ok(Some(Response {
            status: status.clamp(100, 599),
            fields,
            body,
        }))
    } else {
        Ok(None)
    }
}

/// The bytes that an [`Out`] gives to slices of that size.
fn in_slices(
    alloc: Global,
    response: Response,
    moment: Moment,
    close: bool,
    size: usize,
) -> Result<Vec<u8>, AllocError>
    requires status { (100 ≤ response.status) × (response.status < 600) }
    requires fields { AreFieldLines response.fields }
{
    let mut out = Out::new(response, moment, close);
    let mut text = Vec::new(alloc);
    let mut slice = vec![in alloc; 7u8; size.max(1)]?;
    for _ in 0..10_000 {
        let count = out.next(&mut slice);
        text.extend_from_slice(&slice[..count])?;
        if count == 0 {
            break;
        }
    }
    Ok(text)
}

/// The size of slices that give other bytes than these, if there is one.
fn other_size(
    alloc: Global,
    status: u16,
    moment: Moment,
    close: bool,
    body: &str,
    lines: &[&str],
    whole: &[u8],
) -> Result<Option<usize>, AllocError> {
    for size in 1..whole.len().saturating_add(2) {
        if let Some(response) = response_of(alloc, status, body, lines)? {
            let text = in_slices(alloc, response, moment, close, size)?;
            if text.as_slice() != whole {
                return Ok(Some(size));
            }
        }
    }
    Ok(None)
}

/// The bytes of a response, the same at once and in slices of each size.
pub(crate) fn response(
    alloc: Global,
    seconds: &str,
    status: &str,
    close: &str,
    body: &str,
    lines: &[&str],
) -> Result<String, AllocError> {
    let moment = Moment(seconds.parse::<u64>().unwrap_or(0));
    let status = status.parse::<u16>().unwrap_or(0);
    let close = close == "close";
    match response_of(alloc, status, body, lines)? {
        None => String::from_str(alloc, "a field breaks its line"),
        Some(response) => {
            let Ok(whole) = bytes_of(alloc, &response, moment, close) else {
                return Err(AllocError);
            };
            match other_size(alloc, status, moment, close, body, lines, whole.as_slice())? {
                Some(size) => format!(in alloc; "differs in slices of {size}"),
                None => shown_whole(alloc, whole.as_slice()),
            }
        }
    }
}

/// A fixed response.
pub(crate) fn fixed(alloc: Global, name: &str) -> Result<String, AllocError> {
    match name {
        "interim" => shown_whole(alloc, interim()),
        "memory" => shown_whole(alloc, memory_text()),
        "disk" => shown_whole(alloc, disk_text()),
        _ => String::from_str(alloc, "no case"),
    }
}
