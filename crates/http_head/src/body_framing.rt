//! How the body after a head is framed (RFC 9112, section 6.3).

ghost use Rattle.std.specs.Prelude.{◌≡◌, ◌&&◌, ◌||◌, ◌==◌, not, true, false, map, find, codes};
ghost use Rattle.std.specs.List.{list_all, list_any};
ghost use Rattle.std.specs.Str.{str_eq_ignore_ascii_case};
ghost use Rattle.pod_base.specs.Fields.{is_named};
ghost use Rattle.http_head.specs.BodyFraming as spec;

use crate::body_form::BodyForm;
use crate::content_length::{are_numbers, body_length, lengths_differ};
use crate::request_head::RequestHead;
use pod_base::Fields;
use thiserror::Error;

/// Why the body after a head can't be read.
#[derive(Clone, Copy, Debug, PartialEq, Eq, Error)]
pub enum FramingFault {
    /// The fields contradict each other, or a length is no number.
    #[error("fields contradict each other")]
    Conflict,
    /// The body has more than [`BODY_LIMIT`](crate::BODY_LIMIT) bytes.
    #[error("too large a body")]
    TooLarge,
    /// The body has another transfer coding than `chunked`.
    #[error("unknown transfer coding")]
    Coding,
}

/// Whether a head has a field of that name, for the framing of its body.
fn has_field(fields: &Fields, name: &str) -> bool
    ensures { result ≡ list_any (is_named name.now) fields.now }
{
    fields
        .list
        .as_slice()
        .iter()
        .any(|field| field.is_named(name))
}

/// Whether the fields that frame a body contradict each other or the version, or a length is no
/// number.
fn conflicts(minor: u8, fields: &Fields) -> bool
    ensures { result ≡ spec.conflicts minor fields.now }
{
    (has_field(fields, "content-length") && has_field(fields, "transfer-encoding"))
        || (has_field(fields, "transfer-encoding") && minor == 0)
        || !are_numbers(fields)
        || lengths_differ(fields)
}

/// Whether each Transfer-Encoding is `chunked`, in some case, which frames a body by chunks.
fn are_chunked(fields: &Fields) -> bool
    ensures { result ≡ list_all
        (λ f. str_eq_ignore_ascii_case f.value (codes "chunked")) (spec.codings fields.now) }
{
    fields
        .list
        .as_slice()
        .iter()
        .filter(|field| field.is_named("transfer-encoding"))
        .all(|field| field.value.as_slice().eq_ignore_ascii_case(b"chunked"))
}

/// Whether the Transfer-Encoding is `chunked` alone, which frames a body by chunks.
fn is_chunked(fields: &Fields) -> bool
    ensures { result ≡ spec.is_chunked (spec.codings fields.now) }
{
    fields.count("transfer-encoding") == 1 && are_chunked(fields)
}

/// The form of a body that no Transfer-Encoding frames: its length, or that it is empty.
fn length_form(fields: &Fields) -> Result<BodyForm, FramingFault>
    ensures { result ≡ spec.length_form fields.now }
{
    match fields.first("content-length") {
        None => Ok(BodyForm::Empty),
        Some(first) => match body_length(first.as_slice()) {
            Some(length) => Ok(BodyForm::Length(length)),
            None => Err(FramingFault::TooLarge),
        },
    }
}

/// How the body after a head is framed (RFC 9112, section 6.3). It takes no memory.
///
/// # Errors
///
/// The first of these: `Conflict` for Content-Length beside Transfer-Encoding, Transfer-Encoding in
/// version 1.0, a Content-Length that isn't digits alone, and Content-Lengths that are different
/// numbers; `Coding` for Transfer-Encoding whose values, joined by commas, are other than `chunked`
/// in any case; `TooLarge` for a length over [`BODY_LIMIT`](crate::BODY_LIMIT).
pub fn framing(head: &RequestHead) -> Result<BodyForm, FramingFault>
    ensures { result ≡ spec.framing head.now.minor head.now.fields }
{
    let fields = &head.fields;
    if conflicts(head.minor, fields) {
        return Err(FramingFault::Conflict);
    }
    if !has_field(fields, "transfer-encoding") {
        return length_form(fields);
    }
    if is_chunked(fields) {
        Ok(BodyForm::Chunked)
    } else {
        Err(FramingFault::Coding)
    }
}
