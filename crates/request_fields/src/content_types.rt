//! The type of a request's body (RFC 9110, section 8.3).

ghost use Rattle.std.specs.Prelude.{◌≡◌, ◌&&◌, ◌==◌, nat_le, nat_lt, length};
ghost use Rattle.std.specs.List.{list_all};
ghost use Rattle.std.specs.Option.{option_copied};
ghost use Rattle.request_fields.specs.ContentTypes as spec;

use crate::media_types::{MediaType, media_type};
use field_list::{only_value, trim};
use pod_base::Fields;

/// The most bytes of a content type.
pub const CONTENT_TYPE_LIMIT: usize = 256;

/// What the Content-Type fields of a request say.
#[derive(Clone, Copy, Debug, PartialEq, Eq)]
pub enum BodyType {
    /// There is none.
    Missing,
    /// There are several, or the one is no content type.
    Malformed,
    /// There is one, with this media type.
    Given(MediaType),
}

/// Whether a byte may be part of a content type: a space or a visible character of ASCII.
fn is_printable(byte: u8) -> bool
    ensures { result ≡ spec.is_printable byte }
{
    b' ' <= byte && byte <= b'~'
}

/// Whether each byte may be part of a content type.
fn are_printable(text: &[u8]) -> bool
    ensures { result ≡ list_all spec.is_printable text.now }
{
    text.iter().all(|byte| is_printable(*byte))
}

/// Whether a text is a content type: 1 to 256 bytes, each printable.
fn is_content_type(text: &[u8]) -> bool
    ensures { result ≡ spec.is_content_type text.now }
{
    !text.is_empty() && text.len() <= CONTENT_TYPE_LIMIT && are_printable(text)
}

/// The bytes of the content type of a request.
fn content_bytes<'a>(fields: &'a Fields) -> Option<&'a [u8]>
    ensures { option_copied result ≡ spec.content_type fields.entry.now }
{
    let value = trim(only_value(fields, "content-type")?);
    if is_content_type(value) {
        Some(value)
    } else {
        None
    }
}

/// The content type of a request: the value of its only Content-Type field, without the blanks
/// around it, where that has 1 to 256 bytes from space to `~`. It is the type that bytes are stored
/// with.
pub fn content_type<'a>(fields: &'a Fields) -> Option<&'a str>
    ensures { option_copied result ≡ spec.content_type fields.entry.now }
{
    match content_bytes(fields) {
        Some(bytes) => match str::from_utf8(bytes) {
            Ok(text) => Some(text),
            Err(_) => unreachable!(),
        },
        None => None,
    }
}

/// The type of a request's body, by its Content-Type fields.
pub fn body_type(fields: &Fields) -> BodyType
    ensures { result ≡ spec.body_type fields.now }
{
    if fields.count("content-type") == 0 {
        return BodyType::Missing;
    }
    match content_bytes(fields) {
        Some(value) => BodyType::Given(media_type(value)),
        None => BodyType::Malformed,
    }
}
