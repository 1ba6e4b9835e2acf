//! The bytes of each segment of a response's text, copied into a slice.

ghost use Rattle.std.specs.Prelude.{◌≡◌, ◌≢◌, ◌<◌, ◌+◌, ◌-◌, ◌^◌, ◌∷◌, ◌++◌, [], min, take, drop};
ghost use Rattle.std.specs.Prelude.{length, IfSome, IfNone};
ghost use Rattle.std.specs.Option.{option_copied};
ghost use Rattle.http_out.specs.Text as text;
ghost use Rattle.http_out.specs.Segments.{first_name, first_colon, first_value, first_line_end};
ghost use Rattle.http_out.specs.Segments.{length_digits, segment_text};

use crate::head_parts::{HeadParts, phrase_of};
use crate::segment::Segment;
use itoa::Buffer;
use pod_base::{Body, Field, Fields, Response, copy_bytes};

/// The field of a response whose line has the segments of that number.
fn field_at(fields: &Fields, i: usize) -> Option<&Field>
    ensures some { IfSome (option_copied result) (λ f. drop i fields.now
        ≡ f ∷ drop (i + 1) fields.now) }
    ensures none { IfNone result (drop i fields.now ≡ []) }
{
    fields.list.as_slice().get(i)
}

/// The bytes of a segment of a field's line; none where there is no such field.
fn field_bytes(fields: &Fields, i: usize, segment: Segment) -> &[u8]
    ensures name { segment ≡ Segment.Name i → result.now ≡ first_name (drop i fields.now) }
    ensures colon { segment ≡ Segment.Colon i → result.now ≡ first_colon (drop i fields.now) }
    ensures value { segment ≡ Segment.Value i → result.now ≡ first_value (drop i fields.now) }
    ensures line_end { segment ≡ Segment.LineEnd i
        → result.now ≡ first_line_end (drop i fields.now) }
{
    match field_at(fields, i) {
        None => b"",
        Some(field) => match segment {
            Segment::Name(_) => field.name.as_slice(),
            Segment::Colon(_) => b": ",
            Segment::Value(_) => field.value.as_slice(),
            _ => b"\r\n",
        },
    }
}

/// Whether the segments of a response's length and body have no bytes, by its status (RFC 9112,
/// section 6.3).
fn has_no_length(status: u16) -> bool
    ensures { result ≡ text.has_no_length status }
{
    status < 200 || status == 204 || status == 304
}

/// The bytes of the segment that says that the connection closes, where the response has it.
fn closing_line(status: u16, close: bool) -> &'static [u8]
    ensures { result.now ≡ text.closing_line status close }
{
    if close && status != 101 {
        b"Connection: close\r\n"
    } else {
        b""
    }
}

/// The bytes of a segment, but for the digits of the length and the body.
fn segment_bytes<'a>(response: &'a Response, head: &'a HeadParts, segment: Segment) -> &'a [u8]
    requires { head.now.code ≡ response.now.status }
    ensures { segment ≢ Segment.Length → segment ≢ Segment.Body → result.now
        ≡ segment_text response.now head.now.date head.now.close segment }
{
    match segment {
        Segment::Version => b"HTTP/1.1 ",
        Segment::Code => head.code.as_str().as_bytes(),
        Segment::Space => b" ",
        Segment::Phrase => phrase_of(&head.code).as_bytes(),
        Segment::DateName => b"\r\nDate: ",
        Segment::Date => &head.date,
        Segment::DateEnd | Segment::HeadEnd => b"\r\n",
        Segment::Name(i) | Segment::Colon(i) | Segment::Value(i) | Segment::LineEnd(i) => {
            field_bytes(&response.fields, i, segment)
        }
        Segment::Closing => closing_line(response.status, head.close),
        Segment::LengthName if !has_no_length(response.status) => b"Content-Length: ",
        Segment::LengthEnd if !has_no_length(response.status) => b"\r\n",
        _ => b"",
    }
}

/// The length of a response's body, whose digits are the bytes of a segment.
fn body_length(body: &Body) -> u64
    ensures { result ≡ text.body_length body.now }
{
    match body {
        Body::Absent => 0,
        Body::Whole(bytes) => bytes.len() as u64,
        Body::LengthOnly(length) => *length,
    }
}

/// Copies the bytes of the segment with the length's digits from an offset on, as far as they go:
/// returns how many.
fn copy_length(response: &Response, offset: usize, into: &mut [u8]) -> usize
    ensures count { result ≡ min (length (length_digits response.now) - offset) (length into.old) }
    ensures copied { into.new ≡ take result (drop offset (length_digits response.now))
        ++ drop result into.old }
    ensures fits { offset + result < 2 ^ 64 }
{
    if has_no_length(response.status) {
        return copy_bytes(b"", offset, into);
    }
    let mut digits = Buffer::new();
    let length = body_length(&response.body);
    copy_bytes(digits.format(length).as_bytes(), offset, into)
}

/// Copies the bytes of the segment with the body that is sent from an offset on, as far as it goes:
/// returns how many.
fn copy_body(response: &Response, offset: usize, into: &mut [u8]) -> usize
    ensures count { result ≡ min (length (text.body_text response.now) - offset) (length into.old) }
    ensures copied { into.new ≡ take result (drop offset (text.body_text response.now))
        ++ drop result into.old }
    ensures fits { offset + result < 2 ^ 64 }
{
    if has_no_length(response.status) {
        return 0;
    }
    match &response.body {
        Body::Whole(bytes) => bytes.copy_from(offset, into),
        Body::Absent => 0,
        Body::LengthOnly(_) => 0,
    }
}

/// Copies the bytes of a segment from an offset on, as far as it goes: returns how many.
pub(crate) fn copy_segment(
    response: &Response,
    head: &HeadParts,
    segment: Segment,
    offset: usize,
    into: &mut [u8],
) -> usize
    requires { head.now.code ≡ response.now.status }
    ensures count { result
        ≡ min (length (segment_text response.now head.now.date head.now.close segment) - offset)
        (length into.old) }
    ensures copied { into.new
        ≡ take result (drop offset (segment_text response.now head.now.date head.now.close segment))
        ++ drop result into.old }
    ensures fits { offset + result < 2 ^ 64 }
{
    match segment {
        Segment::Length => copy_length(response, offset, into),
        Segment::Body => copy_body(response, offset, into),
        _ => copy_bytes(segment_bytes(response, head, segment), offset, into),
    }
}
