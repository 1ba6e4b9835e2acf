//! A position in a response's text, and the copying of bytes from there on.

ghost use Rattle.std.specs.Prelude.{◌≡◌, ◌≢◌, ◌<◌, ◌+◌, ◌-◌, min, length};
ghost use Rattle.http_out.specs.Segments.{CopiesPrefix, left_of, segments_left};

use crate::head_parts::HeadParts;
use crate::segment::Segment;
use crate::segment_bytes::copy_segment;
use pod_base::{Fields, Response};

/// A segment, and how many of its bytes were copied.
#[derive(Clone, Copy, Debug)]
pub(crate) struct Cursor {
    pub(crate) segment: Segment,
    pub(crate) offset: usize,
}

/// How many fields a response has, over whose lines the cursor goes.
fn field_count(fields: &Fields) -> usize
    ensures { result ≡ length fields.now }
{
    fields.list.len()
}

/// Copies bytes of the segment at the cursor, and goes to the next segment where there is room for
/// more.
fn copy_next(response: &Response, head: &HeadParts, cursor: &mut Cursor, into: &mut [u8]) -> usize
    requires code { head.now.code ≡ response.now.status }
    requires not_end { cursor.old.segment ≢ Segment.End }
    requires some { 0 < length into.old }
    ensures copies { CopiesPrefix (left_of response.now head.now cursor.old)
        (left_of response.now head.now cursor.new) into.old into.new result }
    ensures nearer { segments_left (length response.now.fields) cursor.new.segment
        + (length into.old - result)
        < segments_left (length response.now.fields) cursor.old.segment + length into.old }
{
    let count = copy_segment(response, head, cursor.segment, cursor.offset, into);
    if count == into.len() {
        cursor.offset += count;
    } else {
        cursor.segment = cursor.segment.next(field_count(&response.fields));
        cursor.offset = 0;
    }
    count
}

/// Copies bytes of a response from the cursor on, as many as there is room for: returns how many.
pub(crate) fn fill(
    response: &Response,
    head: &HeadParts,
    cursor: &mut Cursor,
    into: &mut [u8],
) -> usize
    requires { head.now.code ≡ response.now.status }
    ensures copies { CopiesPrefix (left_of response.now head.now cursor.old)
        (left_of response.now head.now cursor.new) into.old into.new result }
    ensures count { result
        ≡ min (length (left_of response.now head.now cursor.old)) (length into.old) }
{
    let mut count = 0;
    while count < into.len() && !cursor.segment.is_end() {
        count += copy_next(response, head, cursor, &mut into[count..]);
    }
    count
}
