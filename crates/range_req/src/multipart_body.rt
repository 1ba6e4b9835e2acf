//! The body of a response with several parts of a body (RFC 9110, section 14.6), which shares their
//! bytes.

ghost use Rattle.std.specs.Prelude.{◌≡◌, ◌+◌, ◌++◌, true, IfOk, length, slice_range, codes};
ghost use Rattle.std.specs.List.{flat_map, list_all};
ghost use Rattle.range_req.specs.Multipart as spec;
ghost use Rattle.range_req.specs.RangeSets.{is_within};

use crate::boundary_search::free_boundary;
use crate::byte_range::Part;
use itoa::Buffer;
use pod_base::{Bytes, BytesBuilder, List, Mem, Rope, Text};
use std::alloc::Global;

/// Appends pieces of text to a multipart body, one after another.
fn append_all(alloc: Global, text: &mut BytesBuilder, pieces: &[&[u8]]) -> Mem<()>
    ensures { IfOk result (λ _. text.new ≡ text.old ++ flat_map (λ p. p.now) pieces.now) }
{
    for piece in pieces {
        text.append(alloc, piece)?;
    }
    Ok(())
}

/// Appends the fields of a part of a multipart body.
fn append_fields(
    alloc: Global,
    text: &mut BytesBuilder,
    ctype: &str,
    part: &Part,
    size: u64,
) -> Mem<()>
    ensures { IfOk result (λ _. text.new ≡ text.old ++ spec.part_fields ctype.now part.now size) }
{
    let mut first = Buffer::new();
    let mut last = Buffer::new();
    let mut whole = Buffer::new();
    append_all(
        alloc,
        text,
        &[
            b"\r\nContent-Type: ".as_slice(),
            ctype.as_bytes(),
            b"\r\nContent-Range: bytes ".as_slice(),
            first.format(part.first).as_bytes(),
            b"-".as_slice(),
            last.format(part.last).as_bytes(),
            b"/".as_slice(),
            whole.format(size).as_bytes(),
            b"\r\n\r\n".as_slice(),
        ],
    )
}

/// The bytes of one part of a body, alone or in a multipart body, which share the body's block. It
/// takes no memory.
pub fn part_bytes(alloc: Global, body: &Bytes, part: &Part) -> Mem<Bytes>
    requires { is_within (length body.now) part.now ≡ true }
    ensures { IfOk result (λ bytes. bytes ≡ slice_range body.now part.now.first (part.now.last + 1)) }
{
    let _end = body.len();
    body.slice(alloc, part.first as usize, part.last as usize + 1)
}

/// What precedes the bytes of a part in a multipart body: its delimiter and its fields.
fn part_head(alloc: Global, boundary: &str, ctype: &str, part: &Part, size: u64) -> Mem<Bytes>
    ensures { IfOk result (λ head. head
        ≡ spec.delimiter boundary.now ++ spec.part_fields ctype.now part.now size) }
{
    let mut head = BytesBuilder::new(alloc);
    append_all(alloc, &mut head, &[b"--".as_slice(), boundary.as_bytes()])?;
    append_fields(alloc, &mut head, ctype, part, size)?;
    head.freeze(alloc)
}

/// Appends a part to a multipart body: its delimiter, its fields and its bytes, which aren't
/// copied.
fn push_part(
    alloc: Global,
    text: &mut Rope,
    boundary: &str,
    ctype: &str,
    body: &Bytes,
    part: &Part,
) -> Mem<()>
    requires { is_within (length body.now) part.now ≡ true }
    ensures { IfOk result (λ _. text.new ≡ text.old ++ spec.part_text boundary.now ctype.now body.now part.now) }
{
    let head = part_head(alloc, boundary, ctype, part, body.len() as u64)?;
    let bytes = part_bytes(alloc, body, part)?;
    text.push(alloc, head)?;
    text.push(alloc, bytes)?;
    text.push(alloc, Bytes::from_static(b"\r\n"))?;
    Ok(())
}

/// Appends all parts to a multipart body.
fn push_parts(
    alloc: Global,
    text: &mut Rope,
    boundary: &str,
    ctype: &str,
    body: &Bytes,
    parts: &[Part],
) -> Mem<()>
    requires { list_all (is_within (length body.now)) parts.now ≡ true }
    ensures { IfOk result (λ _. text.new ≡ text.old ++ flat_map (spec.part_text boundary.now ctype.now body.now) parts.now) }
{
    let mut rest = parts;
    while let Some((part, more)) = rest.split_first() {
        push_part(alloc, text, boundary, ctype, body, part)?;
        rest = more;
    }
    Ok(())
}

/// The delimiter at the end of a multipart body.
fn last_delimiter(alloc: Global, boundary: &str) -> Mem<Bytes>
    ensures { IfOk result (λ end. end ≡ spec.delimiter boundary.now ++ codes "--\r\n") }
{
    let mut end = BytesBuilder::new(alloc);
    append_all(
        alloc,
        &mut end,
        &[b"--".as_slice(), boundary.as_bytes(), b"--\r\n".as_slice()],
    )?;
    end.freeze(alloc)
}

/// The boundary of a multipart body, and that body with these parts of a body, whose bytes are
/// shared.
///
/// The boundary is the first of `pod-0`, `pod-1`, .. whose delimiter isn't in the body. The content
/// type of the response is `multipart/byteranges; boundary=` and the boundary.
pub fn multipart(alloc: Global, ctype: &str, body: &Bytes, parts: &List<Part>) -> Mem<(Text, Rope)>
    requires { list_all (is_within (length body.now)) parts.now.items ≡ true }
    ensures boundary { IfOk result (λ r. spec.IsFreeBoundary body.now r.0) }
    ensures named { IfOk result (λ r. r.0 ≡ spec.free_boundary body.now) }
    ensures text { IfOk result (λ r. r.1 ≡ spec.multipart_text r.0 ctype.now body.now parts.now.items) }
{
    let boundary = free_boundary(alloc, body.as_slice())?;
    let mut text = Rope::of(alloc, Bytes::new());
    push_parts(
        alloc,
        &mut text,
        boundary.as_str(),
        ctype,
        body,
        parts.as_slice(),
    )?;
    let end = last_delimiter(alloc, boundary.as_str())?;
    text.push(alloc, end)?;
    let boundary = Text::from_string(alloc, boundary)?;
    Ok((boundary, text))
}
