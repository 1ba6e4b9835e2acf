//! The parts of a complete head (RFC 9112, sections 3 and 5).

ghost use Rattle.std.specs.Prelude.{◌≡◌, ◌≤◌, ◌==◌, ◌&&◌, not, ℕ, length, map, All, IfOk, IfSome};
ghost use Rattle.std.specs.Prelude.{IfNone, IsErrOf, codes};
ghost use Rattle.std.specs.Str.{str_to_ascii_lowercase, str_eq_ignore_ascii_case};
ghost use Rattle.httparse.specs.Grammar as grammar;
ghost use Rattle.httparse.specs.Spans.{IsRequestAt, IsRequestWithin, IsHeaderWithin, IsWithin};
ghost use Rattle.httparse.specs.Spans.{span_bytes, header_bytes};
ghost use Rattle.http_head.specs.declared.head_ends.HeadEnd.TheVariants as end;
ghost use Rattle.http_head.specs.HeadEnds.{head_end};
ghost use Rattle.http_head.specs.Heads as heads;
ghost use Rattle.http_head.specs.Heads.{HasTooManyLines, IsMalformedHead, LacksHost, ParsesTo};

use crate::head_ends::{blank_length, suffix_from};
use crate::request_head::{HeadFault, RequestHead};
use httparse::Status;
use httparse::spans::{EMPTY_HEADER_SPAN, HeaderSpan, RequestSpans, Span, parse_request};
use memchr::memchr_iter;
use pod_base::{Bytes, Field, Fields, Mem, Method, NoMemory};
use std::alloc::Global;

/// The most lines of a head, from its request line on.
pub const HEAD_LINE_LIMIT: usize = 66;

/// The most fields of a head.
pub const FIELD_LIMIT: usize = 64;

/// How many lines a head that is parsed has, from its request line on.
fn line_count(head: &[u8]) -> usize
    ensures { result ≡ heads.line_count head.now }
{
    let lines = suffix_from(head, blank_length(head));
    memchr_iter(b'\n', lines).count()
}

/// The spans of the parts to which a head is parsed, where it is one.
fn spans_of(head: &[u8], spans: &mut [HeaderSpan; FIELD_LIMIT]) -> Option<RequestSpans>
    ensures within { IfSome result (IsRequestWithin head.now spans.new) }
    ensures found { IfSome result (λ r. (h : grammar.RequestHead) × heads.HasParts head.now h
        × IsRequestAt head.now spans.new r h) }
    ensures none { IfNone result ((h : grammar.RequestHead) → heads.HasParts head.now h → ⊥) }
{
    match parse_request(head, spans) {
        Ok(Status::Complete(found)) if found.len == head.len() => Some(found),
        _ => None,
    }
}

/// Whether that is the name of a head's Host field.
fn is_host(name: &[u8]) -> bool
    ensures { result ≡ str_eq_ignore_ascii_case name.now (codes "host") }
{
    name.eq_ignore_ascii_case(b"host")
}

/// How many of the fields of a parsed head are Host, in any case.
fn host_count(head: &[u8], spans: &[HeaderSpan]) -> usize
    requires { All (IsHeaderWithin (length head.now)) spans.now }
    ensures { result ≡ heads.host_count (map (header_bytes head.now) spans.now) }
{
    let mut count = 0;
    for span in spans {
        count += usize::from(is_host(span.name.of(head)));
    }
    count
}

/// The method that the first word of a head names.
fn method_of(word: &[u8]) -> Method
    ensures { result ≡ heads.method_of word.now }
{
    if word == b"GET".as_slice() {
        Method::Get
    } else if word == b"HEAD".as_slice() {
        Method::Head
    } else if word == b"OPTIONS".as_slice() {
        Method::Options
    } else if word == b"POST".as_slice() {
        Method::Post
    } else if word == b"PUT".as_slice() {
        Method::Put
    } else if word == b"PATCH".as_slice() {
        Method::Patch
    } else if word == b"DELETE".as_slice() {
        Method::Delete
    } else {
        Method::Other
    }
}

/// The known name of a head's field, where the name is that in any case.
fn if_known(name: &[u8], known: &'static [u8]) -> Option<Bytes>
    requires { str_to_ascii_lowercase known.now ≡ known.now }
    ensures { IfSome result (λ lower. lower ≡ str_to_ascii_lowercase name.now) }
{
    if name.eq_ignore_ascii_case(known) {
        Some(Bytes::from_static(known))
    } else {
        None
    }
}

/// The name of a head's field in lower case, where most heads have it. It takes no memory.
fn known_name(name: &[u8]) -> Option<Bytes>
    ensures { IfSome result (λ lower. lower ≡ str_to_ascii_lowercase name.now) }
{
    match name.len() {
        4 => if_known(name, b"host"),
        6 => if_known(name, b"accept"),
        10 => if_known(name, b"user-agent"),
        12 => if_known(name, b"content-type"),
        13 => if_known(name, b"authorization"),
        14 => if_known(name, b"content-length"),
        _ => None,
    }
}

/// The name of a head's field in lower case.
fn lower_name(alloc: Global, name: &[u8]) -> Mem<Bytes>
    ensures { IfOk result (λ lower. lower ≡ str_to_ascii_lowercase name.now) }
{
    if let Some(known) = known_name(name) {
        return Ok(known);
    }
    let lower = name.to_ascii_lowercase(alloc)?;
    match Bytes::from_vec(alloc, lower) {
        Ok(lower) => Ok(lower),
        Err(_) => Err(NoMemory),
    }
}

/// The part of a parsed head that a span covers. It shares the head's block.
fn part(alloc: Global, head: &Bytes, span: Span) -> Mem<Bytes>
    requires { IsWithin (length head.now) span }
    ensures { IfOk result (λ part. part ≡ span_bytes head.now span) }
{
    head.slice(alloc, span.start, span.end)
}

/// The field that a line of a head is parsed to. Its value shares the head's block.
fn field_of(alloc: Global, head: &Bytes, span: &HeaderSpan) -> Mem<Field>
    requires within { IsHeaderWithin (length head.now) span.now }
    ensures { IfOk result (λ field. field ≡ heads.field_of (header_bytes head.now span.now)) }
{
    let name = lower_name(alloc, span.name.of(head.as_slice()))?;
    let value = part(alloc, head, span.value)?;
    Ok(Field { name, value })
}

/// The fields that the lines of a head are parsed to.
fn fields_of(alloc: Global, head: &Bytes, spans: &[HeaderSpan]) -> Mem<Fields>
    requires within { All (IsHeaderWithin (length head.now)) spans.now }
    ensures { IfOk result (λ fields.
        fields ≡ map heads.field_of (map (header_bytes head.now) spans.now)) }
{
    let mut fields = Fields::new(alloc);
    for span in spans {
        let field = field_of(alloc, head, span)?;
        fields.add(alloc, field)?;
    }
    Ok(fields)
}

/// The head of the parts to which its bytes were parsed. The target and the values share one block,
/// a copy of the head's bytes.
fn head_of(
    alloc: Global,
    bytes: &[u8],
    found: &RequestSpans,
    lines: &[HeaderSpan],
) -> Mem<RequestHead>
    requires method { IsWithin (length bytes.now) found.now.method }
    requires path { IsWithin (length bytes.now) found.now.path }
    requires lines { All (IsHeaderWithin (length bytes.now)) lines.now }
    ensures { IfOk result (λ parsed. parsed
        ≡ heads.head_with (span_bytes bytes.now found.now.method)
        (span_bytes bytes.now found.now.path) found.now.version
        (map (header_bytes bytes.now) lines.now)) }
{
    let head = Bytes::of(alloc, bytes)?;
    let method = method_of(found.method.of(bytes));
    let target = part(alloc, &head, found.path)?;
    let fields = fields_of(alloc, &head, lines)?;
    Ok(RequestHead {
        method,
        target,
        minor: found.version,
        fields,
    })
}

/// Whether a parsed head of that minor version has the wrong number of Host fields.
fn lacks_host(minor: u8, hosts: usize) -> bool
    ensures { result ≡ (minor == 1 && not (hosts == 1)) }
{
    minor == 1 && hosts != 1
}

/// Parses a complete head, as [`head_end`](crate::head_end) finds it (RFC 9112, sections 2.2, 3
/// and 5).
///
/// It copies the head once, into one block: the target and the values of fields are parts of that
/// block, and each keeps it alive. A name that most heads have takes no memory, and any other has a
/// block of its own. So the number of allocations goes by the number of fields, and not by the bytes
/// of their values.
///
/// # Errors
///
/// The first of these: `TooMany` with more than [`HEAD_LINE_LIMIT`] lines from the request line on,
/// `Malformed` where the head isn't in the grammar or has more than [`FIELD_LIMIT`] fields, and
/// `Host` where a head of HTTP/1.1 hasn't exactly one Host. Then `NoMemory`.
pub fn read_head(alloc: Global, head: &[u8]) -> Result<RequestHead, HeadFault>
    requires { head_end head.now ≡ end.Whole (length head.now) }
    ensures ok { IfOk result (ParsesTo head.now) }
    ensures too_many { IsErrOf result HeadFault.TooMany → HasTooManyLines head.now }
    ensures malformed { IsErrOf result HeadFault.Malformed → IsMalformedHead head.now }
    ensures host { IsErrOf result HeadFault.Host → LacksHost head.now }
{
    if line_count(head) > HEAD_LINE_LIMIT {
        return Err(HeadFault::TooMany);
    }
    let mut spans = [EMPTY_HEADER_SPAN; FIELD_LIMIT];
    let Some(found) = spans_of(head, &mut spans) else {
        return Err(HeadFault::Malformed);
    };
    let lines = &spans[..found.headers];
    if lacks_host(found.version, host_count(head, lines)) {
        return Err(HeadFault::Host);
    }
    match head_of(alloc, head, &found, lines) {
        Ok(parsed) => Ok(parsed),
        Err(_no_memory) => Err(HeadFault::NoMemory),
    }
}
