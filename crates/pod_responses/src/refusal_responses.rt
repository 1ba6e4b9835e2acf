//! Refusals, and the response that a representation wasn't modified.

ghost use Rattle.std.specs.Prelude.{◌≡◌, ◌++◌, ◌∷◌, [], IfOk, codes, decimal};
ghost use Rattle.pod_responses.specs.Links.{field};
ghost use Rattle.pod_responses.specs.Responses as spec;

use crate::add_field::{add, add_static};
use crate::allow_and_accept::{add_accept_patch, add_accept_put, add_allow};
use crate::read_responses::{add_validators, add_vary};
use conditional_req::Tag;
use pod_base::{Body, Bytes, BytesBuilder, Fields, Mem, Method, Moment, Response, Rope};
use pod_path::Path;
use std::alloc::Global;

/// The fields with which the response of every refusal begins.
fn refusal_fields(alloc: Global) -> Mem<Fields>
    ensures { IfOk result (λ fields. fields ≡ field (codes "Content-Type") (codes "text/plain") ∷ []) }
{
    let mut fields = Fields::new(alloc);
    add_static(alloc, &mut fields, "Content-Type", "text/plain")?;
    Ok(fields)
}

/// The body of a refusal's response: a word and the end of its line.
fn word_line(alloc: Global, word: &[u8]) -> Mem<Bytes>
    ensures { IfOk result (λ line. line ≡ word.now ++ codes "\n") }
{
    let mut line = BytesBuilder::new(alloc);
    line.reserve(alloc, word.len())?;
    line.append(alloc, word)?;
    line.append(alloc, b"\n")?;
    line.freeze(alloc)
}

/// The response of a refusal with these fields.
fn refused(alloc: Global, status: u16, word: &[u8], fields: Fields) -> Mem<Response>
    ensures { IfOk result (λ response. response
        ≡ spec.response status fields (spec.word_body word.now)) }
{
    let line = word_line(alloc, word)?;
    Ok(Response {
        status,
        fields,
        body: Body::Whole(Rope::of(alloc, line)),
    })
}

/// The response of a refusal that has nothing but its word.
pub fn refusal(alloc: Global, status: u16, word: &[u8]) -> Mem<Response>
    ensures { IfOk result (λ response. response ≡ spec.refusal status word.now) }
{
    let fields = refusal_fields(alloc)?;
    refused(alloc, status, word, fields)
}

/// The response 401 of a refusal: the client should authenticate itself by a token.
pub fn unauthorized(alloc: Global, word: &[u8]) -> Mem<Response>
    ensures { IfOk result (λ response. response ≡ spec.unauthorized word.now) }
{
    let mut fields = refusal_fields(alloc)?;
    add_static(alloc, &mut fields, "WWW-Authenticate", "Bearer")?;
    refused(alloc, 401, word, fields)
}

/// The response 405 of a refusal: the path doesn't take the method.
pub fn not_allowed(alloc: Global, path: &Path) -> Mem<Response>
    ensures { IfOk result (λ response. response ≡ spec.not_allowed path.now) }
{
    let mut fields = refusal_fields(alloc)?;
    add_allow(alloc, &mut fields, path)?;
    refused(alloc, 405, b"not-allowed", fields)
}

/// The response 415 of a refusal: the method doesn't take a body of this type at the path.
pub fn unsupported(alloc: Global, method: Method, path: &Path) -> Mem<Response>
    ensures { IfOk result (λ response. response ≡ spec.unsupported method path.now) }
{
    let mut fields = refusal_fields(alloc)?;
    match method {
        Method::Patch => add_accept_patch(alloc, &mut fields)?,
        _ => add_accept_put(alloc, &mut fields, path)?,
    }
    refused(alloc, 415, b"type", fields)
}

/// The value of `Content-Range` in the response 416 of a refusal, where no part is sent.
fn unsatisfied_range(alloc: Global, size: u64) -> Mem<Bytes>
    ensures { IfOk result (λ value. value ≡ codes "bytes */" ++ decimal size) }
{
    let mut digits = itoa::Buffer::new();
    let mut value = BytesBuilder::new(alloc);
    value.append(alloc, b"bytes */")?;
    value.append(alloc, digits.format(size).as_bytes())?;
    value.freeze(alloc)
}

/// The response 416 of a refusal: no range of the request is in the bytes, of which there are so
/// many.
pub fn unsatisfiable(alloc: Global, size: u64) -> Mem<Response>
    ensures { IfOk result (λ response. response ≡ spec.unsatisfiable size) }
{
    let mut fields = refusal_fields(alloc)?;
    let range = unsatisfied_range(alloc, size)?;
    add(alloc, &mut fields, "Content-Range", range)?;
    refused(alloc, 416, b"range", fields)
}

/// The response 304, which as a refusal has no representation: the client has the one of this tag.
pub fn not_modified(alloc: Global, tag: &Tag, modified: Moment) -> Mem<Response>
    ensures { IfOk result (λ response. response ≡ spec.not_modified tag.now.0 modified.0) }
{
    let mut fields = Fields::new(alloc);
    add_validators(alloc, &mut fields, tag, modified)?;
    add_vary(alloc, &mut fields)?;
    Ok(Response {
        status: 304,
        fields,
        body: Body::Absent,
    })
}
