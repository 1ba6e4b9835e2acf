//! [`one_request`]: a text that is to be one request and nothing else.

ghost use Rattle.std.specs.Prelude.{◌≡◌, ◌⊎◌, ◌<◌, ◌≤◌, ℕ, List as Items, true, false, length};
ghost use Rattle.std.specs.Prelude.{take, drop, IsTrue, IfOk, IfSome, IfNone};
ghost use Rattle.pod_base.specs.declared.request.Request.{Request as Parsed};
ghost use Rattle.http_head.specs.declared.request_head.RequestHead.{RequestHead as Head};
ghost use Rattle.http_head.specs.declared.body_form.BodyForm.{BodyForm as Form};
ghost use Rattle.http_payload.specs.Bodies.{IsBody};
ghost use Rattle.http_conn.specs.Messages.{HasHead};
ghost use Rattle.http_conn.specs.SingleRequest.{AreEmptyLines, IsOneRequest};
ghost use Rattle.http_head.specs.HeadEnds as ends;
ghost use Rattle.http_head.specs.declared.head_ends.HeadEnd.TheVariants as end;
ghost use Rattle.http_head.specs.Persistence as persistence;

use crate::slices::{prefix, suffix};
use http_head::{
    BodyForm, HEAD_LIMIT, HeadEnd, HeadFault, RequestHead, blank_length, closes, expects_continue,
    framing, head_end, read_head,
};
use http_payload::{Payload, PayloadFault};
use pod_base::{Bytes, Fields, Mem, NoMemory, Request};
use std::alloc::Global;

/// The head with which a text begins, its length and the form of its body.
struct FirstHead {
    head: RequestHead,
    len: usize,
    form: BodyForm,
}

/// The head of that length in a text that is to be a single request, where it is one and its body
/// has a form.
fn framed_head(alloc: Global, bytes: &[u8], len: usize) -> Mem<Option<FirstHead>>
    requires within { len ≤ length bytes.now }
    requires ends { ends.head_end bytes.now ≡ end.Whole len }
    ensures some { IfOk result (λ found. IfSome found (λ f. (f.len ≡ len)
        × HasHead bytes.now f.len f.head f.form)) }
    ensures none { IfOk result (λ found. IfNone found ((n : ℕ) (head : Head) (form : Form)
        → HasHead bytes.now n head form → ⊥)) }
{
    match read_head(alloc, prefix(bytes, len)) {
        Ok(head) => match framing(&head) {
            Ok(form) => Ok(Some(FirstHead { head, len, form })),
            Err(_fault) => Ok(None),
        },
        Err(HeadFault::TooMany) => Ok(None),
        Err(HeadFault::Malformed) => Ok(None),
        Err(HeadFault::Host) => Ok(None),
        Err(HeadFault::NoMemory) => Err(NoMemory),
    }
}

/// The head with which the text of a single request begins, where it is complete and its body has a
/// form.
fn first_head(alloc: Global, bytes: &[u8]) -> Mem<Option<FirstHead>>
    ensures some { IfOk result (λ found. IfSome found (λ f. (f.len ≤ length bytes.now)
        × HasHead bytes.now f.len f.head f.form)) }
    ensures none { IfOk result (λ found. IfNone found ((n : ℕ) (head : Head) (form : Form)
        → HasHead bytes.now n head form → ⊥)) }
{
    match head_end(bytes) {
        HeadEnd::Whole(len) => framed_head(alloc, bytes, len),
        HeadEnd::NotYet => Ok(None),
        HeadEnd::TooLong => Ok(None),
    }
}

/// The body of a single request, with which the bytes after its head begin, and how many of them it
/// takes, where it is complete.
fn first_body(alloc: Global, form: BodyForm, bytes: &[u8]) -> Mem<Option<(Bytes, usize)>>
    ensures some { IfOk result (λ found. IfSome found (λ r. (r.1 ≤ length bytes.now)
        × IsBody form (take r.1 bytes.now) r.0)) }
    ensures none { IfOk result (λ found. IfNone found ((size : ℕ) (body : Items ℕ)
        → size ≤ length bytes.now
        → IsBody form (take size bytes.now) body → ⊥)) }
{
    let mut payload = Payload::new(alloc, form);
    match payload.feed(alloc, bytes) {
        Ok(fed) => {
            if fed.done {
                let body = payload.body();
                Ok(Some((body, fed.taken)))
            } else {
                Ok(None)
            }
        }
        Err(PayloadFault::Malformed) => Ok(None),
        Err(PayloadFault::TooLarge) => Ok(None),
        Err(PayloadFault::NoMemory) => Err(NoMemory),
    }
}

/// Whether only empty lines follow a single request with these fields, and no event: so many of
/// them that no head can follow are a malformed message, unless the connection is closed.
fn ends_text(minor: u8, fields: &Fields, rest: &[u8]) -> bool
    ensures yes { IsTrue result → AreEmptyLines rest.now
        × ((persistence.closes minor fields.now ≡ true) ⊎ (length rest.now < HEAD_LIMIT)) }
    ensures no { result ≡ false → AreEmptyLines rest.now
        → (persistence.closes minor fields.now ≡ false) × (HEAD_LIMIT ≤ length rest.now) }
{
    if blank_length(rest) != rest.len() {
        return false;
    }
    closes(minor, fields) || rest.len() < HEAD_LIMIT
}

/// The single request of a head and the bytes after it, where the text is that request and nothing
/// else.
fn request_of(alloc: Global, first: FirstHead, bytes: &[u8]) -> Mem<Option<Request>>
    requires within { first.len ≤ length bytes.now }
    requires begins { HasHead bytes.now first.len first.head first.form }
    ensures some { IfOk result (λ found. IfSome found (IsOneRequest bytes.now)) }
    ensures none { IfOk result (λ found. IfNone found ((request : Parsed)
        → IsOneRequest bytes.now request → ⊥)) }
{
    let FirstHead { head, len, form } = first;
    if expects_continue(head.minor, &head.fields, form) {
        return Ok(None);
    }
    let rest = suffix(bytes, len);
    match first_body(alloc, form, rest)? {
        None => Ok(None),
        Some((body, size)) => {
            if ends_text(head.minor, &head.fields, suffix(rest, size)) {
                Ok(Some(Request {
                    method: head.method,
                    target: head.target,
                    minor: head.minor,
                    fields: head.fields,
                    body,
                }))
            } else {
                Ok(None)
            }
        }
    }
}

/// The single request that the bytes are: one request, which waits for no `100 Continue`, and then
/// empty lines alone. None exactly where they are not that.
pub fn one_request(alloc: Global, bytes: &[u8]) -> Mem<Option<Request>>
    ensures some { IfOk result (λ found. IfSome found (IsOneRequest bytes.now)) }
    ensures none { IfOk result (λ found. IfNone found ((request : Parsed)
        → IsOneRequest bytes.now request → ⊥)) }
{
    match first_head(alloc, bytes)? {
        None => Ok(None),
        Some(first) => request_of(alloc, first, bytes),
    }
}
