//! [`show`]: the response to a GET or HEAD.

ghost use Rattle.std.specs.Prelude.{◌≡◌, true, length, IfOk};
ghost use Rattle.std.specs.List.{list_all};
ghost use Rattle.range_req.specs.RangeSets.{is_within};
ghost use Rattle.pod_representations.specs.ReadResponses as spec;

use crate::representation::Shown;
use crate::selected_parts::{asked, content_range, multipart_type};
use iri_ref::Iri;
use pod_base::{Body, Bytes, Fields, List, Mem, Method, Response, Rope};
use pod_path::Path;
use pod_responses::{Representation, partial, shown, unsatisfiable};
use range_req::{Part, RangeSet, multipart, part_bytes};
use std::alloc::Global;

/// The fields that describe a representation in its response, whole or by parts.
fn representation_fields(
    alloc: Global,
    ctype: &[u8],
    shows: &Shown,
    granted: Bytes,
) -> Mem<Representation>
    ensures { IfOk result (λ r. r ≡ spec.representation ctype.now shows.now granted) }
{
    let ctype = Bytes::of(alloc, ctype)?;
    Ok(Representation {
        ctype,
        tag: shows.tag,
        modified: shows.modified,
        granted,
        ranges: shows.ranges,
    })
}

/// The response to a GET with the whole representation.
fn whole_response(
    alloc: Global,
    base: &Iri,
    path: &Path,
    shows: &Shown,
    granted: Bytes,
) -> Mem<Response>
    ensures { IfOk result (λ response. response
        ≡ spec.whole_response base.now path.now shows.now granted) }
{
    let tells = representation_fields(alloc, shows.ctype.as_str().as_bytes(), shows, granted)?;
    let body = shows.body.copy(alloc)?;
    shown(alloc, base, path, tells, Body::Whole(Rope::of(alloc, body)))
}

/// The response to a GET with one part of the representation.
fn part_response(
    alloc: Global,
    base: &Iri,
    path: &Path,
    shows: &Shown,
    granted: Bytes,
    part: &Part,
) -> Mem<Response>
    requires { is_within (length shows.now.body) part.now ≡ true }
    ensures { IfOk result (λ response. response
        ≡ spec.part_response base.now path.now shows.now granted part.now) }
{
    let tells = representation_fields(alloc, shows.ctype.as_str().as_bytes(), shows, granted)?;
    let range = content_range(alloc, part, shows.body.len() as u64)?;
    let bytes = part_bytes(alloc, &shows.body, part)?;
    partial(
        alloc,
        base,
        path,
        tells,
        Some(range),
        Body::Whole(Rope::of(alloc, bytes)),
    )
}

/// The response to a GET with several parts of the representation.
fn multipart_response(
    alloc: Global,
    base: &Iri,
    path: &Path,
    shows: &Shown,
    granted: Bytes,
    parts: &List<Part>,
) -> Mem<Response>
    requires { list_all (is_within (length shows.now.body)) parts.now.items ≡ true }
    ensures { IfOk result (λ response. response
        ≡ spec.multipart_response base.now path.now shows.now granted parts.now.items) }
{
    let (boundary, text) = multipart(alloc, shows.ctype.as_str(), &shows.body, parts)?;
    let ctype = multipart_type(alloc, boundary.as_str().as_bytes())?;
    let tells = representation_fields(alloc, ctype.as_slice(), shows, granted)?;
    partial(alloc, base, path, tells, None, Body::Whole(text))
}

/// The response to a GET with the selected parts of the representation.
fn parts_response(
    alloc: Global,
    base: &Iri,
    path: &Path,
    shows: &Shown,
    granted: Bytes,
    parts: &List<Part>,
) -> Mem<Response>
    requires { list_all (is_within (length shows.now.body)) parts.now.items ≡ true }
    ensures { IfOk result (λ response. response
        ≡ spec.parts_response base.now path.now shows.now granted parts.now.items) }
{
    match parts.as_slice() {
        [part] => part_response(alloc, base, path, shows, granted, part),
        _ => multipart_response(alloc, base, path, shows, granted, parts),
    }
}

/// The response to a GET or HEAD of the resource at a path, with the whole representation that was
/// chosen for it or parts of it, and with the value of `WAC-Allow`.
///
/// It is 200 with the whole representation; of a GET of bytes with one Range field that applies it
/// is 206 with the selected parts, or 416 where there are none. A Range field applies where it is
/// well-formed and there is no If-Range, or one alone that is the strong tag of the representation.
/// A HEAD has the response of 200: it loses the body where the reply is sent.
#[tactic(auto, unfolding(crate::specs::ReadResponses::read_response))]
pub fn show(
    alloc: Global,
    base: &Iri,
    path: &Path,
    shows: &Shown,
    granted: Bytes,
    method: Method,
    fields: &Fields,
) -> Mem<Response>
    ensures { IfOk result (λ response. response
        ≡ spec.read_response base.now path.now shows.now granted method fields.now) }
{
    match asked(alloc, shows, method, fields)? {
        RangeSet::Whole => whole_response(alloc, base, path, shows, granted),
        RangeSet::Unsatisfiable => unsatisfiable(alloc, shows.body.len() as u64),
        RangeSet::Parts(parts) => parts_response(alloc, base, path, shows, granted, &parts),
    }
}
