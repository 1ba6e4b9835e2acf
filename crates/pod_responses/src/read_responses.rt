//! What a successful read is answered with.

ghost use Rattle.std.specs.Prelude.{◌≡◌, ◌++◌, ◌∷◌, [], IfOk, OnOk};
ghost use Rattle.pod_responses.specs.Responses as spec;

use crate::add_field::{add, add_static, add_text};
use crate::allow_and_accept::{add_accept_patch, add_accept_post, add_accept_put, add_allow};
use crate::link_fields::{add_about_links, add_type_links};
use conditional_req::Tag;
use http_out::date_of;
use iri_ref::Iri;
use pod_base::{Body, Bytes, BytesBuilder, Fields, Mem, Moment, Response};
use pod_path::Path;
use std::alloc::Global;

/// A representation of a resource, as its fields tell it.
#[derive(Debug, Drop)]
pub struct Representation {
    /// The content type.
    pub ctype: Bytes,
    /// The entity tag.
    pub tag: Tag,
    /// When the resource was last changed.
    pub modified: Moment,
    /// The value of `WAC-Allow`.
    pub granted: Bytes,
    /// Whether a part of it may be asked for.
    pub ranges: bool,
}

/// The value of `ETag` in the response to a read: an entity tag in its quotes.
#[tactic(auto, unfolding(crate::specs::Responses::quoted))]
fn quoted(alloc: Global, tag: &Tag) -> Mem<Bytes>
    ensures { IfOk result (λ value. value ≡ spec.quoted tag.now.0) }
{
    let mut value = BytesBuilder::new(alloc);
    value.append(alloc, b"\"")?;
    value.append(alloc, &tag.0)?;
    value.append(alloc, b"\"")?;
    value.freeze(alloc)
}

/// Adds `ETag` and `Last-Modified` to the response to a read.
#[tactic(auto, unfolding(crate::specs::Responses::validators))]
pub(crate) fn add_validators(
    alloc: Global,
    fields: &mut Fields,
    tag: &Tag,
    modified: Moment,
) -> Mem<()>
    ensures { OnOk result (fields.new ≡ fields.old ++ spec.validators tag.now.0 modified.0) }
{
    let value = quoted(alloc, tag)?;
    add(alloc, fields, "ETag", value)?;
    add_text(alloc, fields, "Last-Modified", &date_of(modified))
}

/// Adds `Vary` to the response to a read.
pub(crate) fn add_vary(alloc: Global, fields: &mut Fields) -> Mem<()>
    ensures { OnOk result (fields.new ≡ fields.old ++ spec.vary ∷ []) }
{
    add_static(alloc, fields, "Vary", "Accept, Authorization")
}

/// Adds `Content-Range` to the response to a read, where a range is given.
#[tactic(auto, unfolding(crate::specs::Responses::content_range))]
fn add_content_range(alloc: Global, fields: &mut Fields, range: Option<Bytes>) -> Mem<()>
    ensures { OnOk result (fields.new ≡ fields.old ++ spec.content_range range) }
{
    match range {
        Some(range) => add(alloc, fields, "Content-Range", range),
        None => Ok(()),
    }
}

/// Adds `Accept-Ranges` to the response to a read, where parts may be requested.
#[tactic(auto, unfolding(crate::specs::Responses::accept_ranges))]
fn add_accept_ranges(alloc: Global, fields: &mut Fields, ranges: bool) -> Mem<()>
    ensures { OnOk result (fields.new ≡ fields.old ++ spec.accept_ranges ranges) }
{
    if ranges {
        add_static(alloc, fields, "Accept-Ranges", "bytes")
    } else {
        Ok(())
    }
}

/// Adds what the response to a read reports of the resource itself: its types, where its access
/// list and description are, what is granted, and what it takes.
#[tactic(auto, unfolding(crate::specs::Responses::resource_fields))]
fn add_resource_fields(
    alloc: Global,
    fields: &mut Fields,
    base: &Iri,
    path: &Path,
    granted: Bytes,
) -> Mem<()>
    ensures { OnOk result (fields.new
        ≡ fields.old ++ spec.resource_fields base.now path.now granted) }
{
    add_type_links(alloc, fields, path)?;
    add_about_links(alloc, fields, base, path)?;
    add(alloc, fields, "WAC-Allow", granted)?;
    add_allow(alloc, fields, path)?;
    add_accept_patch(alloc, fields)
}

/// Adds what the response to a read reports of choices: what the resource takes, and how its
/// representations are chosen.
#[tactic(auto, unfolding(crate::specs::Responses::choices))]
fn add_choices(alloc: Global, fields: &mut Fields, path: &Path, ranges: bool) -> Mem<()>
    ensures { OnOk result (fields.new ≡ fields.old ++ spec.choices path.now ranges) }
{
    add_accept_post(alloc, fields, path.is_container())?;
    add_accept_put(alloc, fields, path)?;
    add_vary(alloc, fields)?;
    add_accept_ranges(alloc, fields, ranges)
}

/// The fields of the response to a read that has a representation.
fn shown_fields(
    alloc: Global,
    base: &Iri,
    path: &Path,
    representation: Representation,
    range: Option<Bytes>,
) -> Mem<Fields>
    ensures { IfOk result (λ fields. fields
        ≡ spec.shown_fields base.now path.now representation range) }
{
    let Representation {
        ctype,
        tag,
        modified,
        granted,
        ranges,
    } = representation;
    let mut fields = Fields::new(alloc);
    add(alloc, &mut fields, "Content-Type", ctype)?;
    add_content_range(alloc, &mut fields, range)?;
    add_validators(alloc, &mut fields, &tag, modified)?;
    add_resource_fields(alloc, &mut fields, base, path, granted)?;
    add_choices(alloc, &mut fields, path, ranges)?;
    Ok(fields)
}

/// The response 200 to a read: the representation of the resource at the path, with this body.
pub fn shown(
    alloc: Global,
    base: &Iri,
    path: &Path,
    representation: Representation,
    body: Body,
) -> Mem<Response>
    ensures { IfOk result (λ response. response
        ≡ spec.shown base.now path.now representation body) }
{
    let fields = shown_fields(alloc, base, path, representation, None)?;
    Ok(Response {
        status: 200,
        fields,
        body,
    })
}

/// The response 206 to a read: a part of the representation, with the value of `Content-Range`, or
/// several in a body of several parts, without it (RFC 9110, section 15.3.7).
pub fn partial(
    alloc: Global,
    base: &Iri,
    path: &Path,
    representation: Representation,
    range: Option<Bytes>,
    body: Body,
) -> Mem<Response>
    ensures { IfOk result (λ response. response
        ≡ spec.partial base.now path.now representation range body) }
{
    let fields = shown_fields(alloc, base, path, representation, range)?;
    Ok(Response {
        status: 206,
        fields,
        body,
    })
}

/// The response 101 to a read: the connection is a WebSocket from here on, with the value of
/// `Sec-WebSocket-Accept`.
pub fn upgraded(alloc: Global, accept: Bytes) -> Mem<Response>
    ensures { IfOk result (λ response. response ≡ spec.upgraded accept) }
{
    let mut fields = Fields::new(alloc);
    add_static(alloc, &mut fields, "Upgrade", "websocket")?;
    add_static(alloc, &mut fields, "Connection", "Upgrade")?;
    add(alloc, &mut fields, "Sec-WebSocket-Accept", accept)?;
    Ok(Response {
        status: 101,
        fields,
        body: Body::Absent,
    })
}
