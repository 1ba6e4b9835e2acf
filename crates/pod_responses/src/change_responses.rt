//! What a successful change is answered with.

ghost use Rattle.std.specs.Prelude.{◌≡◌, IfOk};
ghost use Rattle.pod_responses.specs.Responses as spec;

use crate::add_field::add_text;
use crate::link_fields::add_about_links;
use iri_ref::Iri;
use pod_base::{Body, Fields, Mem, Response};
use pod_path::Path;
use std::alloc::Global;

/// The response 201 to a change: a resource was made at the path, by a request to the target.
/// `Location` is its URI, and the links are those of the target.
pub fn created(alloc: Global, base: &Iri, target: &Path, path: &Path) -> Mem<Response>
    ensures { IfOk result (λ response. response ≡ spec.created base.now target.now path.now) }
{
    let uri = path.uri(alloc, base)?;
    let mut fields = Fields::new(alloc);
    add_text(alloc, &mut fields, "Location", uri.as_str().as_bytes())?;
    add_about_links(alloc, &mut fields, base, target)?;
    Ok(Response {
        status: 201,
        fields,
        body: Body::Absent,
    })
}

/// The response 204 to a change: a resource was changed or deleted.
pub fn changed(alloc: Global) -> Response
    ensures { result ≡ spec.changed }
{
    Response {
        status: 204,
        fields: Fields::new(alloc),
        body: Body::Absent,
    }
}
