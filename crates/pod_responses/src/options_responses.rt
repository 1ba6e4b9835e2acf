//! The responses to OPTIONS (RFC 9110, section 9.3.7).

ghost use Rattle.std.specs.Prelude.{◌≡◌, IfOk};
ghost use Rattle.pod_responses.specs.Responses as spec;

use crate::add_field::add_static;
use crate::allow_and_accept::{add_accept_patch, add_accept_post, add_accept_put, add_allow};
use pod_base::{Body, Fields, Mem, Response};
use pod_path::Path;
use std::alloc::Global;

/// The response 204 to OPTIONS of a path: what it takes, whether or not there is a resource.
pub fn options(alloc: Global, path: &Path) -> Mem<Response>
    ensures { IfOk result (λ response. response ≡ spec.options path.now) }
{
    let mut fields = Fields::new(alloc);
    add_allow(alloc, &mut fields, path)?;
    add_accept_patch(alloc, &mut fields)?;
    add_accept_post(alloc, &mut fields, path.is_container())?;
    add_accept_put(alloc, &mut fields, path)?;
    Ok(Response {
        status: 204,
        fields,
        body: Body::Absent,
    })
}

/// The response 204 to OPTIONS of the target `*`: what the server takes.
pub fn options_of_server(alloc: Global) -> Mem<Response>
    ensures { IfOk result (λ response. response ≡ spec.options_of_server) }
{
    let mut fields = Fields::new(alloc);
    add_static(
        alloc,
        &mut fields,
        "Allow",
        "GET, HEAD, OPTIONS, POST, PUT, PATCH, DELETE",
    )?;
    add_accept_patch(alloc, &mut fields)?;
    add_static(alloc, &mut fields, "Accept-Put", "*/*")?;
    Ok(Response {
        status: 204,
        fields,
        body: Body::Absent,
    })
}
