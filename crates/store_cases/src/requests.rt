//! The requests of steps.

use pod_base::{Bytes, Field, Fields, List, Mem, Method, NoMemory, Request};
use std::alloc::Global;

/// Adds a field.
fn push(alloc: Global, fields: &mut List<Field>, name: &str, value: &str) -> Mem<()> {
    let name = Bytes::of(alloc, name.as_bytes())?;
    let value = Bytes::of(alloc, value.as_bytes())?;
    match fields.push(alloc, Field { name, value }) {
        Ok(()) => Ok(()),
        Err(_field) => Err(NoMemory),
    }
}

/// A request with this content type and this body, and a slug.
pub(crate) fn request(
    alloc: Global,
    method: Method,
    path: &str,
    ctype: &str,
    body: &[u8],
) -> Mem<Request> {
    let mut list = List::new(alloc);
    push(alloc, &mut list, "host", "127.0.0.1:8080")?;
    push(alloc, &mut list, "slug", "s")?;
    push(alloc, &mut list, "content-type", ctype)?;
    Ok(Request {
        method,
        target: Bytes::of(alloc, path.as_bytes())?,
        minor: 1,
        fields: Fields { list },
        body: Bytes::of(alloc, body)?,
    })
}

/// A PUT of these bytes.
pub(crate) fn put(alloc: Global, path: &str, body: &[u8]) -> Mem<Request> {
    request(alloc, Method::Put, path, "application/octet-stream", body)
}
