//! A request, and its fields.

use pod_base::{Bytes, Field, Fields, Mem, Method, Request};
use std::alloc::Global;

/// The field `Host: pod.example`.
fn host(alloc: Global) -> Mem<Field> {
    let name = Bytes::from_static(b"Host");
    let value = Bytes::of(alloc, b"pod.example")?;
    Ok(Field { name, value })
}

/// A PUT of `hello` to `/hello` with that field.
fn put(alloc: Global) -> Mem<Request> {
    let target = Bytes::of(alloc, b"/hello")?;
    let mut fields = Fields::new(alloc);
    let field = host(alloc)?;
    fields.add(alloc, field)?;
    let body = Bytes::of(alloc, b"hello")?;
    Ok(Request {
        method: Method::Put,
        target,
        minor: 1,
        fields,
        body,
    })
}

/// Shows how many fields have a name, and the first of them.
fn show_fields(rt: &HostRuntime, fields: &Fields, name: &str) -> anyhow::Result<()> {
    let count = fields.count(name);
    match fields.first(name) {
        Some(value) => {
            let held = value.as_slice().escape_ascii();
            println!(rt; "request: fields named '{name}': {count}, the first {held}")?;
        }
        None => println!(rt; "request: fields named '{name}': {count}")?,
    }
    Ok(())
}

/// Shows that a request is copied, and that its fields are found by their names.
pub(crate) fn show_request(rt: &HostRuntime) -> anyhow::Result<()> {
    let alloc = rt.alloc();
    let request = put(alloc)?.copy(alloc)?;
    let is_put = request.method == Method::Put;
    let target = request.target.as_slice().escape_ascii();
    let body = request.body.as_slice().escape_ascii();
    println!(rt; "request: copied, a PUT: {is_put}, of {target} with {body}")?;
    for name in ["host", "HOST", "hos", ""] {
        show_fields(rt, &request.fields, name)?;
    }
    Ok(())
}
