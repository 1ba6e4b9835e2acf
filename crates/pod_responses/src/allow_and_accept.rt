//! Which methods a path takes, and what may be sent to it.

ghost use Rattle.std.specs.Prelude.{◌≡◌, ◌++◌, ◌∷◌, [], OnOk, true, false};
ghost use Rattle.pod_responses.specs.Allow as spec;
ghost use Rattle.pod_responses.specs.Responses as responses;

use crate::add_field::add_static;
use pod_base::{Fields, Mem, Method};
use pod_path::Path;
use std::alloc::Global;

/// Whether a path allows DELETE: the root and its access list stay.
fn is_removable(path: &Path) -> bool
    ensures { result ≡ spec.is_removable path.now }
{
    !(path.is_root() || is_root_list(path))
}

/// Whether a path is that of the root's access list, which allows no DELETE.
fn is_root_list(path: &Path) -> bool
    ensures { result ≡ spec.is_root_list path.now }
{
    path.as_str() == "/.acl"
}

/// Whether a path allows a method (RFC 9110, section 15.5.6). Members are made in containers alone,
/// and the root and its access list aren't deleted.
pub fn is_allowed(path: &Path, method: Method) -> bool
    ensures { result ≡ spec.is_allowed path.now method }
{
    match method {
        Method::Post => path.is_container(),
        Method::Delete => is_removable(path),
        Method::Other => false,
        _ => true,
    }
}

/// The value of `Allow`: the names of the methods that a path takes.
#[tactic(auto, unfolding(crate::specs::Allow::taken_names))]
fn taken_names(container: bool, removable: bool) -> &'static str
    ensures { result.now ≡ spec.taken_names container removable }
{
    match (container, removable) {
        (true, true) => "GET, HEAD, OPTIONS, POST, PUT, PATCH, DELETE",
        (true, false) => "GET, HEAD, OPTIONS, POST, PUT, PATCH",
        (false, true) => "GET, HEAD, OPTIONS, PUT, PATCH, DELETE",
        (false, false) => "GET, HEAD, OPTIONS, PUT, PATCH",
    }
}

/// Adds the field `Allow` to those of a response.
#[tactic(auto, unfolding(crate::specs::Allow::allow_text))]
pub(crate) fn add_allow(alloc: Global, fields: &mut Fields, path: &Path) -> Mem<()>
    ensures { OnOk result (fields.new
        ≡ fields.old ++ responses.allow (spec.allow_text path.now) ∷ []) }
{
    let names = taken_names(path.is_container(), is_removable(path));
    add_static(alloc, fields, "Allow", names)
}

/// Adds the field `Accept-Patch` to those of a response.
pub(crate) fn add_accept_patch(alloc: Global, fields: &mut Fields) -> Mem<()>
    ensures { OnOk result (fields.new ≡ fields.old ++ responses.accept_patch ∷ []) }
{
    add_static(
        alloc,
        fields,
        "Accept-Patch",
        "text/n3, application/sparql-update",
    )
}

/// Adds the field `Accept-Post` to those of a response, where the path is that of a container.
#[tactic(auto, unfolding(crate::specs::Responses::accept_post))]
pub(crate) fn add_accept_post(alloc: Global, fields: &mut Fields, container: bool) -> Mem<()>
    ensures { OnOk result (fields.new ≡ fields.old ++ responses.accept_post container) }
{
    if container {
        add_static(alloc, fields, "Accept-Post", "*/*")
    } else {
        Ok(())
    }
}

/// The value of `Accept-Put`: the types that a PUT of the path may have.
#[tactic(auto, unfolding(crate::specs::Allow::put_types))]
fn put_types(path: &Path) -> &'static str
    ensures { result.now ≡ spec.put_types path.now }
{
    if path.is_container() || path.is_acl() || path.is_meta() {
        "text/turtle, application/ld+json"
    } else {
        "*/*"
    }
}

/// Adds the field `Accept-Put` to those of a response.
pub(crate) fn add_accept_put(alloc: Global, fields: &mut Fields, path: &Path) -> Mem<()>
    ensures { OnOk result (fields.new
        ≡ fields.old ++ responses.accept_put (spec.put_types path.now) ∷ []) }
{
    add_static(alloc, fields, "Accept-Put", put_types(path))
}
