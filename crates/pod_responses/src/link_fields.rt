//! The links of a resource.

ghost use Rattle.std.specs.Prelude.{◌≡◌, ◌++◌, ◌∷◌, [], IfOk, OnOk, codes};
ghost use Rattle.std.specs.Option.{option_copied};
ghost use Rattle.pod_path.specs.Hierarchy.{uri_of};
ghost use Rattle.pod_responses.specs.Links as spec;

use crate::add_field::{add, add_static};
use iri_ref::Iri;
use pod_base::{Bytes, BytesBuilder, Fields, Mem};
use pod_path::Path;
use std::alloc::Global;

/// Adds the `Link` fields of the types of a container.
#[tactic(auto, unfolding(crate::specs::Links::container_links))]
fn add_container_links(alloc: Global, fields: &mut Fields, container: bool) -> Mem<()>
    ensures { OnOk result (fields.new ≡ fields.old ++ spec.container_links container) }
{
    if !container {
        return Ok(());
    }
    add_static(
        alloc,
        fields,
        "Link",
        "<http://www.w3.org/ns/ldp#Container>; rel=\"type\"",
    )?;
    add_static(
        alloc,
        fields,
        "Link",
        "<http://www.w3.org/ns/ldp#BasicContainer>; rel=\"type\"",
    )
}

/// Adds the `Link` field of the type of the root.
#[tactic(auto, unfolding(crate::specs::Links::storage_links))]
fn add_storage_link(alloc: Global, fields: &mut Fields, root: bool) -> Mem<()>
    ensures { OnOk result (fields.new ≡ fields.old ++ spec.storage_links root) }
{
    if !root {
        return Ok(());
    }
    add_static(
        alloc,
        fields,
        "Link",
        "<http://www.w3.org/ns/pim/space#Storage>; rel=\"type\"",
    )
}

/// Adds the `Link` fields of the types of a resource.
#[tactic(auto, unfolding(crate::specs::Links::type_links))]
pub(crate) fn add_type_links(alloc: Global, fields: &mut Fields, path: &Path) -> Mem<()>
    ensures { OnOk result (fields.new ≡ fields.old ++ spec.type_links path.now) }
{
    add_static(
        alloc,
        fields,
        "Link",
        "<http://www.w3.org/ns/ldp#Resource>; rel=\"type\"",
    )?;
    add_container_links(alloc, fields, path.is_container())?;
    add_storage_link(alloc, fields, path.is_root())
}

/// The value of a `Link` field.
fn link_value(alloc: Global, target: &str, relation: &str) -> Mem<Bytes>
    ensures { IfOk result (λ value. spec.field (codes "Link") value
        ≡ spec.link target.now relation.now) }
{
    let mut value = BytesBuilder::new(alloc);
    value.append(alloc, b"<")?;
    value.append(alloc, target.as_bytes())?;
    value.append(alloc, b">; rel=\"")?;
    value.append(alloc, relation.as_bytes())?;
    value.append(alloc, b"\"")?;
    value.freeze(alloc)
}

/// Adds a `Link` field to a path.
fn add_link(alloc: Global, fields: &mut Fields, base: &Iri, relation: &str, path: &Path) -> Mem<()>
    ensures { OnOk result (fields.new
        ≡ fields.old ++ spec.link (uri_of base.now path.now) relation.now ∷ []) }
{
    let uri = path.uri(alloc, base)?;
    let value = link_value(alloc, uri.as_str(), relation)?;
    add(alloc, fields, "Link", value)
}

/// Adds a `Link` field to a path, where there is one.
#[tactic(auto, unfolding(crate::specs::Links::link_to))]
fn add_link_to(
    alloc: Global,
    fields: &mut Fields,
    base: &Iri,
    relation: &str,
    path: Option<Path>,
) -> Mem<()>
    ensures { OnOk result (fields.new ≡ fields.old ++ spec.link_to base.now relation.now path) }
{
    match path {
        Some(path) => add_link(alloc, fields, base, relation, &path),
        None => Ok(()),
    }
}

/// The path of the access list that a `Link` field of a resource names: none for an access list.
#[tactic(auto, unfolding(crate::specs::Links::list_of))]
fn list_of(alloc: Global, path: &Path) -> Mem<Option<Path>>
    ensures { IfOk result (λ list. list ≡ spec.list_of path.now) }
{
    if path.is_acl() {
        return Ok(None);
    }
    match path.subject(alloc)? {
        Some(subject) => subject.acl(alloc),
        None => path.acl(alloc),
    }
}

/// Adds the `Link` fields to the access list and to the description of a resource.
#[tactic(auto, unfolding(crate::specs::Links::about_links))]
pub(crate) fn add_about_links(
    alloc: Global,
    fields: &mut Fields,
    base: &Iri,
    path: &Path,
) -> Mem<()>
    ensures { OnOk result (fields.new ≡ fields.old ++ spec.about_links base.now path.now) }
{
    let list = list_of(alloc, path)?;
    let description = path.meta(alloc)?;
    add_link_to(alloc, fields, base, "acl", list)?;
    add_link_to(alloc, fields, base, "describedby", description)
}
