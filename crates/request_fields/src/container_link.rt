//! Whether a request asks for a container (LDP 1.0, section 5.2.3.4; RFC 8288).

ghost use Rattle.std.specs.Prelude.{◌≡◌, ◌||◌, bytes_eq, codes};
ghost use Rattle.std.specs.List.{list_any};
ghost use Rattle.std.specs.Option.{option_copied};
ghost use Rattle.request_fields.specs.LinkParameters.{parameters, relation};
ghost use Rattle.request_fields.specs.Links as spec;

use crate::link_parameter::{are_parameters, relation};
use crate::link_splitting::split_link;
use crate::relation_type::has_relation_type;
use field_list::{Parts, Quoting, trim};
use pod_base::{Field, Fields};

/// Whether a text is a reference to one of the two types of containers, in its brackets.
fn is_container_type(text: &[u8]) -> bool
    ensures { result ≡ spec.is_container_type text.now }
{
    text == b"<http://www.w3.org/ns/ldp#BasicContainer>".as_slice()
        || text == b"<http://www.w3.org/ns/ldp#Container>".as_slice()
}

/// Whether the target of a link is one of the two types of containers.
fn has_container_type(link: &[u8]) -> bool
    ensures { result ≡ spec.has_container_type link.now }
{
    let mut parts = Parts::of(Quoting::Strings, b';', link);
    match parts.next() {
        Some(target) => is_container_type(trim(target)),
        None => false,
    }
}

/// Whether the first `rel` of a link to a container has the relation type `type`.
fn is_type_link(link: &[u8]) -> bool
    ensures { result ≡ spec.is_type_link link.now }
{
    match relation(link) {
        Some(value) => has_relation_type(value, b"type"),
        None => false,
    }
}

/// Whether a text is a well-formed link that says that its context is a container.
fn is_container_link(link: &[u8]) -> bool
    ensures { result ≡ spec.is_container_link link.now }
{
    has_container_type(link) && are_parameters(link) && is_type_link(link)
}

/// Whether the value of a Link field has a link that says that its context is a container.
fn has_container_link(value: &[u8]) -> bool
    ensures { result ≡ spec.has_container_link value.now }
{
    let mut rest = value;
    while let Some((link, more)) = split_link(rest) {
        if is_container_link(trim(link)) {
            return true;
        }
        rest = more;
    }
    is_container_link(trim(rest))
}

/// Whether a field is a Link that says that its context is a container.
fn is_link_to_container(field: &Field) -> bool
    ensures { result ≡ spec.is_link_to_container field.now }
{
    field.is_named("link") && has_container_link(field.value.as_slice())
}

/// Whether one of these fields is a Link that says that its context is a container.
fn any_link_to_container(fields: &[Field]) -> bool
    ensures { result ≡ list_any spec.is_link_to_container fields.now }
{
    fields.iter().any(|field| is_link_to_container(field))
}

/// Whether some Link field has a link to `ldp:BasicContainer` or `ldp:Container` whose `rel` has
/// the word `type`: the request is to make a container.
///
/// The words of `rel` are compared in any case, and of several `rel` the first counts. Malformed
/// links and other targets are ignored.
pub fn links_to_container(fields: &Fields) -> bool
    ensures { result ≡ spec.links_to_container fields.now }
{
    any_link_to_container(fields.list.as_slice())
}
