//! The values of If-Match and If-None-Match: `*`, or a list of entity tags.

ghost use Rattle.std.specs.Prelude.{◌≡◌};
ghost use Rattle.field_list.specs.Elements.{elements};
ghost use Rattle.field_list.specs.declared.quoting.Quoting.TheVariants.{Tags};
ghost use Rattle.conditional_req.specs.EntityTags as tags;
ghost use Rattle.conditional_req.specs.TagLists as spec;

use crate::tag::Tag;
use crate::tag_parser::{is_entity_tag, is_strong_match, is_weak_match};
use field_list::{Elements, Quoting};

/// Whether the value of If-Match or If-None-Match is `*`, and no list of tags.
pub(crate) fn is_any(value: &[u8]) -> bool
    ensures { result ≡ spec.is_any value.now }
{
    value == b"*".as_slice()
}

/// Whether a value is a list of tags: each element is an entity tag.
pub(crate) fn are_tags(value: &[u8]) -> bool
    ensures { result ≡ spec.are_tags value.now }
{
    let mut elements = Elements::of(Quoting::Tags, value);
    while let Some(element) = elements.next() {
        if !is_entity_tag(element) {
            return false;
        }
    }
    true
}

/// Whether the list of tags in a value has one that is strongly equal to one of these.
pub(crate) fn has_strong_match(value: &[u8], tags: &[Tag]) -> bool
    ensures { result ≡ spec.has_strong_match tags.now value.now }
{
    let mut elements = Elements::of(Quoting::Tags, value);
    while let Some(element) = elements.next() {
        if is_strong_match(element, tags) {
            return true;
        }
    }
    false
}

/// Whether the list of tags in a value has one that is weakly equal to one of these.
pub(crate) fn has_weak_match(value: &[u8], tags: &[Tag]) -> bool
    ensures { result ≡ spec.has_weak_match tags.now value.now }
{
    let mut elements = Elements::of(Quoting::Tags, value);
    while let Some(element) = elements.next() {
        if is_weak_match(element, tags) {
            return true;
        }
    }
    false
}
