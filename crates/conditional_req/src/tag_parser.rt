//! The entity tags of a field (RFC 9110, section 8.8.3).

ghost use Rattle.std.specs.Prelude.{◌≡◌, ◌||◌, ◌&&◌, ◌==◌, IfSome, IfNone, Some, None};
ghost use Rattle.std.specs.Prelude.{bytes_eq};
ghost use Rattle.std.specs.List.{list_all, list_any};
ghost use Rattle.std.specs.Option.{option_copied};
ghost use Rattle.conditional_req.specs.EntityTags as spec;
ghost use Rattle.conditional_req.specs.Views.{tag_view};

use crate::tag::Tag;

/// An entity tag as a field writes it.
#[derive(Clone, Copy)]
pub(crate) struct EntityTag<'a> {
    weak: bool,
    opaque: &'a [u8],
}

/// Whether a byte may be part of an opaque tag that is parsed.
fn is_tag_byte(byte: u8) -> bool
    ensures { result ≡ spec.is_tag_byte byte }
{
    byte == b'!' || (byte >= b'#' && byte <= b'~') || byte >= 0x80
}

/// What is between the quotes of an entity tag that is parsed, where it has one at each end.
fn unquoted(text: &[u8]) -> Option<&[u8]>
    ensures { option_copied result ≡ spec.unquoted text.now }
{
    match text.split_first() {
        Some((first, rest)) => {
            if *first == b'"' {
                before_quote(rest)
            } else {
                None
            }
        }
        None => None,
    }
}

/// What is before the quote at the end of an entity tag that is parsed.
fn before_quote(text: &[u8]) -> Option<&[u8]>
    ensures { option_copied result ≡ spec.before_quote text.now }
{
    match text.split_last() {
        Some((last, rest)) => { if *last == b'"' { Some(rest) } else { None } }
        None => None,
    }
}

/// Whether each byte may be part of an opaque tag that is parsed.
fn are_tag_bytes(bytes: &[u8]) -> bool
    ensures { result ≡ list_all spec.is_tag_byte bytes.now }
{
    bytes.iter().all(|byte| is_tag_byte(*byte))
}

/// The opaque tag that a text is parsed to: bytes of a tag in quotes.
fn opaque_tag(text: &[u8]) -> Option<&[u8]>
    ensures { option_copied result ≡ spec.opaque_tag text.now }
{
    match unquoted(text) {
        Some(opaque) => {
            if are_tag_bytes(opaque) {
                Some(opaque)
            } else {
                None
            }
        }
        None => None,
    }
}

/// Whether an entity tag that is parsed begins with `W/`, and so is weak.
fn is_weak(text: &[u8]) -> bool
    ensures { result ≡ spec.is_weak text.now }
{
    text.starts_with(b"W/")
}

/// An entity tag that is parsed, without `W/` before it.
fn without_weak(text: &[u8]) -> &[u8]
    ensures { result.now ≡ spec.without_weak text.now }
{
    if is_weak(text) && text.len() >= 2 {
        &text[2..]
    } else {
        text
    }
}

/// The entity tag that an element of a field is parsed to; none where it is malformed.
pub(crate) fn entity_tag<'a>(element: &'a [u8]) -> Option<EntityTag<'a>>
    ensures some { IfSome result (λ t. spec.entity_tag element.entry.now ≡ Some (tag_view t)) }
    ensures none { IfNone result (spec.entity_tag element.entry.now ≡ None) }
{
    match opaque_tag(without_weak(element)) {
        Some(opaque) => Some(EntityTag {
            weak: is_weak(element),
            opaque,
        }),
        None => None,
    }
}

/// Whether a parsed opaque tag is one of these tags.
fn is_among(opaque: &[u8], tags: &[Tag]) -> bool
    ensures { result ≡ list_any (λ t. bytes_eq opaque.now t.0) tags.now }
{
    tags.iter().any(|tag| opaque == tag.0.as_slice())
}

/// Whether an element is parsed to a tag that is strongly equal to one of these.
pub(crate) fn is_strong_match(element: &[u8], tags: &[Tag]) -> bool
    ensures { result ≡ spec.is_strong_match tags.now (spec.entity_tag element.now) }
{
    match entity_tag(element) {
        Some(tag) => !tag.weak && is_among(tag.opaque, tags),
        None => false,
    }
}

/// Whether an element is parsed to a tag that is weakly equal to one of these.
pub(crate) fn is_weak_match(element: &[u8], tags: &[Tag]) -> bool
    ensures { result ≡ spec.is_weak_match tags.now (spec.entity_tag element.now) }
{
    match entity_tag(element) {
        Some(tag) => is_among(tag.opaque, tags),
        None => false,
    }
}

/// Whether an element can be parsed to an entity tag.
pub(crate) fn is_entity_tag(element: &[u8]) -> bool
    ensures { result ≡ spec.is_entity_tag element.now }
{
    match entity_tag(element) {
        Some(_) => true,
        None => false,
    }
}
