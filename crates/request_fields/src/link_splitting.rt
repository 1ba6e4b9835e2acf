//! The links of a Link field's value (RFC 8288, section 3 and appendix B.2).

ghost use Rattle.std.specs.Prelude.{◌≡◌, ◌∷◌, [], ◌+◌, ◌<◌, IfSome, IfNone, take, drop, length};
ghost use Rattle.request_fields.specs.LinkValues as spec;

use httparse::is_space_or_tab;

/// Where a byte of a Link field is.
#[derive(Clone, Copy, Debug, PartialEq, Eq)]
pub enum LinkPlace {
    /// Before the first byte of a link.
    Start,
    /// In its reference, after the `<`.
    Reference,
    /// After its reference, outside of quotes.
    Parameters,
    /// In quotes.
    Quoted,
    /// In quotes, after a backslash that escapes it.
    Escaped,
}

/// The place in a Link field of what follows a byte that is neither in a reference nor in quotes.
fn place_outside(byte: u8) -> LinkPlace
    ensures { result ≡ spec.place_outside byte }
{
    if byte == b'"' {
        LinkPlace::Quoted
    } else {
        LinkPlace::Parameters
    }
}

/// The place in a Link field of what follows the first byte of a link, or a blank before it.
fn place_at_start(byte: u8) -> LinkPlace
    ensures { result ≡ spec.place_at_start byte }
{
    if is_space_or_tab(byte) {
        LinkPlace::Start
    } else if byte == b'<' {
        LinkPlace::Reference
    } else {
        place_outside(byte)
    }
}

/// The place in a Link field of what follows a byte in quotes.
fn place_in_quotes(byte: u8) -> LinkPlace
    ensures { result ≡ spec.place_in_quotes byte }
{
    if byte == b'"' {
        LinkPlace::Parameters
    } else if byte == b'\\' {
        LinkPlace::Escaped
    } else {
        LinkPlace::Quoted
    }
}

/// The place in a Link field of what follows a byte in a reference.
fn place_in_reference(byte: u8) -> LinkPlace
    ensures { result ≡ spec.place_in_reference byte }
{
    if byte == b'>' {
        LinkPlace::Parameters
    } else {
        LinkPlace::Reference
    }
}

/// The place in a Link field of what follows a byte.
fn next_place(place: LinkPlace, byte: u8) -> LinkPlace
    ensures { result ≡ spec.next_place place byte }
{
    match place {
        LinkPlace::Start => place_at_start(byte),
        LinkPlace::Reference => place_in_reference(byte),
        LinkPlace::Parameters => place_outside(byte),
        LinkPlace::Quoted => place_in_quotes(byte),
        LinkPlace::Escaped => LinkPlace::Quoted,
    }
}

/// Whether a byte of a Link field is a comma that splits links: one in neither a reference nor
/// quotes.
fn separates(place: LinkPlace, byte: u8) -> bool
    ensures { result ≡ spec.separates place byte }
{
    match place {
        LinkPlace::Start | LinkPlace::Parameters => byte == b',',
        LinkPlace::Reference | LinkPlace::Quoted | LinkPlace::Escaped => false,
    }
}

/// The position of the first comma at which the links of a Link field split.
fn first_comma(value: &[u8]) -> Option<usize>
    ensures within { IfSome result (λ at. at < length value.now) }
    ensures some { IfSome result (λ at. spec.link_parts value.now
        ≡ take at value.now ∷ spec.link_parts (drop (at + 1) value.now)) }
    ensures none { IfNone result (spec.link_parts value.now ≡ value.now ∷ []) }
{
    let mut place = LinkPlace::Start;
    for (at, byte) in value.iter().enumerate() {
        if separates(place, *byte) {
            return Some(at);
        }
        place = next_place(place, *byte);
    }
    None
}

/// The first link of a Link field's value, and what is after the comma that splits it off; none
/// where no comma does.
pub(crate) fn split_link<'a>(value: &'a [u8]) -> Option<(&'a [u8], &'a [u8])>
    ensures shorter { IfSome result (λ p. length p.1.now < length value.entry.now) }
    ensures some { IfSome result (λ p. spec.link_parts value.entry.now
        ≡ p.0.now ∷ spec.link_parts p.1.now) }
    ensures none { IfNone result (spec.link_parts value.entry.now ≡ value.entry.now ∷ []) }
{
    match first_comma(value) {
        Some(at) => Some((&value[..at], &value[at + 1..])),
        None => None,
    }
}
