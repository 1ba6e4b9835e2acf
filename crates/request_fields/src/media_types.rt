//! [`MediaType`]: the types of bodies that the pod reads (RFC 9110, section 8.3.1).

ghost use Rattle.std.specs.Prelude.{◌≡◌};
ghost use Rattle.std.specs.List.{before_first, position};
ghost use Rattle.request_fields.specs.MediaTypes as spec;

use field_list::trim;

/// The media type of a body, as far as the pod knows it.
#[derive(Clone, Copy, Debug, PartialEq, Eq)]
pub enum MediaType {
    /// `text/turtle`
    Turtle,
    /// `application/ld+json`
    JsonLd,
    /// `text/n3`
    N3,
    /// `application/sparql-update`
    SparqlUpdate,
    /// Every other text.
    Other,
}

/// The position of the first semicolon, at which the parameters of a media type begin.
fn find_semicolon(value: &[u8]) -> Option<usize>
    ensures { result ≡ position spec.is_semicolon value.now }
{
    value.iter().position(|byte| *byte == b';')
}

/// The media type without its parameters: the text before the first semicolon, or all of it.
fn before_parameters(value: &[u8]) -> &[u8]
    ensures { result.now ≡ before_first spec.is_semicolon value.now }
{
    match find_semicolon(value) {
        Some(at) => &value[..at],
        None => value,
    }
}

/// The media type of a body that has this name, without parameters.
fn type_named(name: &[u8]) -> MediaType
    ensures { result ≡ spec.type_named name.now }
{
    if name.eq_ignore_ascii_case(b"text/turtle") {
        return MediaType::Turtle;
    }
    if name.eq_ignore_ascii_case(b"application/ld+json") {
        return MediaType::JsonLd;
    }
    if name.eq_ignore_ascii_case(b"text/n3") {
        return MediaType::N3;
    }
    if name.eq_ignore_ascii_case(b"application/sparql-update") {
        return MediaType::SparqlUpdate;
    }
    MediaType::Other
}

/// The media type of the value of a Content-Type field: what is before its first semicolon, without
/// the blanks around it, in any case. Parameters don't matter.
pub fn media_type(value: &[u8]) -> MediaType
    ensures { result ≡ spec.media_type value.now }
{
    type_named(trim(before_parameters(value)))
}
