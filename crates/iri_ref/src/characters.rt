//! Characters of references, by the bytes of their UTF-8 text.

ghost use Rattle.std.specs.Prelude.{◌≡◌};
ghost use Rattle.std.specs.List.{list_all};
ghost use Rattle.iri_ref.specs.Characters.{is_allowed, is_letter, is_scheme, is_scheme_character};

/// Whether a byte is an allowed character of an IRI reference: none that Turtle's IRIREF forbids. No
/// test is left out, so that a loop takes several bytes at a time.
fn is_allowed(b: u8) -> bool
    ensures { result ≡ is_allowed b }
{
    (b' ' < b)
        & (b != b'"')
        & (b != b'<')
        & (b != b'>')
        & (b != b'\\')
        & (b != b'^')
        & (b != b'`')
        & ((b < b'{') | (b'}' < b))
}

/// Whether each character of an IRI reference is allowed.
pub(crate) fn all_allowed(text: &str) -> bool
    ensures { result ≡ list_all is_allowed text.now }
{
    let mut all = true;
    for byte in text.as_bytes() {
        all &= is_allowed(*byte);
    }
    all
}

/// Whether a byte is a character that can begin an IRI's scheme: a letter of ASCII.
fn is_letter(b: u8) -> bool
    ensures { result ≡ is_letter b }
{
    matches!(b, b'A'..=b'Z' | b'a'..=b'z')
}

/// Whether a byte is a character of an IRI's scheme: a letter, a digit, `+`, `-` or `.`.
fn is_scheme_character(b: u8) -> bool
    ensures { result ≡ is_scheme_character b }
{
    matches!(b, b'A'..=b'Z' | b'a'..=b'z' | b'0'..=b'9' | b'+' | b'-' | b'.')
}

/// Whether each byte is a character of an IRI's scheme.
fn all_scheme_characters(bytes: &[u8]) -> bool
    ensures { result ≡ list_all is_scheme_character bytes.now }
{
    bytes.iter().all(|&b| is_scheme_character(b))
}

/// Whether the characters of a text are an IRI's scheme: a letter, then letters, digits, `+`, `-`
/// and `.`.
pub(crate) fn is_scheme(text: &str) -> bool
    ensures { result ≡ is_scheme text.now }
{
    match text.as_bytes() {
        [] => false,
        [first, rest @ ..] => is_letter(*first) && all_scheme_characters(rest),
    }
}
