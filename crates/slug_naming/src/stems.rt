//! The stem of a slug.

ghost use Rattle.std.specs.Prelude.{◌≡◌, ◌++◌, ◌∷◌, [], Bool, nat_eq, IfOk, Some, string_bytes};
ghost use Rattle.std.specs.List.{ends_with};
ghost use Rattle.std.specs.Option.{option_copied};
ghost use Rattle.percent_encoding.specs.Percent.{percent_decode};
ghost use Rattle.pod_path.specs.Characters.{is_unreserved};
ghost use Rattle.pod_path.specs.Hierarchy.{IsPlainName};
ghost use Rattle.pod_path.specs.Norm.{is_auxiliary_name};
ghost use Rattle.slug_naming.specs.PlainTexts.{IsPlainText};
ghost use Rattle.slug_naming.specs.Stems as spec;

use percent_encoding::{percent_decode, percent_encode_byte};
use pod_base::{Mem, Text};
use std::alloc::{AllocError, Global};

/// The most bytes of a stem before `_` is added.
pub const STEM_LIMIT: usize = 128;

/// Whether a byte of a stem needs no escape anywhere in a path.
fn is_unreserved(byte: u8) -> bool
    ensures { result ≡ is_unreserved byte }
{
    byte.is_ascii_lowercase()
        || byte.is_ascii_uppercase()
        || byte.is_ascii_digit()
        || b"-._~".contains(&byte)
}

/// The bytes that a slug decodes to for its stem, without slashes.
fn name_bytes(alloc: Global, slug: &[u8]) -> Result<Vec<u8>, AllocError>
    ensures { IfOk result (λ bytes. bytes.items ≡ spec.without_slashes (percent_decode slug.now)) }
{
    let mut decoded = Vec::new(alloc);
    percent_decode(slug).append_to(&mut decoded)?;
    without_slashes(alloc, decoded.as_slice())
}

/// Appends a byte of a slug to its stem, unless it is a slash.
fn push_unless_slash(kept: &mut Vec<u8>, byte: u8) -> Result<(), AllocError>
    ensures { IfOk result (λ _. kept.new.items
        ≡ kept.old.items ++ spec.without_slashes (byte ∷ [])) }
{
    if byte != b'/' {
        kept.push(byte)?;
    }
    Ok(())
}

/// The bytes of a slug but for slashes.
fn without_slashes(alloc: Global, bytes: &[u8]) -> Result<Vec<u8>, AllocError>
    ensures { IfOk result (λ kept. kept.items ≡ spec.without_slashes bytes.now) }
{
    let mut kept = Vec::with_capacity(alloc, bytes.len())?;
    let mut rest = bytes;
    while let Some((byte, more)) = rest.split_first() {
        push_unless_slash(&mut kept, *byte)?;
        rest = more;
    }
    Ok(kept)
}

/// The bytes of a stem from the first that is no dot.
fn without_dots(mut bytes: &[u8]) -> &[u8]
    ensures { result.now ≡ spec.without_dots bytes.now }
{
    while let [first, rest @ ..] = bytes
        && *first == b'.'
    {
        bytes = rest;
    }
    bytes
}

/// Appends a byte of a slug to the stem as a character of a path, or its escape.
fn push_escaped(text: &mut String, byte: u8) -> Result<(), AllocError>
    ensures text { IfOk result
        (λ _. string_bytes text.new ≡ string_bytes text.old ++ spec.escaped byte) }
    ensures plain { IsPlainText (spec.escaped byte) }
{
    if is_unreserved(byte) {
        text.push(char::from(byte))
    } else {
        text.push_str(percent_encode_byte(byte))
    }
}

/// How many bytes of a stem a byte of the slug becomes.
fn escaped_len(byte: u8) -> usize
    ensures { result ≡ spec.escaped_length byte }
{
    if is_unreserved(byte) { 1 } else { 3 }
}

/// Appends as many of these bytes to a stem as there is room for.
fn push_fitting(text: &mut String, bytes: &[u8]) -> Result<(), AllocError>
    ensures text { IfOk result (λ _. string_bytes text.new
        ≡ string_bytes text.old ++ spec.fitting STEM_LIMIT bytes.now) }
    ensures plain { IsPlainText (string_bytes text.old)
        → IfOk result (λ _. IsPlainText (string_bytes text.new)) }
{
    let mut room = STEM_LIMIT;
    let mut rest = bytes;
    while let Some((byte, more)) = rest.split_first() {
        let len = escaped_len(*byte);
        if len > room {
            return Ok(());
        }
        push_escaped(text, *byte)?;
        room -= len;
        rest = more;
    }
    Ok(())
}

/// Whether the text of a stem ends with this one.
fn ends_with(text: &str, end: &str) -> bool
    ensures { result ≡ ends_with nat_eq text.now end.now }
{
    text.ends_with(end)
}

/// Whether a stem ends as the name of an ACL or of a description does.
fn is_auxiliary_name(text: &str) -> bool
    ensures { result ≡ is_auxiliary_name text.now }
{
    ends_with(text, ".acl") || ends_with(text, ".meta")
}

/// Adds what a stem lacks: `_` after the end of an auxiliary's name, and a name where it is empty.
fn finish_stem(text: &mut String) -> Result<(), AllocError>
    ensures { IfOk result (λ _. string_bytes text.new ≡ spec.finished (string_bytes text.old)) }
{
    if text.is_empty() {
        text.push_str("item")
    } else if is_auxiliary_name(text.as_str()) {
        text.push_str("_")
    } else {
        Ok(())
    }
}

/// The stem of a slug as a string.
fn slug_stem(alloc: Global, slug: &[u8]) -> Result<String, AllocError>
    ensures text { IfOk result (λ text. string_bytes text ≡ spec.stem_of (Some slug.now)) }
    ensures plain { IfOk result (λ text. (folder : Bool) → IsPlainName (string_bytes text) folder) }
{
    let bytes = name_bytes(alloc, slug)?;
    let mut text = String::with_capacity(alloc, STEM_LIMIT + 1)?;
    push_fitting(&mut text, without_dots(bytes.as_slice()))?;
    finish_stem(&mut text)?;
    Ok(text)
}

/// The stem of a slug, or without one, as a string.
pub(crate) fn stem_text(alloc: Global, slug: Option<&[u8]>) -> Result<String, AllocError>
    ensures text { IfOk result
        (λ text. string_bytes text ≡ spec.stem_of (option_copied slug.entry)) }
    ensures plain { IfOk result (λ text. (folder : Bool) → IsPlainName (string_bytes text) folder) }
{
    match slug {
        Some(slug) => slug_stem(alloc, slug),
        None => String::from_str(alloc, "item"),
    }
}

/// The stem of the value of a `Slug` field, or without one.
///
/// The value is percent-decoded. Slashes are dropped, and then the dots that it begins with. Other
/// bytes than letters, digits and `-._~` are escaped. Of a text over [`STEM_LIMIT`] bytes the last
/// characters and escapes are dropped. A stem that ends in `.acl` or `.meta` gets `_` after it, and
/// an empty one is `item`.
pub fn stem(alloc: Global, slug: Option<&[u8]>) -> Mem<Text>
    ensures text { IfOk result (λ text. text ≡ spec.stem_of (option_copied slug.entry)) }

    // It is part of a member's path as it is, of a container and of another.
    ensures plain { IfOk result (λ text. (folder : Bool) → IsPlainName text folder) }
{
    let text = stem_text(alloc, slug)?;
    let text = Text::from_string(alloc, text)?;
    Ok(text)
}
