//! The first character of a text.

ghost use Rattle.std.specs.Prelude.{◌≡◌, ◌<◌, ◌++◌, List, ℕ, length, IfSome, IfNone};
ghost use Rattle.std.specs.Char.{IsScalar, encode_utf8};
ghost use Rattle.turtle_lex.specs.Pattern.{HasNoFirstChar};

use bstr::decode_utf8;

/// The first character of the text, and what follows it. Returns `None` exactly where the text is
/// empty or begins with bytes that are no UTF-8.
#[inline(always)]
pub(crate) fn first_char(text: &[u8]) -> Option<(char, &[u8])>
    ensures found { IfSome result (λ p. IsScalar p.0 × (text.now ≡ encode_utf8 p.0 ++ p.1.now)) }
    ensures none { IfNone result (HasNoFirstChar text.now) }
{
    if let [b @ 0..=0x7F, rest @ ..] = text {
        return Some((*b as char, rest));
    }
    wide_char(text)
}

/// The first character of the text, without the short way for ASCII, and what follows it.
fn wide_char(text: &[u8]) -> Option<(char, &[u8])>
    ensures found { IfSome result (λ p. IsScalar p.0 × (text.now ≡ encode_utf8 p.0 ++ p.1.now)) }
    ensures none { IfNone result (HasNoFirstChar text.now) }
{
    let (found, size) = decode_utf8(text);
    match found {
        Some(c) => Some((c, text.split_at(size).1)),
        None => None,
    }
}
