//! Relation types in the value of `rel` (RFC 8288, section 3.3).

ghost use Rattle.std.specs.Prelude.{◌≡◌, false};
ghost use Rattle.std.specs.Option.{option_copied};
ghost use Rattle.std.specs.Str.{str_eq_ignore_ascii_case};
ghost use Rattle.field_list.specs.QuotedString.{meaning};
ghost use Rattle.request_fields.specs.RelationTypes as spec;
ghost use Rattle.request_fields.specs.Progress as progress;

use field_list::{QuotedBytes, is_quoted_string};
use httparse::is_space_or_tab;

/// What is left of a relation type's word after one more byte; none where the bytes differ.
fn rest_of_word<'a>(left: Option<&'a [u8]>, byte: u8) -> Option<&'a [u8]>
    ensures { option_copied result ≡ progress.left_after (option_copied left.entry) byte }
{
    match left?.split_first() {
        Some((first, rest)) => {
            if byte.eq_ignore_ascii_case(first) {
                Some(rest)
            } else {
                None
            }
        }
        None => None,
    }
}

/// Whether nothing is left of a relation type's word.
fn is_complete(left: Option<&[u8]>) -> bool
    ensures { result ≡ progress.is_complete (option_copied left.entry) }
{
    match left {
        Some(left) => left.is_empty(),
        None => false,
    }
}

/// Whether a quoted string has the word of a relation type.
fn quoted_has_word(text: &[u8], word: &[u8]) -> bool
    ensures { result ≡ spec.has_relation word.now (meaning text.now) }
{
    let mut left = Some(word);
    let mut bytes = QuotedBytes::of(text);
    while let Some(byte) = bytes.next() {
        if !is_space_or_tab(byte) {
            left = rest_of_word(left, byte);
        } else if is_complete(left) {
            return true;
        } else {
            left = Some(word);
        }
    }
    is_complete(left)
}

/// Whether a token is the word of a relation type.
fn token_has_word(text: &[u8], word: &[u8]) -> bool
    ensures { result ≡ spec.has_relation word.now text.now }
{
    text.split(|byte| is_space_or_tab(*byte))
        .any(|relation| relation.eq_ignore_ascii_case(word))
}

/// Whether the value of a parameter `rel`, a token or a quoted string, has that relation type.
pub(crate) fn has_relation_type(value: &[u8], word: &[u8]) -> bool
    ensures { result ≡ spec.has_relation_type word.now value.now }
{
    if is_quoted_string(value) {
        quoted_has_word(value, word)
    } else {
        token_has_word(value, word)
    }
}
