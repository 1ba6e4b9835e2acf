//! Runs of plain characters in an IRIREF or a String, taken at once.

ghost use Rattle.std.specs.Prelude.{◌≡◌, ◌≤◌, true, length, take};
ghost use Rattle.std.specs.List.{list_all};
ghost use Rattle.turtle_lex.specs.Classes.{is_iri_char, is_line_char, is_long_char};
ghost use Rattle.turtle_lex.specs.ClassOf.{in_class};
ghost use Rattle.turtle_lex.specs.Pattern.{one, many, Matches};
ghost use Rattle.turtle_lex.specs.Delimited.{plain_class, is_neither};

use crate::classes::{Quote, is_iri_char};
use crate::delimited::Content;
use memchr::memchr2;

/// How many bytes at the start may be part of an IRIREF, each taken as the character of that
/// number.
fn iri_len(text: &[u8]) -> usize
    ensures within { result ≤ length text.now }
    ensures plain { list_all is_iri_char (take result text.now) ≡ true }
{
    for index in 0..text.len() {
        if !is_iri_char(text[index] as char) {
            return index;
        }
    }
    text.len()
}

/// How many bytes precede the first of these two.
fn len_before(text: &[u8], first: u8, second: u8) -> usize
    ensures within { result ≤ length text.now }
    ensures neither { list_all (is_neither first second) (take result text.now) ≡ true }
{
    match memchr2(first, second, text) {
        Some(at) => at,
        None => text.len(),
    }
}

/// How many bytes at the start may be part of a String between three quotes.
fn long_len(text: &[u8], quote: Quote) -> usize
    ensures within { result ≤ length text.now }
    ensures plain { list_all (is_long_char quote) (take result text.now) ≡ true }
{
    len_before(text, quote.byte(), b'\\')
}

/// How many bytes at the start may be part of a String between single quotes.
fn line_len(text: &[u8], quote: Quote) -> usize
    ensures within { result ≤ length text.now }
    ensures plain { list_all (is_line_char quote) (take result text.now) ≡ true }
{
    let run = text.split_at(long_len(text, quote)).0;
    len_before(run, b'\n', b'\r')
}

/// How many bytes at the start are plain, each taken as the character of that number.
fn plain_len(text: &[u8], content: Content) -> usize
    ensures within { result ≤ length text.now }
    ensures plain { list_all (in_class (plain_class content)) (take result text.now) ≡ true }
{
    match content {
        Content::Iri => iri_len(text),
        Content::Line(quote) => line_len(text, quote),
        Content::Long(quote) => long_len(text, quote),
    }
}

/// What follows the plain characters at the start of the text.
///
/// The bytes above 127 are plain, as far as they are UTF-8. So a run of plain characters ends
/// before a byte that is none, or where the bytes stop being UTF-8.
pub(crate) fn strip_plain(text: &[u8], content: Content) -> &[u8]
    ensures run { Matches (many (one (in_class (plain_class content)))) text.now result.now }
    ensures no_longer { length result.now ≤ length text.now }
{
    let (run, rest) = text.split_at(plain_len(text, content));
    match std::str::from_utf8(run) {
        Ok(_) => rest,
        Err(fault) => text.split_at(fault.valid_up_to()).1,
    }
}
