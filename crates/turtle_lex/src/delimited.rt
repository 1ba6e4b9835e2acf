//! IRIREF and String: what lies between delimiters.

ghost use Rattle.std.specs.Prelude.{◌≡◌, ◌<◌, false, length, IfSome};
ghost use Rattle.std.specs.Option.{option_copied};
ghost use Rattle.turtle_lex.specs.ClassOf.{in_class};
ghost use Rattle.turtle_lex.specs.Pattern.{one, ◌∘◌, ◌∣◌, many, MatchesOnly};
ghost use Rattle.turtle_lex.specs.Terminals.{uchar, echar, iri_ref};
ghost use Rattle.turtle_lex.specs.Delimited.{part, close, StringOnly};

use crate::classes::{Class, Quote, strip_one};
use crate::escapes::{strip_escape, strip_uchar, strip_word};
use crate::plain_run::strip_plain;

/// The content of an IRIREF, of a String between single quotes, or of one between three quotes.
#[derive(Clone, Copy, Debug, PartialEq, Eq)]
pub(crate) enum Content {
    Iri,
    Line(Quote),
    Long(Quote),
}

/// What follows a character between delimiters, which is one of the class, without a backslash, or
/// an escape.
fn strip_char(text: &[u8], class: Class) -> Option<&[u8]>
    requires { in_class class 92 ≡ false }
    ensures matches { MatchesOnly (one (in_class class) ∣ echar
        ∣ uchar) text.now (option_copied result) }
    ensures shorter { IfSome result (λ rest. length rest.now < length text.now) }
{
    match strip_one(text, class) {
        Some(rest) => Some(rest),
        None => strip_escape(text),
    }
}

/// What follows one part of the content of a String between three quotes: up to two quotes, and
/// what is no quote.
fn strip_long_part(text: &[u8], quote: Quote) -> Option<&[u8]>
    ensures matches { MatchesOnly (part (Content.Long quote)) text.now (option_copied result) }
    ensures shorter { IfSome result (λ rest. length rest.now < length text.now) }
{
    let byte = quote.byte();
    match strip_word(text, &[byte, byte]) {
        Some(rest) => strip_char(rest, Class::InLongString(quote)),
        None => match strip_word(text, &[byte]) {
            Some(rest) => strip_char(rest, Class::InLongString(quote)),
            None => strip_char(text, Class::InLongString(quote)),
        },
    }
}

/// What follows one part of the content between delimiters.
fn strip_part(text: &[u8], inside: Content) -> Option<&[u8]>
    ensures matches { MatchesOnly (part inside) text.now (option_copied result) }
    ensures shorter { IfSome result (λ rest. length rest.now < length text.now) }
{
    match inside {
        Content::Iri => match strip_one(text, Class::InIri) {
            Some(rest) => Some(rest),
            None => strip_uchar(text),
        },
        Content::Line(quote) => strip_char(text, Class::InLineString(quote)),
        Content::Long(quote) => strip_long_part(text, quote),
    }
}

/// What follows the closing delimiter.
fn strip_close(text: &[u8], inside: Content) -> Option<&[u8]>
    ensures matches { MatchesOnly (close inside) text.now (option_copied result) }
    ensures shorter { IfSome result (λ rest. length rest.now < length text.now) }
{
    match inside {
        Content::Iri => strip_word(text, b">"),
        Content::Line(quote) => strip_word(text, &[quote.byte()]),
        Content::Long(quote) => {
            let byte = quote.byte();
            strip_word(text, &[byte, byte, byte])
        }
    }
}

/// What follows the content between delimiters and its closing delimiter.
fn strip_inside(text: &[u8], inside: Content) -> Option<&[u8]>
    ensures matches { MatchesOnly (many (part inside)
        ∘ close inside) text.now (option_copied result) }
    ensures shorter { IfSome result (λ rest. length rest.now < length text.now) }
{
    let mut rest = strip_plain(text, inside);
    loop {
        match strip_close(rest, inside) {
            Some(after) => return Some(after),
            None => match strip_part(rest, inside) {
                Some(after) => rest = strip_plain(after, inside),
                None => return None,
            },
        }
    }
}

/// What follows an IRIREF with its delimiters.
pub(crate) fn strip_iri_ref(text: &[u8]) -> Option<&[u8]>
    ensures matches { MatchesOnly iri_ref text.now (option_copied result) }
    ensures shorter { IfSome result (λ rest. length rest.now < length text.now) }
{
    match strip_word(text, b"<") {
        Some(rest) => strip_inside(rest, Content::Iri),
        None => None,
    }
}

/// What follows a String with its delimiters, of this quote.
pub(crate) fn strip_string(text: &[u8], quote: Quote) -> Option<&[u8]>
    ensures matches { StringOnly quote text.now (option_copied result) }
    ensures shorter { IfSome result (λ rest. length rest.now < length text.now) }
{
    let byte = quote.byte();
    match strip_word(text, &[byte, byte, byte]) {
        Some(rest) => strip_inside(rest, Content::Long(quote)),
        None => match strip_word(text, &[byte]) {
            Some(rest) => strip_inside(rest, Content::Line(quote)),
            None => None,
        },
    }
}
