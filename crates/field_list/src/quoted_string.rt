//! Quoted strings (RFC 9110, section 5.6.4).

ghost use Rattle.std.specs.Prelude.{◌≡◌};
ghost use Rattle.field_list.specs.QuotedString as spec;
ghost use Rattle.field_list.specs.QuotedString.{meaning, meaning_rest};

use crate::quoting::{Place, Quoting, next_place};
use httparse::is_header_value_token;

/// Whether a byte may follow in a quoted string.
fn continues(place: Place, byte: u8) -> bool
    ensures { result ≡ spec.continues place byte }
{
    place != Place::Outside && is_header_value_token(byte)
}

/// Whether a text that begins at that place is the rest of a quoted string.
fn is_rest(mut place: Place, mut text: &[u8]) -> bool
    ensures { result ≡ spec.is_rest place text.now }
{
    while let Some((byte, more)) = text.split_first() {
        if !continues(place, *byte) {
            return false;
        }
        place = next_place(Quoting::Strings, place, *byte);
        text = more;
    }
    place == Place::Outside
}

/// Whether a text is a quoted string: a quote, bytes of text and escaped ones, and a quote.
pub fn is_quoted_string(text: &[u8]) -> bool
    ensures { result ≡ spec.is_quoted_string text.now }
{
    match text.split_first() {
        Some((first, rest)) => *first == b'"' && is_rest(Place::Inside, rest),
        None => false,
    }
}

/// Whether a byte is part of what a quoted string means, and neither its end nor a backslash that
/// escapes.
fn is_meant(place: Place, byte: u8) -> bool
    ensures { result ≡ spec.is_meant place byte }
{
    match place {
        Place::Outside => false,
        Place::Inside => byte != b'"' && byte != b'\\',
        Place::Escaped => true,
    }
}

/// The bytes that a quoted string means, one after another: those between its quotes, without the
/// backslashes that escape.
#[derive(Drop)]
pub struct QuotedBytes<'a> {
    place: Place,
    rest: &'a [u8],
}

impl<'a> QuotedBytes<'a> {
    /// The bytes of a quoted string.
    pub fn of(text: &'a [u8]) -> QuotedBytes<'a>
        ensures { meaning_rest result ≡ meaning text.entry.now }
    {
        match text.split_first() {
            Some((_quote, rest)) => QuotedBytes {
                place: Place::Inside,
                rest,
            },
            None => QuotedBytes {
                place: Place::Inside,
                rest: text,
            },
        }
    }
}

impl<'a> Iterator for QuotedBytes<'a> {
    ghost use Rattle.std.specs.Iterator.{YieldsFirst, item_count};
    ghost use Rattle.field_list.specs.QuotedString.{meaning_rest};

    type Item = u8;

    ghost next_gives = { YieldsFirst meaning_rest };

    ghost remaining = { item_count meaning_rest };

    fn next(&mut self) -> Option<u8> {
        while let Some((byte, more)) = self.rest.split_first() {
            let place = self.place;
            self.place = next_place(Quoting::Strings, place, *byte);
            self.rest = more;
            if is_meant(place, *byte) {
                return Some(*byte);
            }
        }
        None
    }
}
