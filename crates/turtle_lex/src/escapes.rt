//! Words and escapes at the start of a text.

ghost use Rattle.std.specs.Prelude.{◌≡◌, ◌<◌, ◌≤◌, ◌+◌, ◌*◌, true, false, length, IfSome, IfNone};
ghost use Rattle.std.specs.Prelude.{codes};
ghost use Rattle.std.specs.Option.{option_copied};
ghost use Rattle.std.specs.List.{list_all};
ghost use Rattle.std.specs.Char.{is_ascii_hexdigit, digit_value};
ghost use Rattle.turtle_lex.specs.Pattern.{◌∣◌, word, number, MatchesOnly, hex_value};
ghost use Rattle.turtle_lex.specs.Terminals.{uchar, echar};

use crate::classes::{Class, strip_one};

/// What follows a word at the start of a text, such as that of an escape.
pub(crate) fn strip_word<'a>(text: &'a [u8], spelling: &[u8]) -> Option<&'a [u8]>
    ensures matches { MatchesOnly (word spelling.now) text.now (option_copied result) }
    ensures shorter { IfSome result (λ rest.
        length rest.now + length spelling.now ≡ length text.now) }
{
    text.strip_prefix(spelling)
}

/// The value of a token's byte as a hexadecimal digit of an escape, if it is one.
fn hex_digit(b: u8) -> Option<u32>
    ensures digit { IfSome result (λ d. (is_ascii_hexdigit b ≡ true) × (d ≡ digit_value b)) }
    ensures small { IfSome result (λ d. d < 16) }
    ensures none { IfNone result (is_ascii_hexdigit b ≡ false) }
{
    match b {
        b'0'..=b'9' => Some((b - b'0') as u32),
        b'A'..=b'F' => Some((b - b'A' + 10) as u32),
        b'a'..=b'f' => Some((b - b'a' + 10) as u32),
        _ => None,
    }
}

/// The number that the hexadecimal digits of an escape represent.
fn hex_number(digits: &[u8]) -> Option<u32>
    requires { length digits.now ≤ 8 }
    ensures value { IfSome result (λ n. (list_all is_ascii_hexdigit digits.now ≡ true)
        × (n ≡ hex_value 0 digits.now)) }
    ensures none { IfNone result (list_all is_ascii_hexdigit digits.now ≡ false) }
{
    let mut number = 0;
    for digit in digits {
        number = number * 16 + hex_digit(*digit)?;
    }
    Some(number)
}

/// What follows `count` hexadecimal digits of an escape, which represent a character.
fn strip_number(text: &[u8], count: usize) -> Option<&[u8]>
    requires { count ≤ 8 }
    ensures matches { MatchesOnly (number count) text.now (option_copied result) }
    ensures shorter { IfSome result (λ rest. length rest.now + count ≡ length text.now) }
{
    if text.len() < count {
        return None;
    }
    let (digits, rest) = text.split_at(count);
    let number = hex_number(digits)?;
    match char::from_u32(number) {
        Some(_) => Some(rest),
        None => None,
    }
}

/// What follows an escape that is a UCHAR.
pub(crate) fn strip_uchar(text: &[u8]) -> Option<&[u8]>
    ensures matches { MatchesOnly uchar text.now (option_copied result) }
    ensures shorter { IfSome result (λ rest. length rest.now < length text.now) }
{
    match strip_word(text, b"\\u") {
        Some(digits) => strip_number(digits, 4),
        None => match strip_word(text, b"\\U") {
            Some(digits) => strip_number(digits, 8),
            None => None,
        },
    }
}

/// What follows an escape that is an ECHAR.
fn strip_echar(text: &[u8]) -> Option<&[u8]>
    ensures matches { MatchesOnly echar text.now (option_copied result) }
    ensures shorter { IfSome result (λ rest. length rest.now < length text.now) }
{
    match strip_word(text, b"\\") {
        Some(rest) => strip_one(rest, Class::Escaped),
        None => None,
    }
}

/// What follows an escape of a String.
pub(crate) fn strip_escape(text: &[u8]) -> Option<&[u8]>
    ensures matches { MatchesOnly (echar ∣ uchar) text.now (option_copied result) }
    ensures shorter { IfSome result (λ rest. length rest.now < length text.now) }
{
    match strip_echar(text) {
        Some(rest) => Some(rest),
        None => strip_uchar(text),
    }
}
