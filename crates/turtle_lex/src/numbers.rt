//! INTEGER, DECIMAL and DOUBLE.

ghost use Rattle.std.specs.Prelude.{◌≡◌, ◌<◌, ◌≤◌, ◌≢◌, ◌⊎◌, None, Some, length, codes, IfSome};
ghost use Rattle.std.specs.Prelude.{IfNone};
ghost use Rattle.std.specs.Option.{option_copied};
ghost use Rattle.std.specs.Char.{is_ascii_digit};
ghost use Rattle.turtle_lex.specs.Pattern.{word, MatchesOnly, MatchesLongest};
ghost use Rattle.turtle_lex.specs.Terminals.{exponent};
ghost use Rattle.turtle_lex.specs.Runs.{IsRun};
ghost use Rattle.turtle_lex.specs.Numbers.{body, signed, IsLongestNumber, HasNoNumber, IsSigned};

use crate::char_runs::{strip_run, strip_some};
use crate::classes::{Class, strip_one};
use crate::escapes::strip_word;

/// The kind of a number.
#[derive(Clone, Copy, Debug, PartialEq, Eq)]
pub(crate) enum Number {
    Integer,
    Decimal,
    Double,
}

/// What follows a number's sign, if there is one.
fn strip_sign(text: &[u8]) -> &[u8]
    ensures signed { IsSigned text.now result.now }
    ensures no_longer { length result.now ≤ length text.now }
{
    match strip_one(text, Class::Sign) {
        Some(rest) => rest,
        None => text,
    }
}

/// What follows a number's longest EXPONENT.
fn strip_exponent(text: &[u8]) -> Option<&[u8]>
    ensures matches { MatchesLongest exponent text.now (option_copied result) }
    ensures shorter { IfSome result (λ rest. length rest.now < length text.now) }
{
    match strip_one(text, Class::ExponentMark) {
        Some(rest) => strip_some(strip_sign(rest), Class::Digit),
        None => None,
    }
}

/// The longest number without a sign at the start of a text, whose digits end at `digits`, before
/// anything but a point.
fn whole_number<'a>(text: &'a [u8], digits: &'a [u8]) -> Option<(Number, &'a [u8])>
    requires run { IsRun is_ascii_digit text.now digits.now }
    requires no_longer { length digits.now ≤ length text.now }
    requires no_point { MatchesOnly (word (codes ".")) digits.now None }
    ensures found { IfSome result (λ n. IsLongestNumber body n.0 text.now n.1.now) }
    ensures none { IfNone result (HasNoNumber body text.now) }
{
    if digits.len() == text.len() {
        return None;
    }
    match strip_exponent(digits) {
        Some(rest) => Some((Number::Double, rest)),
        None => Some((Number::Integer, digits)),
    }
}

/// The longest number without a sign at the start of a text, whose digits end at `digits`, before a
/// point.
fn pointed_number<'a>(
    text: &'a [u8],
    digits: &'a [u8],
    fraction: &'a [u8],
) -> Option<(Number, &'a [u8])>
    requires run { IsRun is_ascii_digit text.now digits.now }
    requires no_longer { length digits.now ≤ length text.now }
    requires point { MatchesOnly (word (codes ".")) digits.now (Some fraction.now) }
    ensures found { IfSome result (λ n. IsLongestNumber body n.0 text.now n.1.now) }
    ensures none { IfNone result (HasNoNumber body text.now) }
{
    let after = strip_run(fraction, Class::Digit);
    if after.len() < fraction.len() {
        return match strip_exponent(after) {
            Some(rest) => Some((Number::Double, rest)),
            None => Some((Number::Decimal, after)),
        };
    }
    if digits.len() == text.len() {
        return None;
    }
    match strip_exponent(after) {
        Some(rest) => Some((Number::Double, rest)),
        None => Some((Number::Integer, digits)),
    }
}

/// The longest number without a sign at the start of a text.
fn unsigned_number(text: &[u8]) -> Option<(Number, &[u8])>
    ensures found { IfSome result (λ n. IsLongestNumber body n.0 text.now n.1.now) }
    ensures none { IfNone result (HasNoNumber body text.now) }
{
    let digits = strip_run(text, Class::Digit);
    match strip_word(digits, b".") {
        Some(fraction) => pointed_number(text, digits, fraction),
        None => whole_number(text, digits),
    }
}

/// The longest number at the start of a text.
pub(crate) fn longest_number(text: &[u8]) -> Option<(Number, &[u8])>
    ensures found { IfSome result (λ n. IsLongestNumber signed n.0 text.now n.1.now) }
    ensures none { IfNone result (HasNoNumber signed text.now) }
{
    unsigned_number(strip_sign(text))
}
