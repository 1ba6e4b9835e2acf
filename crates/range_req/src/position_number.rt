//! Positions in decimal digits.

ghost use Rattle.std.specs.Prelude.{◌≡◌, Some, None};
ghost use Rattle.std.specs.List.{list_all};
ghost use Rattle.std.specs.Char.{is_ascii_digit};
ghost use Rattle.range_req.specs.Numbers as spec;

/// The greatest number that a range can have: greater ones count as this one.
pub const NUMBER_LIMIT: u64 = 1_000_000_000_000_000_000;

/// Whether a position in a range is digits alone.
fn are_digits(bytes: &[u8]) -> bool
    ensures { result ≡ list_all is_ascii_digit bytes.now }
{
    bytes.iter().all(|byte| byte.is_ascii_digit())
}

/// Whether a position in a range is a number: one digit or more and nothing else.
fn is_number(text: &[u8]) -> bool
    ensures { result ≡ spec.is_number text.now }
{
    !text.is_empty() && are_digits(text)
}

/// The number that the digits of a position write, up to the limit.
fn limited(digits: &[u8]) -> u64
    ensures { result ≡ spec.limited (spec.value digits.now) }
{
    let mut number = 0;
    for digit in digits {
        number = (number * 10 + u64::from(digit.saturating_sub(b'0'))).min(NUMBER_LIMIT);
    }
    number
}

/// The number of a position in a range, up to the limit; none where the text is no number.
pub(crate) fn number(text: &[u8]) -> Option<u64>
    ensures { result ≡ spec.number text.now }
{
    if is_number(text) {
        Some(limited(text))
    } else {
        None
    }
}
