//! The values of Content-Length: numbers of any size in decimal digits.

ghost use Rattle.std.specs.Prelude.{◌≡◌, Some, None, true, if◌then◌else◌, nat_le};
ghost use Rattle.std.specs.List.{list_all};
ghost use Rattle.std.specs.Char.{is_ascii_digit};
ghost use Rattle.std.specs.Str.{bytes_eq};
ghost use Rattle.http_head.specs.Decimals.{is_number, number_of, significant};
ghost use Rattle.http_head.specs.BodyFraming as spec;

use pod_base::Fields;

/// The most bytes of a body.
pub const BODY_LIMIT: u64 = 8_388_608;

/// Whether the value of a Content-Length is digits alone.
fn are_digits(value: &[u8]) -> bool
    ensures { result ≡ list_all is_ascii_digit value.now }
{
    value.iter().all(|byte| byte.is_ascii_digit())
}

/// Whether the value of a Content-Length is a number: one digit or more and nothing else.
fn is_number(value: &[u8]) -> bool
    ensures { result ≡ is_number value.now }
{
    !value.is_empty() && are_digits(value)
}

/// The digits of a Content-Length from the first that isn't 0.
fn significant(mut digits: &[u8]) -> &[u8]
    ensures { result.now ≡ significant digits.now }
{
    while let [first, rest @ ..] = digits
        && *first == b'0'
    {
        digits = rest;
    }
    digits
}

/// Whether two Content-Lengths are the same number: their digits are, from the first that isn't 0.
fn is_same_number(digits: &[u8], others: &[u8]) -> bool
    ensures { result ≡ bytes_eq (significant digits.now) (significant others.now) }
{
    significant(digits) == significant(others)
}

/// The number that the digits of a Content-Length write, up to [`BODY_LIMIT`].
pub(crate) fn body_length(digits: &[u8]) -> Option<u64>
    ensures { result ≡ (if nat_le (number_of digits.now) BODY_LIMIT
        then Some (number_of digits.now) else None) }
{
    let mut number = 0;
    for digit in digits {
        number = number * 10 + u64::from(digit.saturating_sub(b'0'));
        if number > BODY_LIMIT {
            return None;
        }
    }
    Some(number)
}

/// Whether each Content-Length of a head is a number.
pub(crate) fn are_numbers(fields: &Fields) -> bool
    ensures { result ≡ list_all (λ f. is_number f.value) (spec.lengths fields.now) }
{
    fields
        .list
        .as_slice()
        .iter()
        .filter(|field| field.is_named("content-length"))
        .all(|field| is_number(field.value.as_slice()))
}

/// Whether each Content-Length of a head is that number.
fn are_all_equal_to(fields: &Fields, number: &[u8]) -> bool
    ensures { result ≡ list_all
        (λ f. bytes_eq (significant f.value) (significant number.now)) (spec.lengths fields.now) }
{
    fields
        .list
        .as_slice()
        .iter()
        .filter(|field| field.is_named("content-length"))
        .all(|field| is_same_number(field.value.as_slice(), number))
}

/// Whether two Content-Lengths of a head are different numbers.
pub(crate) fn lengths_differ(fields: &Fields) -> bool
    ensures { list_all (λ f. is_number f.value) (spec.lengths fields.now) ≡ true
        → result ≡ spec.lengths_differ (spec.lengths fields.now) }
{
    match fields.first("content-length") {
        Some(first) => !are_all_equal_to(fields, first.as_slice()),
        None => false,
    }
}
