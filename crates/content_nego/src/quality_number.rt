//! Quality values, in thousandths (RFC 9110, section 12.4.2).

ghost use Rattle.std.specs.Prelude.{◌≡◌, ◌-◌, ◌≤◌, slice_index, IfSome};
ghost use Rattle.std.specs.Char.{is_ascii_digit};
ghost use Rattle.std.specs.List.{list_all};
ghost use Rattle.content_nego.specs.Qualities as spec;

/// The quality of a range that has no parameter `q`, and the greatest.
pub(crate) const FULL_QUALITY: u16 = 1000;

/// The decimal of a quality at a position; 0 where there is none.
fn digit_at(digits: &[u8], at: usize) -> u16
    ensures value { result ≡ slice_index digits.now at - 48 }
    ensures bound { result ≤ 255 }
{
    match digits.get(at) {
        Some(digit) => u16::from(digit.saturating_sub(b'0')),
        None => 0,
    }
}

/// Whether the decimals of a quality are digits alone.
fn are_digits(bytes: &[u8]) -> bool
    ensures { result ≡ list_all is_ascii_digit bytes.now }
{
    bytes.iter().all(|byte| byte.is_ascii_digit())
}

/// Whether the decimals of a quality are at most three digits.
fn are_decimals(digits: &[u8]) -> bool
    ensures { result ≡ spec.are_decimals digits.now }
{
    digits.len() <= 3 && are_digits(digits)
}

/// The number of thousandths that what follows the first digit of a quality writes: nothing, or a
/// point and up to three digits.
fn fraction(text: &[u8]) -> Option<u16>
    ensures value { result ≡ spec.fraction text.now }
    ensures bound { IfSome result (λ thousandths. thousandths ≤ 30000) }
{
    match text.split_first() {
        None => Some(0),
        Some((point, digits)) => {
            if *point == b'.' && are_decimals(digits) {
                Some(100 * digit_at(digits, 0) + 10 * digit_at(digits, 1) + digit_at(digits, 2))
            } else {
                None
            }
        }
    }
}

/// The quality of these whole and thousandths, where the number is at most 1.
fn up_to_one(whole: u8, thousandths: u16) -> Option<u16>
    requires { thousandths ≤ 30000 }
    ensures { result ≡ spec.up_to_one whole thousandths }
{
    if whole == b'0' && thousandths <= FULL_QUALITY {
        Some(thousandths)
    } else if whole == b'1' && thousandths == 0 {
        Some(FULL_QUALITY)
    } else {
        None
    }
}

/// The quality in thousandths that a text writes as a number: 0 to 1 with up to three decimals.
pub(crate) fn quality_value(text: &[u8]) -> Option<u16>
    ensures { result ≡ spec.quality_value text.now }
{
    match text.split_first() {
        Some((whole, rest)) => match fraction(rest) {
            Some(thousandths) => up_to_one(*whole, thousandths),
            None => None,
        },
        None => None,
    }
}
