//! Escapes in their normal form.

ghost use Rattle.std.specs.Prelude.{◌≡◌, ◌++◌, ◌∷◌, [], ◌+◌, ◌*◌, ◌<◌, IsTrue, IfSome, IfNone};
ghost use Rattle.std.specs.Prelude.{OnOk, IfOk, IfErr, is_some, Some, None, length};
ghost use Rattle.pod_path.specs.Characters.{percent, is_unreserved};
ghost use Rattle.pod_path.specs.Escapes.{is_hex, hex_digit_value, upper, normal_escape, prepend};
ghost use Rattle.pod_path.specs.Escapes.{normalize_escapes};
ghost use Rattle.pod_path.specs.EscapeFaults.{FailsEscape};

use crate::fault::PathFault;
use std::alloc::{AllocError, Global};

/// The value of a hexadecimal digit in an escape.
fn hex_digit_value(b: u8) -> Option<u8>
    ensures is { is_some result ≡ is_hex b }
    ensures value { IfSome result (λ value. value ≡ hex_digit_value b) }
    ensures small { IfSome result (λ value. value < 16) }
{
    match b {
        b'0'..=b'9' => Some(b - b'0'),
        b'A'..=b'F' => Some(b - b'A' + 10),
        b'a'..=b'f' => Some(b - b'a' + 10),
        _ => None,
    }
}

/// A hexadecimal digit of an escape in upper case, its normal form.
fn to_upper(b: u8) -> u8
    ensures { IsTrue (is_hex b) → result ≡ upper b }
{
    b.to_ascii_uppercase()
}

/// Whether a character needs no escape anywhere in a path.
fn is_unreserved(b: u8) -> bool
    ensures { result ≡ is_unreserved b }
{
    matches!(b, b'a'..=b'z' | b'A'..=b'Z' | b'0'..=b'9' | b'-' | b'.' | b'_' | b'~')
}

/// Writes an escape of this byte in its normal form.
fn push_escape(text: &mut Vec<u8>, byte: u8, high: u8, low: u8) -> Result<(), AllocError>
    requires high_digit { IsTrue (is_hex high) }
    requires low_digit { IsTrue (is_hex low) }
    requires value { byte ≡ 16 * hex_digit_value high + hex_digit_value low }
    ensures { OnOk result (text.new.items ≡ text.old.items ++ normal_escape high low) }
{
    if is_unreserved(byte) {
        text.push(byte)?;
    } else {
        text.push(b'%')?;
        text.push(to_upper(high))?;
        text.push(to_upper(low))?;
    }
    Ok(())
}

/// Writes the escape whose digits begin a text, and gives what follows them.
fn push_first_escape<'a>(bytes: &mut Vec<u8>, digits: &'a [u8]) -> Result<&'a [u8], PathFault>
    ensures text { IfOk result (λ rest. prepend bytes.old.items
        (normalize_escapes (percent ∷ digits.entry.now))
        ≡ prepend bytes.new.items (normalize_escapes rest.now)) }
    ensures shorter { IfOk result (λ rest. length rest.now < length digits.entry.now) }
    ensures fault { IfErr result (λ fault. FailsEscape fault
        (normalize_escapes (percent ∷ digits.entry.now))) }
{
    let [high, low, rest @ ..] = digits else {
        return Err(PathFault::BadEscape);
    };
    let (Some(high_value), Some(low_value)) = (hex_digit_value(*high), hex_digit_value(*low)) else {
        return Err(PathFault::BadEscape);
    };
    push_escape(bytes, 16 * high_value + low_value, *high, *low)?;
    Ok(rest)
}

/// A text of a path with its escapes in their normal form.
pub(crate) fn normalize_escapes(alloc: Global, text: &[u8]) -> Result<Vec<u8>, PathFault>
    ensures text { IfOk result (λ bytes. normalize_escapes text.now ≡ Some bytes.items) }
    ensures fault { IfErr result (λ fault. FailsEscape fault (normalize_escapes text.now)) }
{
    let mut bytes = Vec::with_capacity(alloc, text.len())?;
    let mut rest = text;
    while let [first, after @ ..] = rest {
        if *first != b'%' {
            bytes.push(*first)?;
            rest = after;
        } else {
            rest = push_first_escape(&mut bytes, after)?;
        }
    }
    Ok(bytes)
}
