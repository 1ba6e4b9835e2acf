//! Escapes of Strings and IRIREFs, decoded in one pass.

ghost use Rattle.std.specs.Prelude.{◌≡◌, ◌≤◌, ◌++◌, false, IfOk, OnOk};
ghost use Rattle.std.specs.Char.{digit_value};
ghost use Rattle.turtle_terms.specs.Escapes.{echar_value, char_bytes, next_escape, completed};
ghost use Rattle.turtle_terms.specs.Escapes.{decoded};
ghost use Rattle.iri_ref.specs.Characters.{Lacks};
ghost use Rattle.turtle_terms.specs.EscapeBound.{IsBounded};
ghost use Rattle.turtle_terms.specs.Values.{is_backslash};
ghost use Rattle.turtle_terms.specs.declared.escapes.Escape.TheVariants.{Outside, Opened, Number};
ghost use Rattle.std.specs.Str.{IsUtf8};
ghost use Rattle.std.specs.String.{string_bytes};

use pod_base::Mem;
use std::alloc::Global;

/// Where a text stands between two of its bytes.
#[derive(Clone, Copy)]
pub(crate) enum Escape {
    /// Outside of escapes.
    Outside,
    /// After the backslash of an escape.
    Opened,
    /// In a UCHAR, before so many digits and one more. The digits so far are this number.
    Number { more: u8, number: u64 },
}

/// The value of a hexadecimal digit in an escape that is decoded. Other letters continue the row up
/// to 35, and any other byte has 36.
fn digit_value(byte: u8) -> u64
    ensures value { result ≡ digit_value byte }
    ensures small { result ≤ 36 }
{
    match byte {
        b'0'..=b'9' => (byte - b'0') as u64,
        b'A'..=b'Z' => (byte - b'A' + 10) as u64,
        b'a'..=b'z' => (byte - b'a' + 10) as u64,
        _ => 36,
    }
}

/// The character to which an ECHAR is decoded, by the byte after its backslash.
fn echar_value(byte: u8) -> u8
    ensures { result ≡ echar_value byte }
{
    match byte {
        b't' => b'\t',
        b'b' => 8,
        b'n' => b'\n',
        b'r' => b'\r',
        b'f' => 12,
        _ => byte,
    }
}

/// Appends the decoded character with this number, if one has it.
fn push_char(value: &mut Vec<u8>, number: u64) -> Mem<()>
    ensures { OnOk result (value.new.items ≡ value.old.items ++ char_bytes number) }
{
    if number > 0x10_FFFF {
        return Ok(());
    }
    if let Some(character) = char::from_u32(number as u32) {
        let mut buffer = [0; 4];
        value.extend_from_slice(character.encode_utf8(&mut buffer).as_bytes())?;
    }
    Ok(())
}

/// The state of decoding escapes after one more byte. What the value has with it is appended.
fn step(value: &mut Vec<u8>, escape: Escape, byte: u8) -> Mem<Escape>
    requires { IsBounded escape }
    ensures next { IfOk result (λ next. next ≡ next_escape escape byte) }
    ensures bounded { IfOk result IsBounded }
    ensures value { OnOk result (value.new.items ≡ value.old.items ++ completed escape byte) }
{
    match escape {
        Escape::Outside => step_outside(value, byte),
        Escape::Opened => step_opened(value, byte),
        Escape::Number { more, number } => step_number(value, more, number, byte),
    }
}

/// The state of decoding after one more byte outside of escapes, as [`step`] has it.
fn step_outside(value: &mut Vec<u8>, byte: u8) -> Mem<Escape>
    ensures next { IfOk result (λ next. next ≡ next_escape Outside byte) }
    ensures bounded { IfOk result IsBounded }
    ensures value { OnOk result (value.new.items ≡ value.old.items ++ completed Outside byte) }
{
    if byte == b'\\' {
        return Ok(Escape::Opened);
    }
    value.push(byte)?;
    Ok(Escape::Outside)
}

/// The state of decoding after the byte behind an escape's backslash, as [`step`] has it.
fn step_opened(value: &mut Vec<u8>, byte: u8) -> Mem<Escape>
    ensures next { IfOk result (λ next. next ≡ next_escape Opened byte) }
    ensures bounded { IfOk result IsBounded }
    ensures value { OnOk result (value.new.items ≡ value.old.items ++ completed Opened byte) }
{
    match byte {
        b'u' => Ok(Escape::Number { more: 3, number: 0 }),
        b'U' => Ok(Escape::Number { more: 7, number: 0 }),
        _ => {
            value.push(echar_value(byte))?;
            Ok(Escape::Outside)
        }
    }
}

/// The state of decoding after one more byte in a UCHAR, as [`step`] has it.
fn step_number(value: &mut Vec<u8>, more: u8, number: u64, byte: u8) -> Mem<Escape>
    requires { IsBounded (Number more number) }
    ensures next { IfOk result (λ next. next ≡ next_escape (Number more number) byte) }
    ensures bounded { IfOk result IsBounded }
    ensures value { OnOk result
        (value.new.items ≡ value.old.items ++ completed (Number more number) byte) }
{
    let number = number * 16 + digit_value(byte);
    if more == 0 {
        push_char(value, number)?;
        return Ok(Escape::Outside);
    }
    Ok(Escape::Number {
        more: more - 1,
        number,
    })
}

/// Appends the decoded value of a text with escapes.
fn push_decoded(value: &mut Vec<u8>, text: &[u8]) -> Mem<()>
    ensures { OnOk result (value.new.items ≡ value.old.items ++ decoded text.now) }
{
    let mut escape = Escape::Outside;
    for byte in text {
        escape = step(value, escape, *byte)?;
    }
    Ok(())
}

/// Whether the text has a backslash, with which each escape begins.
pub(crate) fn has_backslash(text: &str) -> bool
    ensures { result ≡ false → Lacks is_backslash text.now }
{
    text.as_bytes().contains(&b'\\')
}

/// The decoded value of a text with escapes.
pub(crate) fn decode(alloc: Global, text: &str) -> Mem<String>
    requires { IsUtf8 (decoded text.now) }
    ensures { IfOk result (λ value. string_bytes value ≡ decoded text.now) }
{
    let mut value = Vec::with_capacity(alloc, text.len())?;
    push_decoded(&mut value, text.as_bytes())?;
    match String::from_utf8(value) {
        Ok(value) => Ok(value),
        Err(_) => unreachable!(),
    }
}
