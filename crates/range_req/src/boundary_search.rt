//! The first boundary that isn't in a body.

ghost use Rattle.std.specs.Prelude.{◌≡◌, ◌≤◌, not, false, true, IfOk, string_bytes};
ghost use Rattle.std.specs.List.{position};
ghost use Rattle.range_req.specs.Boundaries as numbers;
ghost use Rattle.range_req.specs.Multipart as spec;

use itoa::Buffer;
use memchr::memmem;
use pod_base::Mem;
use std::alloc::{AllocError, Global};

/// Whether a search finds the bytes of a delimiter somewhere in a body.
fn occurs(body: &[u8], needle: &[u8]) -> bool
    ensures yes { result ≡ true → spec.Occurs body.now needle.now }
    ensures no { result ≡ false → spec.Occurs body.now needle.now → ⊥ }
{
    match memmem::find(body, needle) {
        Some(_) => true,
        None => false,
    }
}

/// The boundary with that number, in the order of the search.
fn boundary(alloc: Global, number: u64) -> Result<String, AllocError>
    ensures { IfOk result (λ text. string_bytes text ≡ spec.boundary number) }
{
    let mut digits = Buffer::new();
    let mut text = String::with_capacity(alloc, 24)?;
    text.push_str("pod-")?;
    text.push_str(digits.format(number))?;
    Ok(text)
}

/// Notes the numbers of boundaries whose decimal digits begin with those of a number and go on with
/// a text, as far as the notes go.
fn note_longer(noted: &mut [bool], from: usize, text: &[u8])
    requires { 1 ≤ from }
    ensures { numbers.AreNoted noted.old noted.new (numbers.longer_numbers from text.now) }
{
    let mut number = from;
    let mut rest = text;
    while let Some((digit, more)) = rest.split_first() {
        if !digit.is_ascii_digit() {
            return;
        }
        if number > noted.len() / 10 {
            return;
        }
        number = number * 10 + usize::from(*digit - b'0');
        if number >= noted.len() {
            return;
        }
        noted[number] = true;
        rest = more;
    }
}

/// Notes the numbers of boundaries whose decimal digits begin a text, as far as the notes go.
fn note_numbers(noted: &mut [bool], text: &[u8])
    ensures { numbers.AreNoted noted.old noted.new (numbers.first_numbers text.now) }
{
    let Some((digit, rest)) = text.split_first() else {
        return;
    };
    if !digit.is_ascii_digit() {
        return;
    }
    let number = usize::from(*digit - b'0');
    if number >= noted.len() {
        return;
    }
    noted[number] = true;
    if number == 0 {
        return;
    }
    note_longer(noted, number, rest);
}

/// Notes the numbers of boundaries whose delimiters begin a text.
fn note_delimiters(noted: &mut [bool], text: &[u8])
    ensures { numbers.AreNoted noted.old noted.new (numbers.delimiter_numbers text.now) }
{
    if let Some(rest) = text.strip_prefix(b"--pod-".as_slice()) {
        note_numbers(noted, rest);
    }
}

/// Searches a body and notes the numbers of boundaries whose delimiters are in it, in one pass.
fn note_body(noted: &mut [bool], body: &[u8])
    ensures { numbers.AreNoted noted.old noted.new (numbers.body_numbers body.now) }
{
    let mut rest = body;
    while let Some((_first, more)) = rest.split_first() {
        note_delimiters(noted, rest);
        rest = more;
    }
}

/// The first number of a boundary that isn't noted.
fn first_not_noted(noted: &[bool]) -> Option<usize>
    ensures { result ≡ position (λ b. not b) noted.now }
{
    noted.iter().position(|noted| !*noted)
}

/// The number of the first boundary whose delimiter isn't in the searched body. Each one that is
/// ends at a position of its own, so there are at most as many as bytes.
fn free_number(alloc: Global, body: &[u8]) -> Mem<u64>
    ensures first { IfOk result (λ number. spec.IsFirstFree body.now number) }
    ensures number { IfOk result (λ number. number ≡ spec.free_number body.now) }
{
    if !occurs(body, b"--pod-0") {
        return Ok(0);
    }
    let mut noted = vec![in alloc; false; body.len() + 1]?;
    note_body(noted.as_mut_slice(), body);
    match first_not_noted(noted.as_slice()) {
        Some(number) => Ok(number as u64),
        None => unreachable!(),
    }
}

/// Searches for the first boundary whose delimiter isn't in a body. It takes memory for a note a
/// byte of the body, but none where the first one is free.
pub(crate) fn free_boundary(alloc: Global, body: &[u8]) -> Mem<String>
    ensures free { IfOk result (λ text. spec.IsFreeBoundary body.now (string_bytes text)) }
    ensures named { IfOk result (λ text. string_bytes text ≡ spec.free_boundary body.now) }
{
    let number = free_number(alloc, body)?;
    let boundary = boundary(alloc, number)?;
    Ok(boundary)
}
