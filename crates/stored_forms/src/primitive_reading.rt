//! Numbers, texts, IRIs and paths, from the head of stored bytes.
//!
//! Each function returns the value and the bytes after it. The memory of a value is its own: it
//! keeps no stored bytes alive.
ghost use Rattle.std.specs.Prelude.{◌≡◌, ◌==◌, length};
ghost use Rattle.std.specs.Prelude.{if◌then◌else◌, Some, None};
ghost use Rattle.stored_forms.specs.Readers.{Gives, byte_at, number_at, piece_at};
ghost use Rattle.stored_forms.specs.Reading.{iri_at, is_absolute, is_path, path_at, text_at};

use crate::read_back::ReadBack;
use iri_ref::{Iri, IriFault};
use pod_base::{Bytes, Text};
use pod_path::Path;
use std::alloc::Global;

/// Reads the first byte of a stored form.
pub(crate) fn byte_of(bytes: &[u8]) -> Result<(u8, &[u8]), ReadBack>
    ensures { Gives (λ x. (x.0, x.1.now)) result (byte_at bytes.now) }
{
    match bytes.split_first() {
        Some((first, rest)) => Ok((*first, rest)),
        None => Err(ReadBack::NotCanonical),
    }
}

/// Reads a number from a stored form.
#[tactic(auto, unfolding(crate::specs::Readers::number_at))]
pub(crate) fn number_of(bytes: &[u8]) -> Result<(u64, &[u8]), ReadBack>
    ensures { Gives (λ x. (x.0, x.1.now)) result (number_at bytes.now) }
{
    if bytes.len() < 8 {
        return Err(ReadBack::NotCanonical);
    }
    let (n, rest) = bytes.split_at(8);
    let number = u64::from_be_bytes([n[0], n[1], n[2], n[3], n[4], n[5], n[6], n[7]]);
    Ok((number, rest))
}

/// Reads bytes from a stored form, after their number.
#[tactic(auto, unfolding(crate::specs::Readers::piece_at))]
pub(crate) fn piece_of(bytes: &[u8]) -> Result<(&[u8], &[u8]), ReadBack>
    ensures { Gives (λ x. (x.0.now, x.1.now)) result (piece_at bytes.now) }
{
    let (len, rest) = number_of(bytes)?;
    if (rest.len() as u64) < len {
        return Err(ReadBack::NotCanonical);
    }
    Ok(rest.split_at(len as usize))
}

/// Reads a text from a stored form, lent by the bytes.
#[tactic(auto, unfolding(crate::specs::Reading::text_at))]
fn str_of(bytes: &[u8]) -> Result<(&str, &[u8]), ReadBack>
    ensures { Gives (λ x. (x.0.now, x.1.now)) result (text_at bytes.now) }
{
    let (piece, rest) = piece_of(bytes)?;
    match str::from_utf8(piece) {
        Ok(text) => Ok((text, rest)),
        Err(_) => Err(ReadBack::NotCanonical),
    }
}

/// Reads a text from a stored form.
pub(crate) fn text_of(alloc: Global, bytes: &[u8]) -> Result<(Text, &[u8]), ReadBack>
    ensures { Gives (λ x. (x.0, x.1.now)) result (text_at bytes.now) }
{
    let (text, rest) = str_of(bytes)?;
    let text = Text::of(alloc, text)?;
    Ok((text, rest))
}

/// Reads bytes from a stored form, as a value of their own.
pub(crate) fn bytes_of(alloc: Global, bytes: &[u8]) -> Result<(Bytes, &[u8]), ReadBack>
    ensures { Gives (λ x. (x.0, x.1.now)) result (piece_at bytes.now) }
{
    let (piece, rest) = piece_of(bytes)?;
    let piece = Bytes::of(alloc, piece)?;
    Ok((piece, rest))
}

/// Reads an absolute IRI from a stored form.
#[tactic(auto, unfolding(crate::specs::Reading::iri_at))]
pub(crate) fn iri_of(alloc: Global, bytes: &[u8]) -> Result<(Iri, &[u8]), ReadBack>
    ensures { Gives (λ x. (x.0, x.1.now)) result (iri_at bytes.now) }
{
    let (text, rest) = str_of(bytes)?;
    let iri = absolute_iri(alloc, text)?;
    Ok((iri, rest))
}

/// The IRI of a text that was read from a stored form, and is an absolute one.
fn absolute_iri(alloc: Global, text: &str) -> Result<Iri, ReadBack>
    ensures { Gives (λ x. x) result (if is_absolute text.now then Some text.now else None) }
{
    match Iri::read(alloc, text) {
        Ok(iri) => Ok(iri),
        Err(IriFault::BadReference) => Err(ReadBack::NotCanonical),
        Err(IriFault::NoMemory) => Err(ReadBack::NoMemory),
    }
}

/// Reads a path from a stored form.
#[tactic(auto, unfolding(crate::specs::Reading::path_at))]
pub(crate) fn path_of(alloc: Global, bytes: &[u8]) -> Result<(Path, &[u8]), ReadBack>
    ensures { Gives (λ x. (x.0, x.1.now)) result (path_at bytes.now) }
{
    let (text, rest) = str_of(bytes)?;
    let path = stored_path(alloc, text)?;
    Ok((path, rest))
}

/// The path of a text that was read from a stored form, and is one.
fn stored_path(alloc: Global, text: &str) -> Result<Path, ReadBack>
    ensures { Gives (λ x. x) result (if is_path text.now then Some text.now else None) }
{
    match Path::of_text(alloc, text)? {
        Some(path) => Ok(path),
        None => Err(ReadBack::NotCanonical),
    }
}
