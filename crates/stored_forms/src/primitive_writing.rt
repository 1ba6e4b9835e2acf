//! Numbers and texts, at the end of stored bytes; and the sizes of stored forms.
ghost use Rattle.std.specs.Prelude.{◌≡◌, ◌++◌, ◌∷◌, ℕ, suc, List, [], length, OnOk};
ghost use Rattle.rdf_graph.specs.Size.{saturated};
ghost use Rattle.stored_forms.specs.StoredForms.{number_bytes, text_bytes};
ghost use Rattle.stored_forms.specs.Storable.{IsCounted, IsIriText, IsNumber, IsPathText, IsText};

use iri_ref::Iri;
use pod_base::{Mem, Text};
use pod_path::Path;

/// Appends a byte to a stored form.
pub(crate) fn put_byte(out: &mut Vec<u8>, byte: u8) -> Mem<()>
    ensures { OnOk result (out.new.items ≡ out.old.items ++ byte ∷ []) }
{
    out.push(byte)?;
    Ok(())
}

/// Appends a number to a stored form.
#[tactic(auto, unfolding(crate::specs::StoredForms::number_bytes))]
pub(crate) fn put_number(out: &mut Vec<u8>, number: u64) -> Mem<()>
    ensures form { OnOk result (out.new.items ≡ out.old.items ++ number_bytes number) }
    ensures storable { IsNumber number }
{
    out.extend_from_slice(&number.to_be_bytes())?;
    Ok(())
}

/// Appends bytes to a stored form, after their number.
#[tactic(auto, unfolding(crate::specs::StoredForms::text_bytes))]
pub(crate) fn put_piece(out: &mut Vec<u8>, piece: &[u8]) -> Mem<()>
    ensures form { OnOk result (out.new.items ≡ out.old.items ++ text_bytes piece.now) }
    ensures counted { IsCounted piece.now }
{
    put_number(out, piece.len() as u64)?;
    out.extend_from_slice(piece)?;
    Ok(())
}

/// Appends a text to a stored form.
pub(crate) fn put_text(out: &mut Vec<u8>, text: &Text) -> Mem<()>
    ensures form { OnOk result (out.new.items ≡ out.old.items ++ text_bytes text.now) }
    ensures storable { IsText text.now }
{
    put_piece(out, text.as_str().as_bytes())
}

/// Appends an IRI to a stored form.
pub(crate) fn put_iri(out: &mut Vec<u8>, iri: &Iri) -> Mem<()>
    ensures form { OnOk result (out.new.items ≡ out.old.items ++ text_bytes iri.now) }
    ensures storable { IsIriText iri.now }
{
    put_piece(out, iri.as_str().as_bytes())
}

/// Appends a path to a stored form.
pub(crate) fn put_path(out: &mut Vec<u8>, path: &Path) -> Mem<()>
    ensures form { OnOk result (out.new.items ≡ out.old.items ++ text_bytes path.now) }
    ensures storable { IsPathText path.now }
{
    put_piece(out, path.as_str().as_bytes())
}

/// The sum of the sizes of two stored forms, at most 2^64 - 1.
pub(crate) fn plus(first: u64, second: u64) -> u64
    ensures { (m n : List ℕ) → first ≡ saturated (length m) → second ≡ saturated (length n)
        → result ≡ saturated (length (m ++ n)) }
{
    first.saturating_add(second)
}

/// The number as the size of a stored form.
#[tactic(auto, unfolding(rdf_graph::specs::Size::saturated))]
fn size_of(number: u64) -> u64
    ensures { result ≡ saturated number }
{
    number
}

/// The size of a byte in a stored form.
pub(crate) fn byte_size() -> u64
    ensures { result ≡ saturated 1 }
{
    size_of(1)
}

/// The size of a byte in a stored form and of what follows it, at most 2^64 - 1.
pub(crate) fn after_byte(rest: u64) -> u64
    ensures { (m : List ℕ) → rest ≡ saturated (length m) → result ≡ saturated (suc (length m)) }
{
    rest.saturating_add(1)
}

/// The size of a number in a stored form.
#[tactic(auto, unfolding(crate::specs::StoredForms::number_bytes))]
pub(crate) fn number_size() -> u64
    ensures { (number : ℕ) → result ≡ saturated (length (number_bytes number)) }
{
    size_of(8)
}

/// The size of bytes in a stored form, after their number.
#[tactic(auto, unfolding(crate::specs::StoredForms::text_bytes))]
pub(crate) fn piece_size(piece: &[u8]) -> u64
    ensures { result ≡ saturated (length (text_bytes piece.now)) }
{
    plus(number_size(), bytes_size(piece))
}

/// The size of bytes in a stored form, as they are.
#[tactic(auto, unfolding(rdf_graph::specs::Size::saturated))]
fn bytes_size(piece: &[u8]) -> u64
    ensures { result ≡ saturated (length piece.now) }
{
    piece.len() as u64
}
