//! The bytes of a journal, and the images that a crash may leave of it.
ghost use Rattle.std.specs.Prelude.{◌≡◌, ◌++◌, ◌∷◌, ℕ, List as Items, false, IsTrue, IfOk};
ghost use Rattle.std.specs.Prelude.{IfNone, IfSome};
ghost use Rattle.journal_log.specs.CleanJournal.{IsShort};
ghost use Rattle.journal_log.specs.Frames.{BeginsWithClosedGate, framed_of, sized};
ghost use Rattle.journal_log.specs.Gates.{IsClosed, IsOpening};
ghost use Rattle.journal_log.specs.Heads.{encoded_head};
ghost use Rattle.stored_forms.specs.Storable.{IsStorableSnapshot};
ghost use Rattle.stored_forms.specs.StoredForms.{snapshot_bytes};
ghost use Rattle.pod_rows.specs.WellFormed.{IsWellFormedSnapshot};
ghost use Rattle.request_history.specs.Images.{IsGatedRecord, IsRecord};

use pod_base::{Bytes, BytesBuilder, Mem};
use pod_command::Snapshot;
use std::alloc::Global;
use stored_forms::encode_snapshot;

/// The head of a world's journal, of format 2 with epoch 1.
fn head() -> &'static [u8]
    ensures { result.now ≡ encoded_head 2 1 }
{
    b"PODJRNL2\0\0\0\0\0\0\0\x01"
}

/// The journal of a world with an open gate and one record more.
pub(crate) fn with_record(alloc: Global, journal: &[u8], body: &[u8]) -> Mem<Bytes>
    ensures { IfOk result (λ longer. longer ≡ journal.now ++ (1 ∷ sized body.now)) }
{
    let mut longer = BytesBuilder::new(alloc);
    longer.append(alloc, journal)?;
    longer.append(alloc, &[1])?;
    longer.append(alloc, &(body.len() as u64).to_be_bytes())?;
    longer.append(alloc, body)?;
    let bytes = longer.freeze(alloc)?;
    Ok(bytes)
}

/// The journal of a world's first pod, which has no entries.
pub(crate) fn first_journal(alloc: Global, first: &Snapshot) -> Mem<Bytes>
    requires { IsWellFormedSnapshot first.now }
    ensures is { IfOk result (λ journal. journal
        ≡ encoded_head 2 1 ++ (1 ∷ sized (snapshot_bytes first.now))) }

    // So a journal can hold the pod.
    ensures storable { IfOk result (λ _. IsStorableSnapshot first.now) }
    ensures short { IfOk result (λ _. IsShort (snapshot_bytes first.now)) }
{
    let body = encode_snapshot(alloc, first)?;
    let _len = body.as_slice().len();
    let journal = with_record(alloc, head(), body.as_slice())?;
    Ok(journal)
}

/// What follows these first bytes in an image of the world's journal.
fn after<'a>(bytes: &'a [u8], first: &[u8]) -> Option<&'a [u8]>
    ensures some { IfSome result (λ rest. bytes.now ≡ first.now ++ rest.now) }
    ensures none { IfNone result ((rest : Items ℕ) → bytes.now ≡ first.now ++ rest → ⊥) }
{
    bytes.strip_prefix(first)
}

/// Whether the bytes in an image of the world's journal begin with a gate 0.
fn is_gate_closed(bytes: &[u8]) -> bool
    ensures yes { IsTrue result → BeginsWithClosedGate bytes.now }
    ensures no { result ≡ false → BeginsWithClosedGate bytes.now → ⊥ }
{
    match bytes.split_first() {
        Some((gate, _)) => *gate == 0,
        None => false,
    }
}

/// Whether a crash image is the world's journal, a gate 0, and any bytes.
pub(crate) fn is_closed(journal: &[u8], image: &[u8]) -> bool
    ensures yes { IsTrue result → IsClosed journal.now image.now }
    ensures no { result ≡ false → IsClosed journal.now image.now → ⊥ }
{
    match after(image, journal) {
        Some(rest) => is_gate_closed(rest),
        None => false,
    }
}

/// Whether the bytes in an image of the world's journal are the record, a gate 0, and any bytes.
fn is_record(body: &[u8], bytes: &[u8]) -> bool
    ensures yes { IsTrue result → IsRecord body.now bytes.now }
    ensures no { result ≡ false → IsRecord body.now bytes.now → ⊥ }
{
    match after(bytes, &(body.len() as u64).to_be_bytes()) {
        Some(rest) => is_closed(body, rest),
        None => false,
    }
}

/// Whether the bytes in an image of the world's journal are any gate, the record, a gate 0, and any
/// bytes.
fn is_gated_record(body: &[u8], bytes: &[u8]) -> bool
    ensures yes { IsTrue result → IsGatedRecord body.now bytes.now }
    ensures no { result ≡ false → IsGatedRecord body.now bytes.now → ⊥ }
{
    match bytes.split_first() {
        Some((_, rest)) => is_record(body, rest),
        None => false,
    }
}

/// Whether a crash image is the world's journal, any gate, this record, a gate 0, and any bytes.
pub(crate) fn is_opening(journal: &[u8], body: &[u8], image: &[u8]) -> bool
    ensures yes { IsTrue result → IsOpening journal.now (framed_of body.now) image.now }
    ensures no { result ≡ false → IsOpening journal.now (framed_of body.now) image.now → ⊥ }
{
    match after(image, journal) {
        Some(rest) => is_gated_record(body, rest),
        None => false,
    }
}
