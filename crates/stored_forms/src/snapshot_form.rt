//! The stored forms of snapshots.
ghost use Rattle.std.specs.Prelude.{◌≡◌, ◌++◌, ◌∷◌, [], length, IfOk, IsErrOf, OnOk};
ghost use Rattle.rdf_graph.specs.Size.{saturated};
ghost use Rattle.pod_command.specs.Bare.{bare_snapshot};
ghost use Rattle.pod_command.specs.Encodable.{IsEncodableSnapshot, path_cmp};
ghost use Rattle.stored_forms.specs.Readers.{Gives};
ghost use Rattle.stored_forms.specs.Reading.{is_below_next, is_rising, rows_at};
ghost use Rattle.stored_forms.specs.Reading.{snapshot_at, snapshot_in};
ghost use Rattle.stored_forms.specs.Storable.{IsStorableSnapshot};
ghost use Rattle.stored_forms.specs.StoredForms.{snapshot_bytes};
ghost use Rattle.pod_command.specs.declared.snapshot.Snapshot.{Snapshot};
ghost use Rattle.stored_forms.specs.declared.read_back.ReadBack.TheVariants.{NotCanonical};

use crate::list_form::{list_of, list_size, put_list};
use crate::primitive_reading::{byte_of, iri_of, number_of, text_of};
use crate::primitive_writing::{
    after_byte, number_size, piece_size, plus, put_byte, put_iri, put_number, put_text,
};
use crate::read_back::ReadBack;
use pod_base::{Bytes, List, Mem, NoMemory};
use pod_command::{Row, Snapshot};
use std::alloc::Global;

/// The stored form of a snapshot, which both formats share.
pub fn encode_snapshot(alloc: Global, s: &Snapshot) -> Mem<Bytes>
    requires { IsEncodableSnapshot s.now }
    ensures form { IfOk result (λ bytes. bytes ≡ snapshot_bytes s.now) }

    // So `decode_snapshot` doesn't refuse it.
    ensures storable { IfOk result (λ _. IsStorableSnapshot s.now) }
{
    let mut out = Vec::with_capacity(alloc, snapshot_size(s) as usize)?;
    put_snapshot(&mut out, s)?;
    match Bytes::from_vec(alloc, out) {
        Ok(bytes) => Ok(bytes),
        Err(_bytes) => Err(NoMemory),
    }
}

/// The snapshot whose stored form the bytes are.
///
/// # Errors
///
/// `NotCanonical` exactly where they are the form of no snapshot.
pub fn decode_snapshot(alloc: Global, bytes: &[u8]) -> Result<Snapshot, ReadBack>
    ensures form { IfOk result (λ s. bytes.now ≡ snapshot_bytes s) }
    ensures storable { IfOk result (λ s. IsStorableSnapshot s) }
    ensures encodable { IfOk result (λ s. IsEncodableSnapshot s) }

    // It is the only one, and its list has no spare room.
    ensures only { IfOk result (λ found. (s : Snapshot) → IsStorableSnapshot s
        → bytes.now ≡ snapshot_bytes s → found ≡ bare_snapshot s) }
    ensures refused { IsErrOf result NotCanonical → (s : Snapshot) → IsStorableSnapshot s
        → bytes.now ≡ snapshot_bytes s → ⊥ }
{
    snapshot_in(alloc, bytes)
}

/// Appends the stored form of a snapshot.
#[tactic(auto, unfolding(crate::specs::StoredForms::snapshot_bytes))]
fn put_snapshot(out: &mut Vec<u8>, s: &Snapshot) -> Mem<()>
    requires { IsEncodableSnapshot s.now }
    ensures form { OnOk result (out.new.items ≡ out.old.items ++ snapshot_bytes s.now) }
    ensures storable { OnOk result (IsStorableSnapshot s.now) }
{
    put_byte(out, 0)?;
    put_number(out, s.seq)?;
    put_iri(out, &s.base)?;
    put_text(out, &s.owner)?;
    put_list(out, s.rows.as_slice())
}

/// The size of a snapshot's stored form, at most 2^64 - 1.
#[tactic(auto, unfolding(crate::specs::StoredForms::snapshot_bytes))]
fn snapshot_size(s: &Snapshot) -> u64
    ensures { result ≡ saturated (length (snapshot_bytes s.now)) }
{
    let owner = piece_size(s.owner.as_str().as_bytes());
    let rest = plus(owner, list_size(s.rows.as_slice()));
    let rest = plus(piece_size(s.base.as_str().as_bytes()), rest);
    let rest = plus(number_size(), rest);
    after_byte(rest)
}

/// Reads the snapshot whose stored form all of the bytes are.
#[tactic(auto, unfolding(crate::specs::Reading::snapshot_in))]
fn snapshot_in(alloc: Global, bytes: &[u8]) -> Result<Snapshot, ReadBack>
    ensures { Gives (λ s. s) result (snapshot_in bytes.now) }
{
    let (format, rest) = byte_of(bytes)?;
    if format != 0 {
        return Err(ReadBack::NotCanonical);
    }
    let (snapshot, rest) = snapshot_of(alloc, rest)?;
    if !rest.is_empty() {
        return Err(ReadBack::NotCanonical);
    }
    Ok(snapshot)
}

/// Reads a snapshot from its stored form after the first byte.
#[tactic(auto, unfolding(crate::specs::Reading::snapshot_at))]
fn snapshot_of(alloc: Global, bytes: &[u8]) -> Result<(Snapshot, &[u8]), ReadBack>
    ensures { Gives (λ x. (x.0, x.1.now)) result (snapshot_at bytes.now) }
{
    let (seq, rest) = number_of(bytes)?;
    let (base, rest) = iri_of(alloc, rest)?;
    let (owner, rest) = text_of(alloc, rest)?;
    let (rows, rest) = rows_of(alloc, rest)?;
    let snapshot = Snapshot {
        seq,
        base,
        owner,
        rows: List::from_vec(rows),
    };
    Ok((snapshot, rest))
}

/// Reads a snapshot's rows from their stored form, in strict order of their paths.
#[tactic(auto, unfolding(crate::specs::Reading::rows_at))]
fn rows_of(alloc: Global, bytes: &[u8]) -> Result<(Vec<Row>, &[u8]), ReadBack>
    ensures { Gives (λ x. (x.0.items, x.1.now)) result (rows_at bytes.now) }
{
    let (rows, rest) = list_of(alloc, bytes)?;
    if !are_rising(rows.as_slice()) {
        return Err(ReadBack::NotCanonical);
    }
    Ok((rows, rest))
}

/// Whether the path of each row that was read from a snapshot's stored form is less than that of
/// the next.
fn are_rising(rows: &[Row]) -> bool
    ensures { result ≡ is_rising path_cmp rows.now }
{
    let mut rest = rows;
    while let Some((first, more)) = rest.split_first() {
        if !is_below_next(first, more) {
            return false;
        }
        rest = more;
    }
    true
}

/// Whether the path of a row that was read from a snapshot's stored form is less than that of the
/// first of the others, if there is one.
fn is_below_next(row: &Row, others: &[Row]) -> bool
    ensures { result ≡ is_below_next path_cmp row.now others.now }
{
    match others.first() {
        Some(next) => row.path.cmp(&next.path).is_lt(),
        None => true,
    }
}
