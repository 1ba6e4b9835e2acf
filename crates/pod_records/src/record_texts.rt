//! Records to be written: those of entries and of snapshots.
ghost use Rattle.std.specs.Prelude.{◌≡◌, IfOk};
ghost use Rattle.pod_command.specs.Encodable.{IsEncodable};
ghost use Rattle.stored_forms.specs.Storable.{IsStorable};
ghost use Rattle.stored_forms.specs.StoredForms.{entry_bytes};
ghost use Rattle.pod_rows.specs.WellFormed.{IsWellFormedSnapshot, pod_of};
ghost use Rattle.pod_records.specs.Records.{IsSnapshotText};

use journal_log::{Framed, frame};
use pod_base::Mem;
use pod_command::{Entry, Snapshot};
use pod_rows::{PodState, snapshot};
use std::alloc::Global;
use stored_forms::{encode_entry, encode_snapshot};

/// The text of an entry's record in format 2.
pub fn entry_record(alloc: Global, entry: &Entry) -> Mem<Framed>
    requires { IsEncodable entry.now }
    ensures form { IfOk result (λ framed. framed ≡ entry_bytes entry.now) }
    ensures storable { IfOk result (λ _. IsStorable entry.now) }
{
    let bytes = encode_entry(alloc, entry)?;
    frame(alloc, bytes.as_slice())
}

/// The text of a well-formed snapshot's record.
pub fn record_of(alloc: Global, snapshot: &Snapshot) -> Mem<Framed>
    requires { IsWellFormedSnapshot snapshot.now }
    ensures { IfOk result
        (IsSnapshotText (pod_of snapshot.now) snapshot.now.seq) }
{
    let bytes = encode_snapshot(alloc, snapshot)?;
    frame(alloc, bytes.as_slice())
}

/// The text of the record of a state's snapshot.
pub fn snapshot_record<S: PodState>(alloc: Global, state: &S) -> Mem<Framed>
    ensures { IfOk result (IsSnapshotText (S.pod state.now) (S.next_number state.now)) }
{
    let snapshot = snapshot(alloc, state)?;
    let _next = state.next();
    state.is_well_formed();
    record_of(alloc, &snapshot)
}
