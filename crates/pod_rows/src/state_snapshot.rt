//! [`snapshot`]: a state as a snapshot.
ghost use Rattle.std.specs.Prelude.{◌≡◌, IfOk};
ghost use Rattle.pod_rows.specs.WellFormed.{pod_of};

use crate::state_trait::PodState;
use pod_base::Mem;
use pod_command::Snapshot;
use rdf_graph::copy_iri;
use std::alloc::Global;

/// The snapshot of a pod's state.
pub fn snapshot<S: PodState>(alloc: Global, state: &S) -> Mem<Snapshot>
    ensures number { IfOk result (λ snapshot. snapshot.seq ≡ S.next_number state.now) }
    ensures pod { IfOk result (λ snapshot. pod_of snapshot ≡ S.pod state.now) }
{
    let base = copy_iri(alloc, state.base())?;
    let owner = state.owner().copy(alloc)?;
    let rows = state.rows(alloc)?;
    Ok(Snapshot {
        seq: state.next(),
        base,
        owner,
        rows,
    })
}
