//! [`fits`]: whether an entry applies to a state.
ghost use Rattle.std.specs.Prelude.{IfOk, IsTrue};
ghost use Rattle.pod_rows.specs.Apply.{Applies};

use crate::rows_after_edits::after_edits;
use crate::state_trait::PodState;
use crate::well_formed::is_well_formed;
use pod_base::Mem;
use pod_command::Entry;
use std::alloc::Global;

/// Whether the entry fits the state, so that it applies to it: it has the next number, its edits
/// can be carried out, and the pod is well-formed after them.
pub fn fits<S: PodState>(alloc: Global, state: &S, entry: &Entry) -> Mem<bool>
    ensures sound { IfOk result (λ r. IsTrue r
        → Applies (S.pod state.now) (S.next_number state.now) entry.now) }
    ensures complete { IfOk result (λ r.
        Applies (S.pod state.now) (S.next_number state.now) entry.now → IsTrue r) }
{
    let next = state.next();
    if entry.seq != next {
        return Ok(false);
    }
    if next >= 1 << 63 {
        return Ok(false);
    }
    let rows = state.rows(alloc)?;
    match after_edits(alloc, rows.as_slice(), entry.edits.as_slice())? {
        Some(new) => is_well_formed(alloc, state.base(), state.owner(), new.as_slice()),
        None => Ok(false),
    }
}
