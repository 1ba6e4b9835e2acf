//! [`fits`]: whether an entry applies to a state.
ghost use Rattle.std.specs.Prelude.{◌≡◌, IfOk, IsTrue, List, Some};
ghost use Rattle.pod_records.specs.Made.{HasMade, EditsFit};
ghost use Rattle.pod_command.specs.declared.edit.Edit.{Edit};
ghost use Rattle.pod_rows.specs.Apply.{Applies, after_edits, with_rows_if};
ghost use Rattle.pod_rows.specs.WellFormed.{WellFormed};

use crate::edited_rows::{Made, all_made};
use crate::lone_change::fits_alone;
use crate::row_checks::{are_fine, has_room};
use crate::row_replacement::{may_replace, replacement};
use pod_base::Mem;
use pod_command::Entry;
use pod_edits::lacks_number;
use pod_rows::PodState;
use std::alloc::Global;

/// Whether the pod is well-formed after the edits of an entry, which made this of its rows.
fn stays_well_formed<S: PodState>(alloc: Global, state: &S, made: &[Made]) -> Mem<bool>
    ensures sound { IfOk result (λ r. IsTrue r → (edits : List Edit)
        → HasMade (S.pod state.now).rows edits made.now → WellFormed (with_rows_if
        (S.pod state.now) (after_edits (Some (S.pod state.now).rows) edits))) }
    ensures complete { IfOk result (λ r. (edits : List Edit)
        → HasMade (S.pod state.now).rows edits made.now → WellFormed (with_rows_if
        (S.pod state.now) (after_edits (Some (S.pod state.now).rows) edits)) → IsTrue r) }
{
    state.is_well_formed();
    if !has_room(state, made) {
        return Ok(false);
    }
    are_fine(alloc, state, made)
}

/// Whether the edits of the entry can be carried out one after another, and the pod is well-formed
/// after them.
fn edits_made_fit<S: PodState>(alloc: Global, state: &S, entry: &Entry) -> Mem<bool>
    ensures sound { IfOk result (λ r. IsTrue r
        → EditsFit (S.pod state.now) entry.now.edits.items) }
    ensures complete { IfOk result (λ r.
        EditsFit (S.pod state.now) entry.now.edits.items → IsTrue r) }
{
    match all_made(alloc, state, entry.edits.as_slice())? {
        Some(made) => stays_well_formed(alloc, state, made.as_slice()),
        None => Ok(false),
    }
}

/// Whether the edits of the entry can be carried out, and the pod is well-formed after them.
fn edits_fit<S: PodState>(alloc: Global, state: &S, entry: &Entry) -> Mem<bool>
    ensures sound { IfOk result (λ r. IsTrue r
        → EditsFit (S.pod state.now) entry.now.edits.items) }
    ensures complete { IfOk result (λ r.
        EditsFit (S.pod state.now) entry.now.edits.items → IsTrue r) }
{
    state.is_well_formed();
    match fits_alone(state, entry.edits.as_slice()) {
        Some(fits) => Ok(fits),
        None => edits_made_fit(alloc, state, entry),
    }
}

/// Whether an entry applies to a state, by the rows that its edits touch: it has the next number,
/// its edits can be carried out, and the pod is well-formed after them.
///
/// It takes time and memory by the edits and by the rows at their paths, and by the children of the
/// containers that they remove. A `Put` alone of a row in place of another takes no memory, nor does
/// a change alone of the graph of a document.
pub fn fits<S: PodState>(alloc: Global, state: &S, entry: &Entry) -> Mem<bool>
    ensures sound { IfOk result (λ r. IsTrue r
        → Applies (S.pod state.now) (S.next_number state.now) entry.now) }
    ensures complete { IfOk result (λ r.
        Applies (S.pod state.now) (S.next_number state.now) entry.now → IsTrue r) }
{
    let next = state.next();
    if entry.seq != next {
        return Ok(false);
    }
    if lacks_number(state) {
        return Ok(false);
    }
    state.is_well_formed();
    match replacement(state, entry.edits.as_slice()) {
        Some(row) => Ok(may_replace(state, row)),
        None => edits_fit(alloc, state, entry),
    }
}
