//! A row in place of another: what a `Put` alone comes to where there is a row at its path.
ghost use Rattle.std.specs.Prelude.{◌≡◌, ◌&&◌, true, [], ◌∷◌, IfSome, option_copied};
ghost use Rattle.pod_records.specs.Touched.{is_right, keeps_guard};
ghost use Rattle.pod_command.specs.declared.edit.Edit.TheVariants.{Put};
ghost use Rattle.pod_rows.specs.Pod.{is_row};

use crate::row_checks::{is_right, keeps_guard};
use pod_command::{Edit, Row};
use pod_rows::PodState;

/// The row of an edit that is a `Put`, which may replace another.
fn row_of(edit: &Edit) -> Option<&Row>
    ensures { IfSome (option_copied result) (λ row. edit.entry.now ≡ Put row) }
{
    match edit {
        Edit::Put(row) => Some(row),
        _ => None,
    }
}

/// The row of edits that are one `Put` alone, which may replace another.
fn only_row(edits: &[Edit]) -> Option<&Row>
    ensures { IfSome (option_copied result) (λ row. edits.entry.now ≡ Put row ∷ []) }
{
    match edits {
        [edit] => row_of(edit),
        _ => None,
    }
}

/// The row that replaces another, where the edits are one `Put` of it in place of a row of the
/// state.
pub(crate) fn replacement<'a, S: PodState>(state: &S, edits: &'a [Edit]) -> Option<&'a Row>
    ensures only { IfSome (option_copied result) (λ row. edits.entry.now ≡ Put row ∷ []) }
    ensures there { IfSome (option_copied result)
        (λ row. is_row (S.pod state.now).rows row.path ≡ true) }
{
    let row = only_row(edits)?;
    if state.find(&row.path).is_some() {
        Some(row)
    } else {
        None
    }
}

/// Whether a row may replace the one at its path: it is right by itself, and keeps the guard.
pub(crate) fn may_replace<S: PodState>(state: &S, row: &Row) -> bool
    ensures { result ≡ (is_right row.now
        && keeps_guard (S.pod state.now) row.now.path row.now.content) }
{
    is_right(row) && keeps_guard(state, &row.path, &row.content)
}
