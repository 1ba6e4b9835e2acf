//! What edits make of the rows of a state, path by path: the state itself is only read.
ghost use Rattle.std.specs.Prelude.{◌≡◌, IfOk, IfSome, Some, option_copied};
ghost use Rattle.pod_records.specs.Made.{HasMade, found_in, latest, made_by, path_of};
ghost use Rattle.pod_records.specs.Made.{made_by_change, made_by_touch, made_by_removal};
ghost use Rattle.pod_rows.specs.Apply.{after_edits};

use pod_base::{Mem, Moment};
use pod_command::{Edit, Row};
use pod_path::Path;
use pod_rows::{PodState, changed_row, with_moment};
use rdf_graph::Change;
use std::alloc::Global;

/// What an edit makes of a path: the row there after it, and whether there was one before.
#[derive(Drop)]
pub(crate) struct Made {
    pub(crate) path: Path,
    pub(crate) row: Option<Row>,
    pub(crate) was: bool,
}

/// What the edits made last of the edited row at a path. The last one is the first of the list.
fn latest<'a>(made: &'a [Made], path: &Path) -> Option<&'a Made>
    ensures { option_copied result ≡ latest made.entry.now path.now }
{
    made.iter().find(|one| one.path.as_str() == path.as_str())
}

/// The edited row at a path: the one that edits made there, or that of the state.
pub(crate) fn find<'a, S: PodState>(state: &'a S, made: &'a [Made], path: &Path) -> Option<&'a Row>
    ensures { option_copied result
        ≡ found_in (S.pod state.entry.now).rows made.entry.now path.now }
{
    match latest(made, path) {
        Some(one) => one.row.as_ref(),
        None => state.find(path),
    }
}

/// The path of the row that is edited by an edit.
fn path_of(edit: &Edit) -> &Path
    ensures { result.now ≡ path_of edit.now }
{
    match edit {
        Edit::Put(row) => &row.path,
        Edit::Change {
            path,
            change: _,
            modified: _,
        } => path,
        Edit::Touch { path, modified: _ } => path,
        Edit::Remove { path } => path,
    }
}

/// The edited row that a change of its graph makes at a path.
fn made_by_change(
    alloc: Global,
    row: Option<&Row>,
    path: &Path,
    change: &Change,
    modified: Moment,
) -> Mem<Option<Made>>
    ensures { IfOk result (λ made. made
        ≡ made_by_change path.now change.now modified (option_copied row.entry)) }
{
    let Some(row) = row else {
        return Ok(None);
    };
    match changed_row(alloc, row, change, modified)? {
        Some(new) => {
            let path = path.copy(alloc)?;
            Ok(Some(Made {
                path,
                row: Some(new),
                was: true,
            }))
        }
        None => Ok(None),
    }
}

/// The edited row that a touch makes at a path.
fn made_by_touch(
    alloc: Global,
    row: Option<&Row>,
    path: &Path,
    modified: Moment,
) -> Mem<Option<Made>>
    ensures { IfOk result (λ made. made
        ≡ made_by_touch path.now modified (option_copied row.entry)) }
{
    let Some(row) = row else {
        return Ok(None);
    };
    let new = with_moment(alloc, row, modified)?;
    let path = path.copy(alloc)?;
    Ok(Some(Made {
        path,
        row: Some(new),
        was: true,
    }))
}

/// What a removal makes of the edited row at a path.
fn made_by_removal(alloc: Global, row: Option<&Row>, path: &Path) -> Mem<Option<Made>>
    ensures { IfOk result (λ made. made
        ≡ made_by_removal path.now (option_copied row.entry)) }
{
    if row.is_none() {
        return Ok(None);
    }
    let path = path.copy(alloc)?;
    Ok(Some(Made {
        path,
        row: None,
        was: true,
    }))
}

/// The edited row that a put makes at its path.
fn made_by_put(alloc: Global, was: bool, row: &Row) -> Mem<Made>
    ensures { IfOk result (λ made. made
        ≡ record { path = row.now.path; row = Some row.now; was = was }) }
{
    let path = row.path.copy(alloc)?;
    let row = row.copy(alloc)?;
    Ok(Made {
        path,
        row: Some(row),
        was,
    })
}

/// The edited row that an edit makes at its path, where this row is at it. None where it can't be
/// carried out.
fn made_by(alloc: Global, row: Option<&Row>, edit: &Edit) -> Mem<Option<Made>>
    ensures { IfOk result (λ made. made ≡ made_by edit.now (option_copied row.entry)) }
{
    match edit {
        Edit::Put(new) => {
            let made = made_by_put(alloc, row.is_some(), new)?;
            Ok(Some(made))
        }
        Edit::Change {
            path,
            change,
            modified,
        } => made_by_change(alloc, row, path, change, *modified),
        Edit::Touch { path, modified } => made_by_touch(alloc, row, path, *modified),
        Edit::Remove { path } => made_by_removal(alloc, row, path),
    }
}

/// The edited row that the next edit makes, after those that made these.
fn made_next<S: PodState>(alloc: Global, state: &S, made: &[Made], edit: &Edit) -> Mem<Option<Made>>
    ensures { IfOk result (λ next. next ≡ made_by edit.now
        (found_in (S.pod state.now).rows made.now (path_of edit.now))) }
{
    made_by(alloc, find(state, made, path_of(edit)), edit)
}

/// The edited rows that edits make, the last one first. None where one of them can't be carried
/// out.
pub(crate) fn all_made<S: PodState>(
    alloc: Global,
    state: &S,
    edits: &[Edit],
) -> Mem<Option<Vec<Made>>>
    ensures some { IfOk result (λ all. IfSome all
        (λ made. HasMade (S.pod state.now).rows edits.now made.items)) }
    ensures none { IfOk result (λ all. all ≡ None
        → after_edits (Some (S.pod state.now).rows) edits.now ≡ None) }
{
    state.is_well_formed();
    let mut all = Vec::new(alloc);
    for edit in edits {
        match made_next(alloc, state, all.as_slice(), edit)? {
            Some(next) => all.insert(0, next)?,
            None => return Ok(None),
        }
    }
    Ok(Some(all))
}
