//! Whether the rows at the paths of edits, and those that need them, are as a well-formed pod has
//! them.
ghost use Rattle.std.specs.Prelude.{◌≡◌, ◌&&◌, IfOk, filter, length};
ghost use Rattle.std.specs.List.{list_all};
ghost use Rattle.pod_records.specs.Made.{found_in, is_added, is_gone};
ghost use Rattle.pod_records.specs.Touched.{is_there, is_there_of, has_parent, lacks_twin};
ghost use Rattle.pod_records.specs.Touched.{has_subject, is_placed, none_there, lacks_children};
ghost use Rattle.pod_records.specs.Touched.{lacks_auxiliaries, is_free, is_kept, is_right};
ghost use Rattle.pod_records.specs.Touched.{keeps_guard, is_row_fine, is_fine, has_room};
ghost use Rattle.pod_edits.specs.Refusals.{is_root_list};
ghost use Rattle.pod_rows.specs.WellFormed.{guards_content};

use crate::edited_rows::{Made, find};
use pod_base::Mem;
use pod_command::{Content, Row};
use pod_edits::is_root_list;
use pod_path::Path;
use pod_rows::{
    PodState, ROWS_LIMIT, guards, has_normal_path, has_right_kind, lacks_stored_containment,
};
use std::alloc::Global;

/// Checks whether edits leave a row at a path.
fn is_there<S: PodState>(state: &S, made: &[Made], path: &Path) -> bool
    ensures { result ≡ is_there (found_in (S.pod state.now).rows made.now) path.now }
{
    find(state, made, path).is_some()
}

/// Checks whether there is a path, and edits leave a row at it.
fn is_there_of<S: PodState>(state: &S, made: &[Made], path: &Option<Path>) -> bool
    ensures { result ≡ is_there_of (found_in (S.pod state.now).rows made.now) path.now }
{
    match path {
        Some(path) => is_there(state, made, path),
        None => false,
    }
}

/// Checks whether a path is the root, or edits leave a row at its parent.
fn has_parent<S: PodState>(alloc: Global, state: &S, made: &[Made], path: &Path) -> Mem<bool>
    ensures { IfOk result (λ r. r
        ≡ has_parent (found_in (S.pod state.now).rows made.now) path.now) }
{
    if path.is_root() {
        return Ok(true);
    }
    let parent = path.parent(alloc)?;
    Ok(is_there_of(state, made, &parent))
}

/// Checks whether edits leave no row at a path's twin.
fn lacks_twin<S: PodState>(alloc: Global, state: &S, made: &[Made], path: &Path) -> Mem<bool>
    ensures { IfOk result (λ r. r
        ≡ lacks_twin (found_in (S.pod state.now).rows made.now) path.now) }
{
    let twin = path.twin(alloc)?;
    Ok(!is_there_of(state, made, &twin))
}

/// Checks whether a path is that of no access list and no description, or edits leave a row at its
/// subject.
fn has_subject<S: PodState>(alloc: Global, state: &S, made: &[Made], path: &Path) -> Mem<bool>
    ensures { IfOk result (λ r. r
        ≡ has_subject (found_in (S.pod state.now).rows made.now) path.now) }
{
    match path.subject(alloc)? {
        Some(subject) => Ok(is_there(state, made, &subject)),
        None => Ok(true),
    }
}

/// Checks whether edits leave the rows that a row at the path needs, and no twin.
#[tactic(auto, unfolding(crate::specs::Touched::is_placed))]
fn is_placed<S: PodState>(alloc: Global, state: &S, made: &[Made], path: &Path) -> Mem<bool>
    ensures { IfOk result (λ r. r
        ≡ is_placed (found_in (S.pod state.now).rows made.now) path.now) }
{
    Ok(
        has_parent(alloc, state, made, path)?
            && lacks_twin(alloc, state, made, path)?
            && has_subject(alloc, state, made, path)?,
    )
}

/// Checks whether edits leave a row at none of these paths.
fn none_there<S: PodState>(state: &S, made: &[Made], paths: &[Path]) -> bool
    ensures { result ≡ none_there (found_in (S.pod state.now).rows made.now) paths.now }
{
    paths.iter().all(|path| !is_there(state, made, path))
}

/// Checks whether edits leave no child that a container had.
#[tactic(auto, unfolding(crate::specs::Touched::lacks_children))]
fn lacks_children<S: PodState>(alloc: Global, state: &S, made: &[Made], path: &Path) -> Mem<bool>
    ensures { IfOk result (λ r. r ≡ lacks_children (S.pod state.now).rows
        (found_in (S.pod state.now).rows made.now) path.now) }
{
    state.is_well_formed();
    if !path.is_container() {
        return Ok(true);
    }
    let children = state.children(alloc, path)?;
    Ok(none_there(state, made, children.as_slice()))
}

/// Checks whether edits leave neither an access list nor a description of a path.
#[tactic(auto, unfolding(crate::specs::Touched::lacks_auxiliaries))]
fn lacks_auxiliaries<S: PodState>(alloc: Global, state: &S, made: &[Made], path: &Path) -> Mem<bool>
    ensures { IfOk result (λ r. r ≡ lacks_auxiliaries
        (found_in (S.pod state.now).rows made.now) path.now) }
{
    let acl = path.acl(alloc)?;
    if is_there_of(state, made, &acl) {
        return Ok(false);
    }
    let meta = path.meta(alloc)?;
    Ok(!is_there_of(state, made, &meta))
}

/// Checks whether a path is that of a row which edits must leave: the root, or its access list.
fn is_kept(path: &Path) -> bool
    ensures { result ≡ is_kept path.now }
{
    path.is_root() || is_root_list(path)
}

/// Checks whether edits may leave no row at a path: every pod can be without it, and no existing
/// row needs it.
#[tactic(auto, unfolding(crate::specs::Touched::is_free))]
fn is_free<S: PodState>(alloc: Global, state: &S, made: &[Made], path: &Path) -> Mem<bool>
    ensures { IfOk result (λ r. r ≡ is_free (S.pod state.now).rows
        (found_in (S.pod state.now).rows made.now) path.now) }
{
    if is_kept(path) {
        return Ok(false);
    }
    Ok(lacks_children(alloc, state, made, path)? && lacks_auxiliaries(alloc, state, made, path)?)
}

/// Checks whether the content of a row gives the owner control of the root, as the root's access
/// list.
fn guards_content<S: PodState>(state: &S, content: &Content) -> bool
    ensures { result ≡ guards_content (S.pod state.now) content.now }
{
    match content {
        Content::Graph(stored) => guards(
            state.base().as_str(),
            state.owner().as_str(),
            stored.graph().as_slice(),
        ),
        Content::Bytes { ctype: _, bytes: _ } => false,
    }
}

/// Checks whether a row's path is not that of the root's access list, or its content passes the
/// guard.
#[tactic(auto, unfolding(crate::specs::Touched::keeps_guard))]
pub(crate) fn keeps_guard<S: PodState>(state: &S, path: &Path, content: &Content) -> bool
    ensures { result ≡ keeps_guard (S.pod state.now) path.now content.now }
{
    !is_root_list(path) || guards_content(state, content)
}

/// Checks whether a row has a normal path, a kind of its path and a content of its kind.
#[tactic(auto, unfolding(crate::specs::Touched::is_right))]
pub(crate) fn is_right(row: &Row) -> bool
    ensures { result ≡ is_right row.now }
{
    has_normal_path(row) && has_right_kind(row) && lacks_stored_containment(row)
}

/// Checks whether a row that edits leave at a path is as a well-formed pod has it.
fn is_row_fine<S: PodState>(
    alloc: Global,
    state: &S,
    made: &[Made],
    path: &Path,
    row: &Row,
) -> Mem<bool>
    ensures { IfOk result (λ r. r ≡ is_row_fine (S.pod state.now)
        (found_in (S.pod state.now).rows made.now) path.now row.now) }
{
    if !is_right(row) {
        return Ok(false);
    }
    if !keeps_guard(state, path, &row.content) {
        return Ok(false);
    }
    is_placed(alloc, state, made, path)
}

/// Checks whether what edits leave at a path is as a well-formed pod has it.
#[tactic(auto, unfolding(crate::specs::Touched::is_fine))]
fn is_fine<S: PodState>(alloc: Global, state: &S, made: &[Made], path: &Path) -> Mem<bool>
    ensures { IfOk result (λ r. r ≡ is_fine (S.pod state.now)
        (found_in (S.pod state.now).rows made.now) path.now) }
{
    match find(state, made, path) {
        Some(row) => is_row_fine(alloc, state, made, path, row),
        None => is_free(alloc, state, made, path),
    }
}

/// Checks whether what edits leave at each of their paths is as a well-formed pod has it.
pub(crate) fn are_fine<S: PodState>(alloc: Global, state: &S, made: &[Made]) -> Mem<bool>
    ensures { IfOk result (λ r. r ≡ list_all (λ one. is_fine (S.pod state.now)
        (found_in (S.pod state.now).rows made.now) one.path) made.now) }
{
    for one in made {
        if !is_fine(alloc, state, made, &one.path)? {
            return Ok(false);
        }
    }
    Ok(true)
}

/// How many times edits made a row, for the check of the number of rows.
fn count_added(made: &[Made]) -> usize
    ensures { result ≡ length (filter is_added made.now) }
{
    made.iter().filter(|one| one.row.is_some()).count()
}

/// How many times edits made something of a row that was there, for the check of the number of
/// rows.
fn count_gone(made: &[Made]) -> usize
    ensures { result ≡ length (filter is_gone made.now) }
{
    made.iter().filter(|one| one.was).count()
}

/// Checks whether edits leave at most [`ROWS_LIMIT`] rows.
pub(crate) fn has_room<S: PodState>(state: &S, made: &[Made]) -> bool
    ensures { result ≡ has_room (S.pod state.now).rows made.now }
{
    state.is_well_formed();
    let room = ROWS_LIMIT - state.count();
    count_added(made).saturating_sub(count_gone(made)) <= room
}
