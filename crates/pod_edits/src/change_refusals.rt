//! The tests that refuse a change, one for each refusal.

ghost use Rattle.std.specs.Prelude.{◌≡◌, ◌++◌, IfOk, IfSome, IfNone, List, ℕ, option_copied};
ghost use Rattle.std.specs.Prelude.{true, false};
ghost use Rattle.pod_edits.specs.Places.{IsPlaceOf};
ghost use Rattle.pod_edits.specs.Refusals.{breaks_guard, exceeds_rows, has_children, is_bytes};
ghost use Rattle.pod_edits.specs.Refusals.{is_root_list, lacks_number, lacks_subject, meets_twin};
ghost use Rattle.pod_edits.specs.Refusals.{states_containment};
ghost use Rattle.pod_path.specs.Hierarchy.{is_container, subject_of, twin_of};
ghost use Rattle.pod_rows.specs.Pod.{is_row, is_row_of};

use crate::new_row_place::Place;
use pod_base::Mem;
use pod_command::Kind;
use pod_path::{Path, subject_text};
use pod_rows::{PodState, ROWS_LIMIT, guards, lacks_containment};
use rdf_graph::Triple;
use std::alloc::Global;

/// The text before `end`, where it ends in it, for the refusal by a container's twin.
fn strip_end<'a>(text: &'a str, end: &str) -> Option<&'a str>
    ensures some { IfSome (option_copied result) (λ prefix. text.entry.now ≡ prefix ++ end.now) }
    ensures none { IfNone (option_copied result) ((prefix : List ℕ)
        → text.entry.now ≡ prefix ++ end.now → ⊥) }
{
    text.strip_suffix(end)
}

/// Whether a change is refused since the twin of a container is a row. It takes no memory.
fn meets_container_twin<S: PodState>(state: &S, path: &Path) -> bool
    requires { is_container path.now ≡ true }
    ensures { result ≡ is_row_of (S.pod state.now).rows (twin_of path.now) }
{
    if path.is_root() {
        return false;
    }
    match strip_end(path.as_str(), "/") {
        Some(text) => state.taken_text(text),
        None => false,
    }
}

/// Whether a change is refused since the twin of its path is a row.
fn meets_own_twin<S: PodState>(alloc: Global, state: &S, path: &Path) -> Mem<bool>
    ensures { IfOk result (λ r. r ≡ is_row_of (S.pod state.now).rows (twin_of path.now)) }
{
    if path.is_container() {
        return Ok(meets_container_twin(state, path));
    }
    match path.twin(alloc)? {
        Some(twin) => Ok(state.taken(&twin)),
        None => Ok(false),
    }
}

/// Whether a change is refused since a twin conflicts with the new row: that of its path or of a
/// container above it. Of the containers it looks at the missing ones, since no twin of a row is a
/// row.
pub fn meets_twin<S: PodState>(alloc: Global, state: &S, path: &Path, place: &Place) -> Mem<bool>
    requires { IsPlaceOf (S.pod state.now).rows path.now place.now }
    ensures { IfOk result (λ r. r ≡ meets_twin (S.pod state.now).rows path.now) }
{
    state.is_well_formed();
    if meets_own_twin(alloc, state, path)? {
        return Ok(true);
    }
    for container in place.missing.as_slice() {
        if meets_own_twin(alloc, state, container)? {
            return Ok(true);
        }
    }
    Ok(false)
}

/// Whether a change is refused since its path is that of an access list or a description whose
/// subject is no row. It takes no memory.
#[tactic(auto, unfolding(crate::specs::Refusals::lacks_subject))]
pub fn lacks_subject<S: PodState>(state: &S, path: &Path) -> bool
    ensures { result ≡ lacks_subject (S.pod state.now).rows path.now }
{
    match subject_text(path.as_str()) {
        Some(subject) => !state.taken_text(subject),
        None => false,
    }
}

/// Whether a change is refused since its path has children.
#[tactic(auto, unfolding(crate::specs::Refusals::has_children))]
pub fn has_children<S: PodState>(alloc: Global, state: &S, path: &Path) -> Mem<bool>
    ensures { IfOk result (λ r. r ≡ has_children (S.pod state.now).rows path.now) }
{
    state.is_well_formed();
    if !path.is_container() {
        return Ok(false);
    }
    let found = state.has_children(alloc, path)?;
    Ok(found)
}

/// Whether rows of the kind hold bytes, so that a change of their graph is refused.
pub fn is_bytes(kind: Kind) -> bool
    ensures { result ≡ is_bytes kind }
{
    matches!(kind, Kind::Bytes)
}

/// Whether a change is refused since there would be more than [`ROWS_LIMIT`] rows with so many new
/// ones.
#[tactic(auto, unfolding(crate::specs::Refusals::exceeds_rows))]
pub fn exceeds_rows<S: PodState>(state: &S, added: usize) -> bool
    ensures { result ≡ exceeds_rows (S.pod state.now).rows added }
{
    state.is_well_formed();
    ROWS_LIMIT - state.count() < added
}

/// Whether a change is refused since there is no number for it: the next one is at least 2^63.
#[tactic(auto, unfolding(crate::specs::Refusals::lacks_number))]
pub fn lacks_number<S: PodState>(state: &S) -> bool
    ensures { result ≡ lacks_number (S.next_number state.now) }
{
    1 << 63 <= state.next()
}

/// Whether a change is refused since its path is a container's, and one of the triples has the
/// predicate `ldp:contains`.
#[tactic(auto, unfolding(crate::specs::Refusals::states_containment))]
pub fn states_containment(path: &Path, triples: &[Triple]) -> bool
    ensures { result ≡ states_containment path.now triples.now }
{
    path.is_container() && !lacks_containment(triples)
}

/// Whether the path is that of the root's access list, whose removal is refused.
pub fn is_root_list(path: &Path) -> bool
    ensures { result ≡ is_root_list path.now }
{
    path.as_str() == "/.acl"
}

/// Whether a change is refused since its path is that of the root's access list, and the triples
/// don't give the owner control of the root.
#[tactic(auto, unfolding(crate::specs::Refusals::breaks_guard))]
pub fn breaks_guard<S: PodState>(state: &S, path: &Path, triples: &[Triple]) -> bool
    ensures { result ≡ breaks_guard (S.pod state.now) path.now triples.now }
{
    is_root_list(path) && !guards(state.base().as_str(), state.owner().as_str(), triples)
}
