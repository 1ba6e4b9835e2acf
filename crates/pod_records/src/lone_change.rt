//! One change of a graph alone, as most patches are: whether the pod takes it, without making the
//! graph after it.
ghost use Rattle.std.specs.Prelude.{◌≡◌, [], ◌∷◌};
ghost use Rattle.pod_records.specs.LoneChanges.{takes_any_graph, has_removed, fits_row, fits_alone};
ghost use Rattle.pod_rows.specs.Pod.{row_at};

use pod_command::{Content, Edit, Kind, Row};
use pod_edits::is_root_list;
use pod_path::Path;
use pod_rows::PodState;
use rdf_graph::Change;

/// Whether a row keeps the pod well-formed whatever graph it holds: it is that of no container, and
/// not the root's access list.
fn takes_any_graph(row: &Row) -> bool
    ensures { result ≡ takes_any_graph row.now }
{
    !(matches!(row.kind, Kind::Container) || is_root_list(&row.path))
}

/// Whether the content of a row has every triple that a change removes.
fn has_removed(content: &Content, change: &Change) -> bool
    ensures { result ≡ has_removed change.now content.now }
{
    match content {
        Content::Graph(stored) => change.fits(stored.graph()),
        Content::Bytes { ctype: _, bytes: _ } => false,
    }
}

/// Whether a change fits the row at a path, where that row may hold any graph.
fn fits_row<S: PodState>(state: &S, path: &Path, change: &Change) -> Option<bool>
    ensures { result ≡ fits_row change.now (row_at (S.pod state.now).rows path.now) }
{
    let row = state.find(path)?;
    if takes_any_graph(row) {
        Some(has_removed(&row.content, change))
    } else {
        None
    }
}

/// Whether an edit that stands alone, and is a change, fits the state, where its row may hold any
/// graph.
fn edit_fits<S: PodState>(state: &S, edit: &Edit) -> Option<bool>
    ensures { result ≡ fits_alone (S.pod state.now).rows (edit.now ∷ []) }
{
    match edit {
        Edit::Change {
            path,
            change,
            modified: _,
        } => fits_row(state, path, change),
        _ => None,
    }
}

/// Whether edits that are one change alone fit the state, where its row may hold any graph. It
/// takes no memory.
pub(crate) fn fits_alone<S: PodState>(state: &S, edits: &[Edit]) -> Option<bool>
    ensures { result ≡ fits_alone (S.pod state.now).rows edits.now }
{
    match edits {
        [edit] => edit_fits(state, edit),
        _ => None,
    }
}
