//! Cases of a pod's rows and their changes.
//!
//! | Fields after the pod | Result |
//! |---|---|
//! | `well-formed` | whether the pod is well-formed |
//! | `row`: PATH | the row at a path |
//! | `children`: PATH, `view`: PATH | the children and the view of a container |
//! | `effective`: PATH | the access list that governs a path, and the nodes of its rules |
//! | `member`: PATH GROUP AGENT | whether the document at a path names the agent as a member |
//! | `after`: NUMBER EDIT.., `twice`: NUMBER EDIT.. | the pod after an entry, and whether it applies again |
//! | `create`: ROW, `replace`: ROW, `patch`: EDIT, `delete`: PATH MOMENT, `remove`: PATH | the edits of a change, and the pod after them |
//! | `place`: PATH, `twin`: PATH, `subject`: PATH, `empty`: PATH, `room`: NUMBER | what is in the way of a change |
//! | `contains`: PATH GRAPH, `guard`: PATH GRAPH | the same of a graph at a path |

use crate::{changes, edit_lists, obstacles, pods};
use pod_base::Mem;
use pod_rows::PlainRows;
use std::alloc::Global;

/// What the libraries return for a call on a pod.
pub(crate) fn answer(alloc: Global, state: &PlainRows, call: &str, words: &[&str]) -> Mem<String> {
    match (call, words) {
        ("row", [path]) => pods::row(alloc, state, path),
        ("children", [path]) => pods::children(alloc, state, path),
        ("effective", [path]) => pods::effective(alloc, state, path),
        ("view", [path]) => pods::view(alloc, state, path),
        ("member", [doc, group, agent]) => pods::member(alloc, state, doc, group, agent),
        ("after", [seq, edits @ ..]) => changes::after(alloc, state, seq, edits),
        ("twice", [seq, edits @ ..]) => changes::twice(alloc, state, seq, edits),
        ("create", [row]) => edit_lists::create(alloc, state, row),
        ("replace", [row]) => edit_lists::replace(alloc, state, row),
        ("patch", [edit]) => edit_lists::patch(alloc, state, edit),
        ("delete", [path, moment]) => edit_lists::delete(alloc, state, path, moment),
        ("remove", [path]) => edit_lists::remove(alloc, state, path),
        ("place", [path]) => obstacles::place(alloc, state, path),
        ("twin", [path]) => obstacles::twin(alloc, state, path),
        ("subject", [path]) => obstacles::subject(alloc, state, path),
        ("empty", [path]) => obstacles::empty(alloc, state, path),
        ("room", [added]) => obstacles::room(alloc, state, added),
        ("contains", [path, graph]) => obstacles::contains(alloc, path, graph),
        ("guard", [path, graph]) => obstacles::guard(alloc, state, path, graph),
        _ => Ok(String::from_str(alloc, "no case")?),
    }
}
