//! Edits and entries. An edit is `put` and a row, `remove` and a path, `touch`, a path and a moment,
//! or `change`, a path, a moment, the graph that is removed, `then` and the graph that is added.

use crate::row_words::{graph_of, row_of};
use case_words::{first_word, number_of, path_or_root};
use pod_base::{Agent, List, Mem, Method, Moment};
use pod_command::{Edit, Entry};
use rdf_graph::Change;
use std::alloc::Global;

/// The change of a graph at a path: its moment, the graph that is removed, `then`, and the graph
/// that is added.
fn change_of(alloc: Global, at: &str, text: &str) -> Mem<Edit> {
    let (moment, graphs) = first_word(text);
    let (removed, added) = graphs.split_once(" then ").unwrap_or((graphs, ""));
    let path = path_or_root(alloc, at)?;
    let removed = graph_of(alloc, removed)?;
    let added = graph_of(alloc, added)?;
    Ok(Edit::Change {
        path,
        change: Change { removed, added },
        modified: Moment(number_of(moment)),
    })
}

/// The edit of a text: a word and what it needs.
pub(crate) fn edit_of(alloc: Global, text: &str) -> Mem<Edit> {
    let (call, rest) = first_word(text);
    if call == "put" {
        return Ok(Edit::Put(row_of(alloc, rest)?));
    }
    let (at, rest) = first_word(rest);
    if call == "remove" {
        let path = path_or_root(alloc, at)?;
        return Ok(Edit::Remove { path });
    }
    if call == "touch" {
        let path = path_or_root(alloc, at)?;
        let modified = Moment(number_of(rest));
        return Ok(Edit::Touch { path, modified });
    }
    change_of(alloc, at, rest)
}

/// The entry of these edits with a number.
pub(crate) fn entry_of(alloc: Global, seq: u64, edits: List<Edit>) -> Mem<Entry> {
    Ok(Entry {
        seq,
        conn: 1,
        number: 1,
        agent: Agent::Public,
        moment: Moment(784_111_777),
        method: Method::Put,
        path: path_or_root(alloc, "/")?,
        edits,
        bases: List::new(alloc),
    })
}
