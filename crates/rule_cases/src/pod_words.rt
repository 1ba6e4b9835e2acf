//! The pods of cases.
//!
//! The head of a pod is its base, its owner and the number of its next change, with a space
//! between. A head that begins with `-` has the base `http://127.0.0.1:8080/` and the owner
//! `https://alice.example/#me`.
//!
//! Rows have `|` between them, as [`crate::row_words`] reads them. In place of a row, `new` is the
//! two first rows of a new pod, and `many` and a number so many documents of bytes below the root.

use crate::row_words::{BASE, row_of};
use acl_rules::How;
use case_words::{first_word, iri_or_bad, number_of, text};
use pod_base::{List, Mem, NoMemory, Text};
use pod_command::{Row, Snapshot};
use pod_rows::{PlainRows, StateFault};
use std::alloc::Global;

/// The owner of pods whose head names no other.
const OWNER: &str = "https://alice.example/#me";

/// Adds this many documents of bytes.
fn push_documents(alloc: Global, rows: &mut Vec<Row>, count: u64) -> Mem<()> {
    for index in 0..count.min(99_999) {
        let text = format!(in alloc; "/{index:05} bytes 0 type:text/plain x")?;
        rows.push(row_of(alloc, text.as_str())?)?;
    }
    Ok(())
}

/// Adds a row, or the rows that a word stands for.
fn push_rows(alloc: Global, rows: &mut Vec<Row>, text: &str) -> Mem<()> {
    if text == "new" {
        rows.push(row_of(alloc, "/ container 0 ")?)?;
        rows.push(row_of(alloc, "/.acl acl 0 guard")?)?;
        return Ok(());
    }
    match text.strip_prefix("many ") {
        Some(count) => push_documents(alloc, rows, number_of(count)),
        None => {
            rows.push(row_of(alloc, text)?)?;
            Ok(())
        }
    }
}

fn rows_of(alloc: Global, field: &str) -> Mem<List<Row>> {
    let mut rows = Vec::new(alloc);
    for text in field.split('|') {
        push_rows(alloc, &mut rows, text)?;
    }
    Ok(List::from_vec(rows))
}

/// The snapshot of the pod with a head and rows.
pub(crate) fn snapshot_of(alloc: Global, head: &str, rows: &str) -> Mem<Snapshot> {
    let (base, rest) = first_word(head);
    let (owner, seq) = match base {
        "-" => (OWNER, rest),
        _ => first_word(rest),
    };
    let base = text(alloc, if base == "-" { BASE } else { base })?;
    Ok(Snapshot {
        seq: number_of(seq),
        base: iri_or_bad(alloc, base.as_str())?,
        owner: Text::of(alloc, owner)?,
        rows: rows_of(alloc, rows)?,
    })
}

/// The state of the pod with a head and rows, unless it isn't well-formed.
pub(crate) fn state_of(alloc: Global, head: &str, rows: &str) -> Mem<Option<PlainRows>> {
    let snapshot = snapshot_of(alloc, head, rows)?;
    match PlainRows::of(alloc, &snapshot) {
        Ok(state) => Ok(Some(state)),
        Err(StateFault::NotWellFormed) => Ok(None),
        Err(StateFault::NoMemory) => Err(NoMemory),
    }
}

/// The word of how an access list governs a path.
pub(crate) fn how_word(how: How) -> &'static str {
    match how {
        How::Own => "own",
        How::Inherited => "inherited",
    }
}
