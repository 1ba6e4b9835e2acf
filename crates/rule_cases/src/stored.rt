//! Cases of entries and snapshots: their stored forms, and their lines in the audit trail.
//!
//! | Fields | Result |
//! |---|---|
//! | `snapshot` PIECE.., `entry` PIECE.., `entry-1` PIECE.. | the value of a stored form |
//! | `session-line` PLACE MOMENT AGENT METHOD TARGET STATUS | the line of an answered request |
//! | `entry-line` SEQ MOMENT AGENT METHOD PATH CONN NUMBER EDITS BASIS.. | the line of a change |
//!
//! [`forms`] says what a PIECE is and how a value is shown. EDITS is the number of edits. An agent is
//! an IRI, or `public`. A BASIS is the path of a list, `iri`, `blank`, `text` or `en` and the node of
//! the rule in that form, and `agent`, `everyone`, `authenticated` or the IRI of a group, with a
//! space between.

use crate::{forms, lines};
use pod_base::Mem;
use std::alloc::Global;

/// What the libraries return for a call and the other fields of a case.
pub(crate) fn answer(alloc: Global, call: &str, fields: &[&str]) -> Mem<String> {
    let text = match call {
        "snapshot" => forms::snapshot(alloc, fields)?,
        "entry" => forms::entry(alloc, fields)?,
        "entry-1" => forms::entry_1(alloc, fields)?,
        "session-line" => lines::session(alloc, fields)?,
        _ => lines::entry(alloc, fields)?,
    };
    Ok(text)
}
