//! How rows and lists are shown.

use crate::row_words::kind_word;
use case_words::shown_whole;
use pod_base::Mem;
use pod_command::{Content, Row};
use pod_path::Path;
use std::alloc::Global;
use turtle_text::write;

/// `yes` or `no`.
pub(crate) fn yes_or_no(alloc: Global, holds: bool) -> Mem<String> {
    Ok(String::from_str(alloc, if holds { "yes" } else { "no" })?)
}

/// A content: the text of its graph, or its media type and its bytes.
fn content_text(alloc: Global, content: &Content) -> Mem<String> {
    match content {
        Content::Graph(stored) => {
            let text = write(alloc, stored.graph())?;
            Ok(shown_whole(alloc, text.as_slice())?)
        }
        Content::Bytes { ctype, bytes } => {
            let shown = shown_whole(alloc, bytes.as_slice())?;
            Ok(format!(in alloc; "{} {shown}", ctype.as_str())?)
        }
    }
}

/// A row as its path, its kind, its moment and its content.
pub(crate) fn row_text(alloc: Global, row: &Row) -> Mem<String> {
    let kind = kind_word(row.kind);
    let content = content_text(alloc, &row.content)?;
    let moment = row.modified.0;
    Ok(format!(in alloc; "{} {kind} {moment} {content}", row.path.as_str())?)
}

/// Rows with `|` between them. An access list is shown without its content.
pub(crate) fn rows_text(alloc: Global, rows: &[Row]) -> Mem<String> {
    let mut text = String::new(alloc);
    for row in rows {
        if !text.is_empty() {
            text.push('|')?;
        }
        if row.path.is_acl() {
            text.push_str(row.path.as_str())?;
        } else {
            let shown = row_text(alloc, row)?;
            text.push_str(shown.as_str())?;
        }
    }
    Ok(text)
}

/// Paths with a space between them, or `none`.
pub(crate) fn paths_text(alloc: Global, paths: &[Path]) -> Mem<String> {
    let mut text = String::new(alloc);
    for path in paths {
        if !text.is_empty() {
            text.push(' ')?;
        }
        text.push_str(path.as_str())?;
    }
    if text.is_empty() {
        text.push_str("none")?;
    }
    Ok(text)
}
