//! What an index finds, as a text.

use crate::pod_words::how_word;
use access_index::{AccessIndex, Resolved};
use pod_base::Mem;
use pod_path::Path;
use std::alloc::Global;

/// Whose list is in force, and how; `none` where nothing is found.
pub(crate) fn found_text(alloc: Global, found: Option<&Resolved>) -> Mem<String> {
    match found {
        Some(found) => Ok(format!(in alloc; "{} {}", found.at.as_str(), how_word(found.how))?),
        None => Ok(String::from_str(alloc, "none")?),
    }
}

/// What an index finds for paths, with a semicolon between.
pub(crate) fn index_text(alloc: Global, index: &AccessIndex, paths: &[Path]) -> Mem<String> {
    let mut text = String::new(alloc);
    for path in paths {
        if !text.is_empty() {
            text.push_str("; ")?;
        }
        let found = found_text(alloc, index.find(path))?;
        write!(text, "{}: {found}", path.as_str())?;
    }
    Ok(text)
}
