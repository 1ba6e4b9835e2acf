//! Where heads end.

use case_words::bytes;
use http_head::{HeadEnd, HeadSearch, head_end};
use std::alloc::{AllocError, Global};

/// Where a search that scans the text byte by byte finds the head's end.
fn byte_by_byte(text: &[u8]) -> HeadEnd {
    let mut search = HeadSearch::new();
    let mut found = HeadEnd::NotYet;
    for i in 0..text.len() {
        found = search.scan(&text[..i + 1]);
    }
    found
}

/// Where the head ends: in the whole text, and scanned byte by byte.
pub(crate) fn answer(alloc: Global, field: &str) -> Result<String, AllocError> {
    let text = bytes(alloc, field)?;
    let whole = head_end(text.as_slice());
    let pieces = byte_by_byte(text.as_slice());
    format!(in alloc; "{whole:?} {pieces:?}")
}
