//! Cases of needs and of the field `WAC-Allow`.

use crate::words::mode_word;
use case_words::{method_of, path_or_root, shown_whole};
use pod_access::{Shape, needs, wac_allow};
use pod_base::Mem;
use std::alloc::Global;

/// The shape of a request: its method, its path, whether that is a row, the nearest container above
/// it, and the letters of its parts.
fn shape_of(alloc: Global, words: [&str; 5]) -> Mem<Shape> {
    let [method, path, exists, above, parts] = words;
    let parts = parts.as_bytes();
    Ok(Shape {
        method: method_of(method),
        path: path_or_root(alloc, path)?,
        exists: exists == "row",
        above: path_or_root(alloc, above)?,
        conditions: parts.contains(&b'c'),
        deletions: parts.contains(&b'd'),
        insertions: parts.contains(&b'i'),
        tags: parts.contains(&b't'),
    })
}

fn needs_text(alloc: Global, shape: &Shape) -> Mem<String> {
    let needs = needs(alloc, shape)?;
    let mut text = String::new(alloc);
    for need in needs.as_slice() {
        if !text.is_empty() {
            text.push_str(", ")?;
        }
        write!(text, "{} {}", mode_word(need.mode), need.path.as_str())?;
    }
    if text.is_empty() {
        text.push_str("none")?;
    }
    Ok(text)
}

/// What a request needs.
pub(crate) fn needs_of(alloc: Global, words: [&str; 5]) -> Mem<String> {
    let shape = shape_of(alloc, words)?;
    needs_text(alloc, &shape)
}

/// Which of read, write, append and control a field of `1` and `0` grants.
fn flags(field: &str) -> [bool; 4] {
    match field.as_bytes() {
        [a, b, c, d] => [*a == b'1', *b == b'1', *c == b'1', *d == b'1'],
        _ => [false; 4],
    }
}

/// The text of `WAC-Allow`.
pub(crate) fn allow(alloc: Global, user: &str, public: &str) -> Mem<String> {
    let text = wac_allow(alloc, flags(user), flags(public))?;
    Ok(shown_whole(alloc, text.as_slice())?)
}
