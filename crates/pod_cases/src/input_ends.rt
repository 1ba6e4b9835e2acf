//! An input that ends after each of its bytes.

use crate::runs::{Run, WHOLE, serve};
use crate::stores::{Store, checked};
use case_words::bytes;
use pod_base::Mem;
use std::alloc::Global;

/// Whether a run left the same as another one.
fn is_same(one: &Run, other: &Run) -> bool {
    one.output.as_slice() == other.output.as_slice()
        && one.store.first.as_slice() == other.store.first.as_slice()
        && one.store.second.as_slice() == other.store.second.as_slice()
}

/// Adds the end of a run, and its store.
fn push_end(alloc: Global, text: &mut String, at: usize, done: &Run) -> Mem<()> {
    let checked = checked(alloc, &done.store)?;
    let shown = done.text(alloc)?;
    if !text.is_empty() {
        text.push_str("; ")?;
    }
    text.push_str(format!(in alloc; "{at}: {shown} {checked}")?.as_str())?;
    Ok(())
}

/// The lengths at which an input ends between messages, each with the run. At each other length it
/// ends inside a message, and leaves what it left at the last such length.
pub(crate) fn outcomes(alloc: Global, name: &str, input: &str) -> Mem<String> {
    let store = Store::named(alloc, name)?;
    let input = bytes(alloc, input)?;
    let mut text = String::new(alloc);
    let mut last = serve(alloc, &store, b"", WHOLE)?;
    push_end(alloc, &mut text, 0, &last)?;
    let mut last_at: usize = 0;
    for at in 1..input.len() + 1 {
        let done = serve(alloc, &store, &input[..at], WHOLE)?;
        match done.cut_length() {
            Some(rest) if rest == at - last_at.min(at) && is_same(&done, &last) => {}
            Some(_rest) => return Ok(format!(in alloc; "cut wrongly at {at}")?),
            None => {
                push_end(alloc, &mut text, at, &done)?;
                last = done;
                last_at = at;
            }
        }
    }
    Ok(text)
}
