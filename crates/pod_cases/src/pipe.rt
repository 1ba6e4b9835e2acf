//! Connections served by `podctl pipe --fresh https://alice.example/#me`.

use crate::runs::{Run, Streams, WHOLE, run_with};
use crate::stores::Store;
use case_words::{bytes, shown, shown_whole};
use pod_base::Mem;
use std::alloc::Global;

/// The most bytes of output that are printed one by one.
const OUTPUT_LIMIT: usize = 4_000;

/// The words that serve one connection of a fresh pod.
pub(crate) const FRESH: &str = "pipe --fresh https://alice.example/#me";

/// A run over an input that is read and written in pieces of at most that size.
pub(crate) fn serve_input(alloc: Global, input: &[u8], size: usize) -> Mem<Run> {
    let streams = Streams {
        read: size,
        write: size,
        ..WHOLE
    };
    run_with(alloc, FRESH, &Store::empty(alloc), b"", input, streams)
}

/// Whether two runs left the same.
fn is_same(left: &Run, right: &Run) -> bool {
    left.status == right.status
        && left.output.as_slice() == right.output.as_slice()
        && left.errors.as_slice() == right.errors.as_slice()
}

/// Status, error sink and output of a run.
fn run_text(alloc: Global, run: &Run) -> Mem<String> {
    let output = if run.output.len() > OUTPUT_LIMIT {
        shown(alloc, &run.output)?
    } else {
        shown_whole(alloc, &run.output)?
    };
    let line = shown(alloc, &run.errors)?;
    Ok(format!(in alloc; "{} | {line} | {output}", run.status)?)
}

/// What a connection over an input leaves, the same in pieces of these sizes and of 100,000 bytes.
pub(crate) fn in_sizes(alloc: Global, field: &str, sizes: &[usize]) -> Mem<String> {
    let input = bytes(alloc, field)?;
    let whole = serve_input(alloc, &input, 100_000)?;
    for size in sizes {
        if !is_same(&whole, &serve_input(alloc, &input, *size)?) {
            return Ok(format!(in alloc; "differs in pieces of {size} bytes")?);
        }
    }
    run_text(alloc, &whole)
}

/// Ends the input after each of its bytes: where a message ended, with the bytes of the output
/// then. Everywhere else it ended inside a message, of which there were as many bytes as after the
/// last such place.
pub(crate) fn ended_anywhere(alloc: Global, field: &str) -> Mem<String> {
    let input = bytes(alloc, field)?;
    let mut text = String::from_str(alloc, "ends at")?;
    let mut last: usize = 0;
    for at in 0..input.len() {
        let run = serve_input(alloc, &input[..at], 7)?;
        match run.cut_length() {
            Some(rest) if rest == at - last.min(at) => {}
            Some(_rest) => return Ok(format!(in alloc; "cut wrongly at {at}")?),
            None => {
                last = at;
                let end = format!(in alloc; " {at} ({} bytes)", run.output.len())?;
                text.push_str(end.as_str())?;
            }
        }
    }
    Ok(text)
}
