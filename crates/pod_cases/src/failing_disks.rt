//! A connection over a disk of which each call fails in turn.

use crate::cut_stores::opened;
use crate::ranges::Ranges;
use crate::runs::{Run, Streams, WHOLE, serve};
use crate::stores::Store;
use case_words::bytes;
use pod_base::Mem;
use std::alloc::Global;

/// The most calls of a disk that are tried.
const CALLS_LIMIT: u64 = 1_000;

/// How a run ended, the calls of the disk, what it left, and what is read of that.
fn outcome(alloc: Global, done: &Run, look: &[u8]) -> Mem<String> {
    let opened = opened(alloc, &done.store, look)?;
    let shown = done.text(alloc)?;
    Ok(format!(in alloc; "{shown} {} {opened}", done.calls.as_str())?)
}

/// The outcomes of an input with each call of a disk failing in turn, up to the first number that
/// no call has.
pub(crate) fn outcomes(
    alloc: Global,
    object: &str,
    name: &str,
    input: &str,
    look: &str,
) -> Mem<String> {
    let store = Store::named(alloc, name)?;
    let input = bytes(alloc, input)?;
    let look = bytes(alloc, look)?;
    let mut ranges = Ranges::new(alloc);
    for call in 1..CALLS_LIMIT {
        let streams = Streams {
            object,
            call,
            ..WHOLE
        };
        let done = serve(alloc, &store, &input, streams)?;
        ranges.note(alloc, call, outcome(alloc, &done, &look)?)?;
        if (done.calls.len() as u64) < call {
            return ranges.finish_open(alloc);
        }
    }
    ranges.finish(alloc)
}
