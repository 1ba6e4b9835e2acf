//! A store whose first disk is cut at each length.

use crate::ranges::Ranges;
use crate::runs::{WHOLE, serve};
use crate::stores::{Store, checked};
use case_words::bytes;
use pod_base::Mem;
use std::alloc::Global;

/// What a store is opened as, and what is read of it.
pub(crate) fn opened(alloc: Global, store: &Store, look: &[u8]) -> Mem<String> {
    let checked = checked(alloc, store)?;
    let looked = serve(alloc, store, look, WHOLE)?.text(alloc)?;
    Ok(format!(in alloc; "{checked} {looked}")?)
}

/// The outcomes of the store after an input, with its first disk cut at each length past 0.
pub(crate) fn outcomes(alloc: Global, name: &str, input: &str, look: &str) -> Mem<String> {
    let look = bytes(alloc, look)?;
    let made = Store::named(alloc, name)?;
    let store = serve(alloc, &made, &bytes(alloc, input)?, WHOLE)?.store;
    let mut ranges = Ranges::new(alloc);
    for len in 1..store.first.len() + 1 {
        let outcome = opened(alloc, &store.cut(alloc, len)?, &look)?;
        ranges.note(alloc, len as u64, outcome)?;
    }
    ranges.finish(alloc)
}
