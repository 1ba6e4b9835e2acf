//! Connections of one store, one after the other.

use crate::runs::{WHOLE, serve};
use crate::stores::{Store, checked};
use case_words::bytes;
use pod_base::Mem;
use std::alloc::Global;

/// The run of each input, and the store then.
pub(crate) fn outcomes(alloc: Global, name: &str, inputs: &[&str]) -> Mem<String> {
    let mut store = Store::named(alloc, name)?;
    let mut text = String::new(alloc);
    for input in inputs {
        let done = serve(alloc, &store, &bytes(alloc, input)?, WHOLE)?;
        text.push_str(done.text(alloc)?.as_str())?;
        text.push_str("; ")?;
        store = done.store;
    }
    text.push_str(checked(alloc, &store)?.as_str())?;
    Ok(text)
}
