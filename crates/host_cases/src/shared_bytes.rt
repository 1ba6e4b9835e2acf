//! Bytes that share a block, or have one of their own.

use pod_base::{Bytes, BytesBuilder, Mem};
use std::alloc::Global;

/// The bytes `hello, pod`, built of one piece.
fn built(alloc: Global) -> Mem<Bytes> {
    let mut builder = BytesBuilder::new(alloc);
    builder.reserve(alloc, 10)?;
    builder.append(alloc, b"hello, pod")?;
    builder.freeze(alloc)
}

/// A copy of the first five of these bytes, or of all of them where there are fewer.
fn first_five(alloc: Global, bytes: &Bytes) -> Mem<Bytes> {
    let end = bytes.len().min(5);
    bytes.slice(alloc, 0, end)?.copy(alloc)
}

/// Shows bytes that become a vector and bytes again.
fn show_vector(rt: &HostRuntime) -> anyhow::Result<()> {
    let alloc = rt.alloc();
    let vec = Bytes::of(alloc, b"hello")?.into_vec(alloc)?;
    match Bytes::from_vec(alloc, vec) {
        Ok(bytes) => {
            let held = bytes.as_slice().escape_ascii();
            println!(rt; "bytes: as a vector, and of it: {held}")?;
        }
        Err(_vec) => println!(rt; "bytes: as a vector, and of it: out of memory")?,
    }
    Ok(())
}

/// Shows that bytes are built, cut and appended to.
pub(crate) fn show_bytes(rt: &HostRuntime) -> anyhow::Result<()> {
    let alloc = rt.alloc();
    let bytes = built(alloc)?;
    let mut word = first_five(alloc, &bytes)?;
    word.append(alloc, b"!")?;
    let held = word.as_slice().escape_ascii();
    println!(rt; "bytes: the first 5 of hello, pod, with ! appended: {held}")?;
    println!(rt; "bytes: then the block still has {}", bytes.len())?;
    let equal = Bytes::from_static(b"hello, pod") == bytes.compact(alloc)?;
    println!(rt; "bytes: compacted, equal to hello, pod: {equal}")?;
    let empty = Bytes::new().is_empty();
    println!(rt; "bytes: new, empty: {empty}")?;
    show_vector(rt)
}
