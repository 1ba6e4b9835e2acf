//! A rope of pieces.

use pod_base::{Bytes, Mem, Rope};
use std::alloc::Global;

/// The rope `[1]hello[2]pod`, of which two pieces share a block.
fn rope(alloc: Global) -> Mem<Rope> {
    let body = Bytes::of(alloc, b"hello, pod")?;
    let mut rope = Rope::of(alloc, Bytes::from_static(b"[1]"));
    rope.push(alloc, body.slice(alloc, 0, 5)?)?;
    rope.push(alloc, Bytes::from_static(b"[2]"))?;
    rope.push(alloc, body.slice(alloc, 7, 10)?)?;
    Ok(rope)
}

/// Shows that a rope is copied piece by piece, also where it ends before the slice does.
pub(crate) fn show_rope(rt: &HostRuntime) -> anyhow::Result<()> {
    let alloc = rt.alloc();
    let rope = rope(alloc)?;
    println!(rt; "rope: of four pieces: {} bytes", rope.len())?;
    let mut into = [0u8; 8];
    for offset in [1, 9, 20] {
        let count = rope.copy_from(offset, &mut into);
        let held = into.escape_ascii();
        println!(rt; "rope: 8 bytes from {offset} on: {count}: {held}")?;
    }
    let flat = rope.to_bytes(alloc)?;
    let held = flat.as_slice().escape_ascii();
    println!(rt; "rope: in one block: {held}")?;
    Ok(())
}
