//! A link in memory.

use crate::outcomes::{bytes_taken, link_read};
use pod_base::Mem;
use pod_io::{Failed, Link, MemLink, MemSink, MemSource};
use std::alloc::{AllocError, Global};

/// A link over `bytes` that gives and takes three bytes at a time, whose second read is a quiet
/// time, and whose second write fails.
pub(crate) fn mem_link(alloc: Global, bytes: &[u8]) -> Mem<MemLink> {
    let source = MemSource::new(bytes.to_vec(alloc)?, 3, Vec::new(alloc));
    let sink = MemSink::new(alloc, 3, vec![in alloc; 2]?);
    Ok(MemLink::new(source, sink, vec![in alloc; 2]?))
}

/// What a write of `hi` to a link came to. It is never a quiet time.
pub(crate) fn link_write<L: Link>(alloc: Global, link: &mut L) -> Result<String, AllocError> {
    bytes_taken(alloc, link.write(b"hi").map_err(|_failed| Failed))
}

/// Shows what a link in memory gives, takes and has sent.
pub(crate) fn show_mem_link(rt: &HostRuntime) -> anyhow::Result<()> {
    let alloc = rt.alloc();
    let mut link = mem_link(alloc, b"hello")?;
    println!(rt; "link in memory: read: {}", link_read(alloc, &mut link)?)?;
    println!(rt; "link in memory: read: {}", link_read(alloc, &mut link)?)?;
    println!(rt; "link in memory: left: {}", link.rest().escape_ascii())?;
    println!(rt; "link in memory: read: {}", link_read(alloc, &mut link)?)?;
    println!(rt;
        "link in memory: write hi: {}",
        link_write(alloc, &mut link)?
    )?;
    println!(rt;
        "link in memory: write hi: {}",
        link_write(alloc, &mut link)?
    )?;
    println!(rt; "link in memory: sent: {}", link.sent().escape_ascii())?;
    Ok(())
}
