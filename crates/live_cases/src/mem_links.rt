//! Connections in memory.

use case_words::bytes;
use pod_base::Mem;
use pod_io::{MemLink, MemSink, MemSource};
use std::alloc::Global;

/// A request for the root.
pub(crate) const GET: &str = "GET / HTTP/1.1\\r\\nHost: 127.0.0.1:8080\\r\\n\\r\\n";

/// The numbers of a field, which are separated by spaces. `A-B` are those from A to B.
pub(crate) fn numbers(alloc: Global, field: &str) -> Mem<Vec<u64>> {
    let mut numbers = Vec::new(alloc);
    for word in field.split(' ') {
        let (first, last) = word.split_once('-').unwrap_or((word, word));
        for number in first.parse::<u64>().unwrap_or(1)..last
            .parse::<u64>()
            .unwrap_or(0)
            .saturating_add(1)
        {
            numbers.push(number)?;
        }
    }
    Ok(numbers)
}

/// A connection of that text.
pub(crate) fn link(
    alloc: Global,
    text: &str,
    piece: &str,
    quiet: &str,
    reads: &str,
    writes: &str,
) -> Mem<MemLink> {
    let piece = piece.parse::<usize>().unwrap_or(1).max(1);
    let quiet = numbers(alloc, quiet)?;
    let reads = numbers(alloc, reads)?;
    let writes = numbers(alloc, writes)?;
    let source = MemSource::new(bytes(alloc, text)?, piece, reads);
    let sink = MemSink::new(alloc, piece, writes);
    Ok(MemLink::new(source, sink, quiet))
}
