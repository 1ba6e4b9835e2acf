//! Sources and sinks, in memory and over readers and writers, some of which fail.

use crate::outcomes::{bytes_read, bytes_taken};
use pod_io::{MemSink, MemSource, Sink, Source, StdSink, StdSource};
use std::io;
use std::io::{ErrorKind, Read, Write};

/// A reader whose reads fail, and a writer that takes no byte.
#[derive(Drop)]
struct Broken;

impl Read for Broken {
    fn read(&mut self, _buf: &mut [u8]) -> io::Result<usize> {
        Err(io::Error::from(ErrorKind::Other))
    }
}

impl Write for Broken {
    fn write(&mut self, _buf: &[u8]) -> io::Result<usize> {
        Ok(0)
    }

    fn flush(&mut self) -> io::Result<()> {
        Ok(())
    }
}

/// Reads from a source to these four bytes, and shows what came of it.
fn show_read<S: Source>(
    rt: &HostRuntime,
    name: &str,
    source: &mut S,
    into: &mut [u8; 4],
) -> anyhow::Result<()> {
    let outcome = source.read(into.as_mut_slice());
    let came = bytes_read(rt.alloc(), outcome, into.as_slice())?;
    println!(rt; "{name}: read: {came}")?;
    Ok(())
}

/// Writes `hello` to a sink, or its end, and shows what came of it.
fn show_write<K: Sink>(
    rt: &HostRuntime,
    name: &str,
    sink: &mut K,
    whole: bool,
) -> anyhow::Result<()> {
    let piece = if whole { "hello" } else { "lo" };
    let taken = bytes_taken(rt.alloc(), sink.write(piece.as_bytes()))?;
    println!(rt; "{name}: write {piece}: {taken}")?;
    Ok(())
}

/// Shows a source in memory that gives three bytes at a time, and whose second read fails.
pub(crate) fn show_mem_source(rt: &HostRuntime) -> anyhow::Result<()> {
    let alloc = rt.alloc();
    let name = "source in memory";
    let mut source = MemSource::new(b"hello".to_vec(alloc)?, 3, vec![in alloc; 2]?);
    let mut into = [0u8; 4];
    show_read(rt, name, &mut source, &mut into)?;
    show_read(rt, name, &mut source, &mut into)?;
    let rest = source.rest().escape_ascii();
    println!(rt; "{name}: left: {rest}")?;
    show_read(rt, name, &mut source, &mut into)?;
    show_read(rt, name, &mut source, &mut into)
}

/// Shows a sink in memory that takes three bytes at a time, and whose second write fails.
pub(crate) fn show_mem_sink(rt: &HostRuntime) -> anyhow::Result<()> {
    let alloc = rt.alloc();
    let name = "sink in memory";
    let mut sink = MemSink::new(alloc, 3, vec![in alloc; 2]?);
    show_write(rt, name, &mut sink, true)?;
    show_write(rt, name, &mut sink, false)?;
    show_write(rt, name, &mut sink, false)?;
    let taken = sink.taken().escape_ascii();
    println!(rt; "{name}: taken: {taken}")?;
    Ok(())
}

/// Shows a source over a reader and a sink over a writer, and both over what is broken.
pub(crate) fn show_std_streams(rt: &HostRuntime) -> anyhow::Result<()> {
    let mut into = [0u8; 4];
    let mut source = StdSource::new(b"hi".as_slice());
    show_read(rt, "source over a reader", &mut source, &mut into)?;
    show_read(rt, "source over a reader", &mut source, &mut into)?;
    let mut broken = StdSource::new(Broken);
    show_read(rt, "source over a broken reader", &mut broken, &mut into)?;
    let mut sink = StdSink::new(Vec::<u8>::new(rt.alloc()));
    show_write(rt, "sink over a writer", &mut sink, false)?;
    let mut broken = StdSink::new(Broken);
    show_write(
        rt,
        "sink over a writer that takes no byte",
        &mut broken,
        false,
    )
}
