//! What the host's objects and the basic types do: lists, texts, bytes and requests; streams, clocks,
//! connections, gates and wires in memory; a connection over loopback; and files of the current
//! folder, which are removed again. Each line says what was done and what came of it. `stdout` has
//! the lines that are expected, worked out by hand from what the calls promise.
//!
//! An object in memory fails at the numbered call. Bytes are shown in ASCII, others than printable
//! characters as escapes.
#![tactic(auto)]

mod clocks;
mod files;
mod folders;
mod gates;
mod links;
mod lists;
mod locked_files;
mod moments;
mod outcomes;
mod requests;
mod ropes;
mod shared_bytes;
mod sockets;
mod streams;
mod texts;
mod wires;

/// Shows the basic types.
fn show_types(rt: &HostRuntime) -> anyhow::Result<()> {
    lists::show_list(rt)?;
    texts::show_text(rt)?;
    shared_bytes::show_bytes(rt)?;
    ropes::show_rope(rt)?;
    requests::show_request(rt)?;
    moments::show_moments(rt)
}

/// Shows the objects in memory, and those over readers and writers.
fn show_objects(rt: &HostRuntime) -> anyhow::Result<()> {
    streams::show_mem_source(rt)?;
    streams::show_mem_sink(rt)?;
    streams::show_std_streams(rt)?;
    clocks::show_clocks(rt)?;
    links::show_mem_link(rt)?;
    gates::show_gates(rt)?;
    wires::show_wire(rt)
}

/// Shows what stands on the host's sockets and files.
fn show_host(rt: &HostRuntime) -> anyhow::Result<()> {
    sockets::show_connection(rt)?;
    files::show_file(rt)?;
    locked_files::show_locked(rt)?;
    folders::show_folder(rt)
}

fn main(rt: HostRuntime) -> anyhow::Result<()> {
    show_types(&rt)?;
    show_objects(&rt)?;
    show_host(&rt)
}
