//! The outside as the pod server sees it: where bytes come from, where they go to, where the
//! connections of a server come from, and what the time is.
//!
//! ```text
//! let mut source = MemSource::new(bytes, 3, Vec::new(alloc));
//! let count = source.read(&mut into)?;        // at most 3 bytes; 0 exactly at the end
//! source.rest();                              // those that are left
//!
//! let mut gates = TcpListen::new(host).open(alloc, 8080, 2)?;     // one for each of two workers
//! let found = gate.next()?;                   // a connection, where there is another one
//! gate.done(link);                            // it goes back
//! ```
//!
//! | Trait | In memory | Of the host |
//! |---|---|---|
//! | [`Source`]: bytes that come | [`MemSource`] | [`StdSource`] |
//! | [`Sink`]: bytes that go | [`MemSink`] | [`StdSink`] |
//! | [`Link`]: one connection, both at once | [`MemLink`] | [`TcpLink`] |
//! | [`Gate`]: the connections of one worker | [`MemGate`] | [`TcpGate`] |
//! | [`Listen`]: the gates of all workers | [`MemListen`] | [`TcpListen`] |
//! | [`Wire`]: texts to a peer | [`MemWire`] | in `socket_wire` |
//! | [`Clock`]: the time | [`SetClock`] | [`HostClock`] |
//!
//! Each trait counts its faults, and a source its reads. A call fails only where the count of
//! faults increased, and no count falls (`faults`, `reads`, `counts`). Contracts see the content of
//! objects in memory (`rest`, `taken`, `sent`, `back`). What an object of the host takes or gives
//! is what its writer takes or its reader gives, as far as that shows it (`written`, `given`). A
//! terminal, a pipe and a socket show nothing, and are trusted.
//!
//! ```text
//! write_all(&mut output, b"end: peer\n")?;
//! write_number_line(&mut errors, b"damaged first ", 16)?;     // damaged first 16
//! let held = HeldStreams::open(&rt)?;         // before any other file, and kept until the end
//! let mut tokens = FileSource::new(rt.clone()?, Text::of(alloc, "pod.tokens")?);
//! ```
//!
//! After [`write_all`], [`write_number`] and [`write_number_line`] a sink has the whole text, or a
//! prefix of it after a fault (`writes`). [`FileSource`] opens its file at the first read, of which
//! a missing file is a fault like any other; [`HeldStreams`] keep the descriptors of the standard
//! streams taken.
#![tactic(auto)]

mod clock;
mod failing_calls;
mod file_source;
mod gate;
mod held_streams;
mod link;
mod listen;
mod mem_gate;
mod mem_link;
mod mem_listen;
mod mem_sink;
mod mem_source;
mod mem_wire;
mod number_writing;
mod sink;
mod source;
mod std_sink;
mod std_source;
mod tcp_gate;
mod tcp_link;
mod tcp_listen;
mod text_writing;
mod wire;

pub use clock::{Clock, HostClock, SetClock};
pub use failing_calls::Calls;
pub use file_source::FileSource;
pub use gate::Gate;
pub use held_streams::HeldStreams;
pub use link::{Link, LinkCounts, LinkFailed};
pub use listen::{GATE_LIMIT, Listen, ListenFault};
pub use mem_gate::MemGate;
pub use mem_link::MemLink;
pub use mem_listen::MemListen;
pub use mem_sink::MemSink;
pub use mem_source::MemSource;
pub use mem_wire::MemWire;
pub use number_writing::{write_number, write_number_line};
pub use sink::Sink;
pub use source::{Failed, Source};
pub use std_sink::StdSink;
pub use std_source::StdSource;
pub use tcp_gate::TcpGate;
pub use tcp_link::TcpLink;
pub use tcp_listen::TcpListen;
pub use text_writing::write_all;
pub use wire::{Polled, Wire, WireFault};
