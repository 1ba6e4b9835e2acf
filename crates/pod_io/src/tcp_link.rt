//! [`TcpLink`]: a connection over TCP.
ghost use Rattle.std.specs.Prelude.{◌≡◌, ◌<◌, ◌≤◌, None, length, IfOk, IfErr};

use crate::link::{Link, LinkCounts, LinkFailed};
use std::io::{self, ErrorKind, Read, Write};
use std::net::{Shutdown, TcpStream};
use std::time::Duration;

/// How long a read waits before it ends as a quiet time, in seconds.
const READ_WAIT: u64 = 1;

/// How long a write waits before it fails, in seconds.
const WRITE_WAIT: u64 = 30;

/// How often a call that a signal interrupts is made.
const TRY_LIMIT: usize = 16;

/// The most reads that drop what a peer still sends after the end of its connection.
const DROP_LIMIT: usize = 16;

/// The most bytes of each of these reads.
const DROP_SIZE: usize = 16384;

/// A connection over TCP. It doesn't show its bytes. A read waits for one second, a write for 30.
#[derive(Debug, Drop)]
pub struct TcpLink {
    stream: TcpStream,
    counts: LinkCounts,
}

impl TcpLink {
    /// The connection of that stream. It fails where the stream can't be given its waiting times.
    pub fn new(stream: TcpStream) -> io::Result<TcpLink>
        ensures reads { IfOk result (λ link. link.counts.reads ≡ 0) }
        ensures ends { IfOk result (λ link. link.counts.ends ≡ 0) }
        ensures read_faults { IfOk result (λ link. link.counts.read_faults ≡ 0) }
        ensures write_faults { IfOk result (λ link. link.counts.write_faults ≡ 0) }
        ensures quiet { IfOk result (λ link. link.counts.quiet ≡ 0) }
        ensures quiet_row { IfOk result (λ link. link.counts.quiet_row ≡ 0) }
    {
        stream.set_read_timeout(Some(Duration::from_secs(READ_WAIT)))?;
        stream.set_write_timeout(Some(Duration::from_secs(WRITE_WAIT)))?;

        // Without this a small response may wait for the peer's next packet. It is sent either way.
        let _ = stream.set_nodelay(true);
        Ok(TcpLink {
            stream,
            counts: LinkCounts::new(),
        })
    }

    /// Ends the connection, so that the peer can still read what was sent: a socket that is closed
    /// with unread bytes resets the connection. So the side that writes is shut, and what the peer
    /// still sends is dropped until its end, for at most 16 reads or one quiet time.
    pub fn close(self) {
        if self.stream.shutdown(Shutdown::Write).is_ok() {
            drop_rest(&self.stream);
        }
    }
}

/// Reads what still comes on a TCP stream, and drops it.
fn drop_rest(stream: &TcpStream) {
    let mut dropped = [0u8; DROP_SIZE];
    for _ in 0..DROP_LIMIT {
        match read_stream(stream, &mut dropped) {
            Ok(count) if count > 0 => {}
            _ => return,
        }
    }
}

/// Reads bytes of a TCP stream.
fn read_stream(stream: &TcpStream, into: &mut [u8]) -> Result<usize, LinkFailed>
    ensures { IfOk result (λ count. count ≤ length into.old) }
{
    let mut reader = stream;
    for _ in 0..TRY_LIMIT {
        match reader.read(into) {
            Ok(count) => return Ok(count),
            Err(error) => match error.kind() {
                ErrorKind::Interrupted => {}
                ErrorKind::WouldBlock | ErrorKind::TimedOut => return Err(LinkFailed::Quiet),
                _ => return Err(LinkFailed::Failed),
            },
        }
    }
    Err(LinkFailed::Failed)
}

/// Writes bytes to a TCP stream. A write that takes no byte has failed.
fn write_stream(stream: &TcpStream, piece: &[u8]) -> Result<usize, LinkFailed>
    ensures some { IfOk result (λ count. 0 < count) }
    ensures len { IfOk result (λ count. count ≤ length piece.now) }
    ensures never_quiet { IfErr result (λ failed. failed ≡ LinkFailed.Failed) }
{
    let mut writer = stream;
    for _ in 0..TRY_LIMIT {
        match writer.write(piece) {
            Ok(count) if count > 0 => return Ok(count),
            Err(error) if error.kind() == ErrorKind::Interrupted => {}
            _ => return Err(LinkFailed::Failed),
        }
    }
    Err(LinkFailed::Failed)
}

impl Link for TcpLink {
    ghost rest = { λ _. None };

    ghost sent = { λ _. None };

    ghost counts = { λ l. l.counts };

    fn read(&mut self, into: &mut [u8]) -> Result<usize, LinkFailed> {
        let outcome = read_stream(&self.stream, into);
        self.counts.count_read(outcome);
        outcome
    }

    fn write(&mut self, piece: &[u8]) -> Result<usize, LinkFailed> {
        let outcome = write_stream(&self.stream, piece);
        self.counts.count_write(outcome);
        outcome
    }
}
