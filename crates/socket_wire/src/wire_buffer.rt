//! [`Pipe`]: the bytes in memory between a WebSocket and its link.

use std::alloc::Global;
use std::io::{self, ErrorKind, Read, Write};

/// The bytes that came from the link, and those that are to be sent to it.
#[derive(Drop)]
pub(crate) struct Pipe {
    came: Vec<u8>,
    to_send: Vec<u8>,
}

impl Pipe {
    /// A buffer of a wire, without bytes.
    pub(crate) fn new(alloc: Global) -> Pipe {
        Pipe {
            came: Vec::new(alloc),
            to_send: Vec::new(alloc),
        }
    }

    /// Appends bytes that came to the wire's buffer. Returns whether there was memory for them.
    pub(crate) fn receive(&mut self, bytes: &[u8]) -> bool {
        self.came.extend_from_slice(bytes).is_ok()
    }

    /// The bytes in the wire's buffer that are to be sent.
    pub(crate) fn to_send(&self) -> &[u8] {
        self.to_send.as_slice()
    }

    /// Drops the bytes of the wire's buffer that were to be sent.
    pub(crate) fn clear(&mut self) {
        self.to_send.clear();
    }
}

/// A read of an empty pipe fails with `WouldBlock`.
impl Read for Pipe {
    fn read(&mut self, into: &mut [u8]) -> io::Result<usize> {
        if self.came.is_empty() || into.is_empty() {
            return Err(io::Error::from(ErrorKind::WouldBlock));
        }
        let count = self.came.len().min(into.len());
        into[..count].copy_from_slice(&self.came[..count]);
        self.came.drain(..count);
        Ok(count)
    }
}

impl Write for Pipe {
    fn write(&mut self, bytes: &[u8]) -> io::Result<usize> {
        match self.to_send.extend_from_slice(bytes) {
            Ok(()) => Ok(bytes.len()),
            Err(_full) => Err(io::Error::from(ErrorKind::OutOfMemory)),
        }
    }

    fn flush(&mut self) -> io::Result<()> {
        Ok(())
    }
}
