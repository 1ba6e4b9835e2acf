//! A dialogue: an input that returns its second request only after the answer to the first one was
//! written to the output. The reader and the writer share the bytes that were written.

use crate::pipe::{FRESH, serve_input};
use crate::responses::push_responses;
use crate::runs::status_over;
use case_words::bytes;
use pod_base::Mem;
use pod_io::{StdSink, StdSource};
use std::alloc::Global;
use std::cell::RefCell;
use std::io;
use std::io::{ErrorKind, Read, Write};

/// The reader of a dialogue. It returns the first request, and then the second one. A read of the
/// second request fails where fewer bytes were written than the first answer has.
#[derive(Drop)]
struct Speaker<'d> {
    first: &'d [u8],
    second: &'d [u8],
    answer_len: usize,
    written: &'d RefCell<Vec<u8>>,
}

impl Speaker<'_> {
    /// Whether at least as many bytes were written as the first answer has.
    fn is_answered(&self) -> bool {
        match self.written.try_borrow() {
            Ok(written) => written.len() >= self.answer_len,
            Err(_in_use) => false,
        }
    }
}

impl Read for Speaker<'_> {
    fn read(&mut self, buf: &mut [u8]) -> io::Result<usize> {
        if !self.first.is_empty() {
            self.first.read(buf)
        } else if self.is_answered() {
            self.second.read(buf)
        } else {
            Err(io::Error::from(ErrorKind::WouldBlock))
        }
    }
}

/// The writer of a dialogue. It appends what it is given to the bytes that were written.
#[derive(Drop)]
struct Listener<'d> {
    written: &'d RefCell<Vec<u8>>,
}

impl Write for Listener<'_> {
    fn write(&mut self, buf: &[u8]) -> io::Result<usize> {
        match self.written.try_borrow_mut() {
            Ok(mut written) => written.write(buf),
            Err(_in_use) => Err(io::Error::from(ErrorKind::Other)),
        }
    }

    fn flush(&mut self) -> io::Result<()> {
        Ok(())
    }
}

/// The status of a dialogue. What the run writes is appended to `written`.
fn run(
    alloc: Global,
    first: &[u8],
    second: &[u8],
    answer_len: usize,
    written: &RefCell<Vec<u8>>,
) -> Mem<u8> {
    let mut input = StdSource::new(Speaker {
        first,
        second,
        answer_len,
        written,
    });
    let mut output = StdSink::new(Listener { written });
    status_over(alloc, FRESH, &mut input, &mut output)
}

/// The status and the responses of a dialogue of two requests.
pub(crate) fn outcome(alloc: Global, first: &str, second: &str) -> Mem<String> {
    let first = bytes(alloc, first)?;
    let second = bytes(alloc, second)?;
    let answer_len = serve_input(alloc, &first, 100_000)?.output.len();
    let written = RefCell::new(Vec::new(alloc));
    let status = run(alloc, &first, &second, answer_len, &written)?;
    let mut text = format!(in alloc; "{status}")?;
    push_responses(alloc, &mut text, &written.into_inner())?;
    Ok(text)
}
