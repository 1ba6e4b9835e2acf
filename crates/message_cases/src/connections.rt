//! The messages of connections: the events of a text and the rest after it, however it is cut.

use case_words::{bytes, shown};
use http_conn::{Conn, one_request};
use pod_base::Heard;
use std::alloc::{AllocError, Global};

/// The most bytes of a text that is cut at each position.
const CUT_LIMIT: usize = 1_000;

/// An event in one word: a request as its method and its body's length, `i` for an interim, and the
/// status of a refusal.
fn word_of(alloc: Global, event: &Heard) -> Result<String, AllocError> {
    match event {
        Heard::Request(request) => {
            format!(in alloc; "{:?}{}", request.method, request.body.as_slice().len())
        }
        Heard::Interim => String::from_str(alloc, "i"),
        Heard::Bad(status) => format!(in alloc; "{status}"),
    }
}

/// Words, of which equal ones in a row are counted.
#[derive(Drop)]
struct Words {
    text: String,
    last: String,
    count: u64,
}

impl Words {
    fn new(alloc: Global) -> Words {
        Words {
            text: String::new(alloc),
            last: String::new(alloc),
            count: 0,
        }
    }

    /// Writes the last word and its count.
    fn flush(&mut self, alloc: Global) -> Result<(), AllocError> {
        if self.count > 1 {
            let times = format!(in alloc; "{}*{} ", self.last.as_str(), self.count)?;
            self.text.push_str(times.as_str())?;
        } else if self.count == 1 {
            self.text.push_str(self.last.as_str())?;
            self.text.push_str(" ")?;
        }
        self.count = 0;
        Ok(())
    }

    fn add(&mut self, alloc: Global, word: String) -> Result<(), AllocError> {
        if self.count > 0 && self.last.as_str() != word.as_str() {
            self.flush(alloc)?;
        }
        self.last = word;
        self.count = self.count.saturating_add(1);
        Ok(())
    }
}

/// Feeds a piece, and adds the words of its events.
fn feed(alloc: Global, conn: &mut Conn, piece: &[u8], words: &mut Words) -> Result<(), AllocError> {
    let Ok(events) = conn.feed(alloc, piece) else {
        return Err(AllocError);
    };
    for event in events.as_slice() {
        let word = word_of(alloc, event)?;
        words.add(alloc, word)?;
    }
    Ok(())
}

/// The words of all events, and the rest after them.
fn finish(alloc: Global, conn: &Conn, mut words: Words) -> Result<String, AllocError> {
    words.flush(alloc)?;
    format!(in alloc; "{}| {}", words.text.as_str(), conn.rest())
}

/// The events of a text in pieces of that size, and the rest.
fn in_pieces(alloc: Global, text: &[u8], size: usize) -> Result<String, AllocError> {
    let mut conn = Conn::new(alloc);
    let mut words = Words::new(alloc);
    for piece in text.chunks(size.max(1)) {
        feed(alloc, &mut conn, piece, &mut words)?;
    }
    finish(alloc, &conn, words)
}

/// The events of a text that is cut once. The second piece is fed to a copy.
fn cut_at(alloc: Global, text: &[u8], at: usize) -> Result<String, AllocError> {
    let (first, second) = text.split_at(at.min(text.len()));
    let mut conn = Conn::new(alloc);
    let mut words = Words::new(alloc);
    feed(alloc, &mut conn, first, &mut words)?;
    let Ok(mut copy) = conn.copy(alloc) else {
        return Err(AllocError);
    };
    feed(alloc, &mut copy, second, &mut words)?;
    finish(alloc, &copy, words)
}

/// Where the events differ from those of the whole text, if they do.
fn difference(alloc: Global, text: &[u8], whole: &str) -> Result<Option<String>, AllocError> {
    for size in [1, 2, 3, 7, 20] {
        let answer = in_pieces(alloc, text, size)?;
        if answer.as_str() != whole {
            let told = format!(in alloc; "in pieces of {size}: {}", answer.as_str())?;
            return Ok(Some(told));
        }
    }
    if text.len() > CUT_LIMIT {
        return Ok(None);
    }
    for at in 0..text.len() {
        let answer = cut_at(alloc, text, at)?;
        if answer.as_str() != whole {
            let told = format!(in alloc; "cut at {at}: {}", answer.as_str())?;
            return Ok(Some(told));
        }
    }
    Ok(None)
}

/// The events of a text and the rest after it: whole, in pieces of several sizes, and cut at each
/// position where it is short.
pub(crate) fn events(alloc: Global, field: &str) -> Result<String, AllocError> {
    let text = bytes(alloc, field)?;
    let whole = in_pieces(alloc, text.as_slice(), text.len())?;
    match difference(alloc, text.as_slice(), whole.as_str())? {
        Some(told) => Ok(told),
        None => Ok(whole),
    }
}

/// The rest after each byte. Rests that rise by one are written as a range.
pub(crate) fn rests(alloc: Global, field: &str) -> Result<String, AllocError> {
    let text = bytes(alloc, field)?;
    let mut conn = Conn::new(alloc);
    let mut answer = String::new(alloc);
    let mut first: usize = 0;
    let mut last: usize = 0;
    for byte in text.as_slice() {
        if conn.feed(alloc, &[*byte]).is_err() {
            return Err(AllocError);
        }
        let rest = conn.rest();
        if rest == 0 || rest != last.saturating_add(1) {
            push_range(alloc, &mut answer, first, last)?;
            first = rest;
        }
        last = rest;
    }
    push_range(alloc, &mut answer, first, last)?;
    Ok(answer)
}

/// Writes a range of rests.
fn push_range(
    alloc: Global,
    answer: &mut String,
    first: usize,
    last: usize,
) -> Result<(), AllocError> {
    if !answer.is_empty() {
        answer.push_str(" ")?;
    }
    let range = if first == last {
        format!(in alloc; "{first}")?
    } else {
        format!(in alloc; "{first}-{last}")?
    };
    answer.push_str(range.as_str())
}

/// The one request that the text is, or `none`.
pub(crate) fn one(alloc: Global, field: &str) -> Result<String, AllocError> {
    let text = bytes(alloc, field)?;
    match one_request(alloc, text.as_slice()) {
        Ok(Some(request)) => {
            let target = shown(alloc, request.target.as_slice())?;
            let body = shown(alloc, request.body.as_slice())?;
            let count = request.fields.list.len();
            format!(in alloc; "{:?} {target} {count} \"{body}\"", request.method)
        }
        Ok(None) => String::from_str(alloc, "none"),
        Err(_no_memory) => Err(AllocError),
    }
}
