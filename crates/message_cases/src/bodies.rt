//! Bodies of requests, fed in pieces.

use case_words::{bytes, shown};
use http_head::BodyForm;
use http_payload::{Payload, PayloadFault};
use std::alloc::{AllocError, Global};

/// The form that a field names: `empty`, `chunked`, or a length in bytes.
fn form_of(field: &str) -> BodyForm {
    match field {
        "empty" => BodyForm::Empty,
        "chunked" => BodyForm::Chunked,
        length => BodyForm::Length(length.parse::<u64>().unwrap_or(0)),
    }
}

/// A fault in words, where it isn't out of memory.
fn fault_text(alloc: Global, fault: PayloadFault) -> Result<String, AllocError> {
    match fault {
        PayloadFault::NoMemory => Err(AllocError),
        PayloadFault::Malformed | PayloadFault::TooLarge => format!(in alloc; "{fault:?}"),
    }
}

/// What a payload has become after it took so many bytes.
fn state_text(alloc: Global, payload: Payload, taken: usize) -> Result<String, AllocError> {
    if payload.is_done() {
        let body = payload.body();
        let body = shown(alloc, body.as_slice())?;
        format!(in alloc; "done {taken} \"{body}\"")
    } else {
        format!(in alloc; "open {taken}")
    }
}

/// What feeding a text ends with.
#[derive(Drop)]
struct Outcome {
    text: String,
    /// Where it is a fault, how many bytes were taken before it.
    before_fault: Option<usize>,
}

/// What feeding pieces of that size ends with.
fn feed_pieces(
    alloc: Global,
    form: BodyForm,
    text: &[u8],
    size: usize,
) -> Result<Outcome, AllocError> {
    let mut payload = Payload::new(alloc, form);
    let mut taken: usize = 0;
    for piece in text.chunks(size.max(1)) {
        match payload.feed(alloc, piece) {
            Ok(fed) => taken = taken.saturating_add(fed.taken),
            Err(fault) => {
                return Ok(Outcome {
                    text: fault_text(alloc, fault)?,
                    before_fault: Some(taken),
                });
            }
        }
    }
    Ok(Outcome {
        text: state_text(alloc, payload, taken)?,
        before_fault: None,
    })
}

/// Whether pieces of each of these sizes end so.
fn is_same_in_all_sizes(
    alloc: Global,
    form: BodyForm,
    text: &[u8],
    wanted: &str,
) -> Result<bool, AllocError> {
    for size in [2, 3, 5, 7, 64, 100_000] {
        let other = feed_pieces(alloc, form, text, size)?;
        if other.text.as_str() != wanted {
            return Ok(false);
        }
    }
    Ok(true)
}

/// What feeding the text ends with, the same in pieces of 1, 2, 3, 5, 7, 64 and 100,000 bytes.
/// After a fault comes the offset of the byte at which pieces of one byte met it.
pub(crate) fn in_pieces(alloc: Global, form: &str, field: &str) -> Result<String, AllocError> {
    let form = form_of(form);
    let text = bytes(alloc, field)?;
    let first = feed_pieces(alloc, form, text.as_slice(), 1)?;
    if !is_same_in_all_sizes(alloc, form, text.as_slice(), first.text.as_str())? {
        return String::from_str(alloc, "differs by the size of pieces");
    }
    match first.before_fault {
        Some(offset) => format!(in alloc; "{} at {offset}", first.text),
        None => Ok(first.text),
    }
}

/// What feeding three pieces ends with.
fn in_three(
    alloc: Global,
    form: BodyForm,
    first: &[u8],
    second: &[u8],
    third: &[u8],
) -> Result<String, AllocError> {
    let mut payload = Payload::new(alloc, form);
    let mut taken: usize = 0;
    for piece in [first, second, third] {
        match payload.feed(alloc, piece) {
            Ok(fed) => taken = taken.saturating_add(fed.taken),
            Err(fault) => return fault_text(alloc, fault),
        }
    }
    state_text(alloc, payload, taken)
}

/// Whether the text ends as the whole, cut at that position and at each later one.
fn is_same_from(
    alloc: Global,
    form: BodyForm,
    text: &[u8],
    first: usize,
    whole: &str,
) -> Result<bool, AllocError> {
    let (before, rest) = text.split_at(first.min(text.len()));
    for second in 0..=rest.len() {
        let (middle, last) = rest.split_at(second.min(rest.len()));
        let answer = in_three(alloc, form, before, middle, last)?;
        if answer.as_str() != whole {
            return Ok(false);
        }
    }
    Ok(true)
}

/// What feeding the text ends with, the same in three pieces cut at each two positions.
pub(crate) fn cut_everywhere(alloc: Global, form: &str, field: &str) -> Result<String, AllocError> {
    let form = form_of(form);
    let text = bytes(alloc, field)?;
    let whole = feed_pieces(alloc, form, text.as_slice(), text.len())?;
    for first in 0..=text.len() {
        if !is_same_from(alloc, form, text.as_slice(), first, whole.text.as_str())? {
            return format!(in alloc; "differs where it is cut at {first}");
        }
    }
    Ok(whole.text)
}

/// The answer to a piece: how many bytes it took, and whether the body is complete, or a fault.
fn feed_one(alloc: Global, payload: &mut Payload, field: &str) -> Result<String, AllocError> {
    let piece = bytes(alloc, field)?;
    match payload.feed(alloc, piece.as_slice()) {
        Ok(fed) if fed.done => format!(in alloc; "done {}", fed.taken),
        Ok(fed) => format!(in alloc; "open {}", fed.taken),
        Err(fault) => fault_text(alloc, fault),
    }
}

/// The answer to each piece, fed one after the other.
pub(crate) fn piece_by_piece(
    alloc: Global,
    form: &str,
    pieces: &[&str],
) -> Result<String, AllocError> {
    let mut payload = Payload::new(alloc, form_of(form));
    let mut answers = String::new(alloc);
    for field in pieces {
        if !answers.is_empty() {
            answers.push_str(", ")?;
        }
        let answer = feed_one(alloc, &mut payload, field)?;
        answers.push_str(answer.as_str())?;
    }
    Ok(answers)
}
