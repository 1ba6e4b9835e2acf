//! The frames of a case.

use crate::runs::SECONDS;
use pod_base::Mem;
use pod_follow::{frame_head, split_frame};
use std::alloc::Global;

/// Appends a frame.
pub(crate) fn push_frame(input: &mut Vec<u8>, body: &[u8]) -> Mem<()> {
    input.extend_from_slice(&frame_head(body.len() as u64))?;
    input.extend_from_slice(body)?;
    Ok(())
}

/// Appends a number of eight bytes.
fn push_number(body: &mut Vec<u8>, number: u64) -> Mem<()> {
    body.extend_from_slice(&number.to_be_bytes())?;
    Ok(())
}

/// Appends the agent of a word, as an entry has it: everyone, where it is `-`.
fn push_agent(body: &mut Vec<u8>, word: &str) -> Mem<()> {
    if word == "-" {
        body.push(0)?;
        return Ok(());
    }
    body.push(1)?;
    push_number(body, word.len() as u64)?;
    body.extend_from_slice(word.as_bytes())?;
    Ok(())
}

/// Appends a read of the agent of a word.
pub(crate) fn push_read(
    alloc: Global,
    input: &mut Vec<u8>,
    agent: &str,
    request: &[u8],
) -> Mem<()> {
    let mut body = Vec::new(alloc);
    body.push(3)?;
    push_agent(&mut body, agent)?;
    push_number(&mut body, SECONDS)?;
    body.extend_from_slice(request)?;
    push_frame(input, &body)
}

/// How many frames there are.
pub(crate) fn count_frames(frames: &[u8]) -> usize {
    let mut count = 0usize;
    let mut rest = frames;
    for _ in 0..frames.len() {
        let Some((_body, more)) = split_frame(rest) else {
            return count;
        };
        count = count.saturating_add(1);
        rest = more;
    }
    count
}

/// Appends the frame of that number, where there is one.
fn push_numbered(input: &mut Vec<u8>, frames: &[u8], number: usize) -> Mem<()> {
    let mut rest = frames;
    for at in 0..frames.len() {
        let Some((body, more)) = split_frame(rest) else {
            return Ok(());
        };
        if at == number {
            return push_frame(input, body);
        }
        rest = more;
    }
    Ok(())
}

/// The range of a word: `3`, or `0..5`.
fn range_of(word: &str) -> (usize, usize) {
    match word.split_once("..") {
        Some((from, to)) => (
            from.parse::<usize>().unwrap_or(0),
            to.parse::<usize>().unwrap_or(0),
        ),
        None => {
            let number = word.parse::<usize>().unwrap_or(0);
            (number, number.saturating_add(1))
        }
    }
}

/// Appends the frames of these numbers, in their order.
pub(crate) fn push_numbers(input: &mut Vec<u8>, frames: &[u8], numbers: &str) -> Mem<()> {
    for word in numbers.split(' ') {
        let (from, to) = range_of(word);
        for number in from..to {
            push_numbered(input, frames, number)?;
        }
    }
    Ok(())
}
