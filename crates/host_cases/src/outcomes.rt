//! What calls came to, as words.

use pod_io::{Failed, Link, LinkFailed};
use std::alloc::{AllocError, Global};

/// The word of a call that gives nothing.
pub(crate) fn word(outcome: Result<(), Failed>) -> &'static str {
    match outcome {
        Ok(()) => "ok",
        Err(Failed) => "failed",
    }
}

/// What a read of a stream gave: how many bytes, and what they were read into, as it is then.
pub(crate) fn bytes_read(
    alloc: Global,
    outcome: Result<usize, Failed>,
    into: &[u8],
) -> Result<String, AllocError> {
    match outcome {
        Ok(count) => {
            let held = into.escape_ascii();
            format!(in alloc; "{count}: {held}")
        }
        Err(Failed) => String::from_str(alloc, "failed"),
    }
}

/// How many bytes a write took, or that it failed.
pub(crate) fn bytes_taken(
    alloc: Global,
    outcome: Result<usize, Failed>,
) -> Result<String, AllocError> {
    match outcome {
        Ok(count) => format!(in alloc; "{count}"),
        Err(Failed) => String::from_str(alloc, "failed"),
    }
}

/// What a read of a link gave.
pub(crate) fn link_read<L: Link>(alloc: Global, link: &mut L) -> Result<String, AllocError> {
    let mut into = [0u8; 8];
    match link.read(&mut into) {
        Ok(count) => bytes_read(alloc, Ok(count), &into),
        Err(LinkFailed::Failed) => String::from_str(alloc, "failed"),
        Err(LinkFailed::Quiet) => String::from_str(alloc, "quiet"),
    }
}
