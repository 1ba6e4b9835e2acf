//! Out of memory, the one answer that no contract restricts.
use std::alloc::{AllocError, AllocFailed};
use thiserror::Error;

/// Out of memory: a value that had to grow found none.
///
/// No contract says when it comes, since a program can't know what the system has left.
#[derive(Clone, Copy, Debug, PartialEq, Eq, Error)]
#[error("out of memory")]
pub struct NoMemory;

/// A value, or [`NoMemory`].
pub type Mem<T> = Result<T, NoMemory>;

impl From<AllocError> for NoMemory {
    fn from(_error: AllocError) -> NoMemory {
        NoMemory
    }
}

impl<T: Drop> From<AllocFailed<T>> for NoMemory {
    fn from(_error: AllocFailed<T>) -> NoMemory {
        NoMemory
    }
}
