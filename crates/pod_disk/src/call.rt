//! The calls of a disk as they are noted.

use pod_base::Bytes;

/// A call of a disk.
#[derive(Debug, Drop)]
pub enum Call {
    Length,
    Read { at: u64, count: usize },
    Write { at: u64, bytes: Bytes },
    Cut { len: u64 },
    Sync,
}

/// A call that a disk in memory has noted, and whether it succeeded.
#[derive(Debug, Drop)]
pub struct NotedCall {
    pub call: Call,
    pub done: bool,
}
