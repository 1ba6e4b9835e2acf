//! [`TalkEnd`]: how answering the events of a connection ended.

/// How answering the events of a connection ended.
#[derive(Clone, Copy, Debug, PartialEq, Eq)]
pub enum TalkEnd {
    /// A request asked to close the connection, or has a version whose connections don't persist.
    Closed,
    /// The last request that a connection may have was answered.
    Limit,
    /// A request was answered by a switch of protocols.
    Upgraded,
    /// A malformed message was refused with that status.
    Bad { status: u16 },
    /// A write failed.
    WriteFault,
    /// Out of memory for a refusal or for a line of the trail.
    NoMemory,
    /// A request had no place. It has no item, and nothing was written for it.
    NoPlace,
}
