//! [`ConnEnd`]: how a connection ended.

use pod_feed::FeedEnd;

/// So many quiet times in a row end a connection.
pub const QUIET_LIMIT: u64 = 30;

/// How a connection ended.
#[derive(Clone, Copy, Debug, PartialEq, Eq)]
pub enum ConnEnd {
    /// The peer ended it between messages.
    PeerEnded,
    /// The peer ended it inside a message, after so many bytes of it.
    CutShort { rest: usize },
    /// A malformed message was refused with that status.
    BadMessage { status: u16 },
    /// [`QUIET_LIMIT`] quiet times in a row were counted.
    Quiet,
    /// A read or a write failed.
    LinkFault,
    /// The last request that a connection may have was answered.
    LimitReached,
    /// A request asked to close the connection, or has a version whose connections don't persist.
    Closed,
    /// A request was answered by a switch of protocols, and the feed after it ended so.
    Noticed(FeedEnd),
    /// `left_right` refused a look, and the request got no response.
    NoPlace,
    /// Out of memory for parsing a message or for refusing one.
    NoMemory,
}
