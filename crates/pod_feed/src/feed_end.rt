//! [`FeedEnd`]: how a feed ended.

/// How a feed ended.
#[derive(Clone, Copy, Debug, PartialEq, Eq)]
pub enum FeedEnd {
    /// The peer has closed the wire.
    PeerClosed,
    /// The agent may not read the topic any more.
    Revoked,
    /// The changes from the entry `last` on, which the feed had yet to tell, aren't all kept any
    /// more: `oldest` is the oldest entry that is.
    Lagged { last: u64, oldest: u64 },
    /// A text was not sent, or a poll failed.
    WireFault,
    /// `left_right` refused a look.
    NoPlace,
    /// Out of memory.
    NoMemory,
}
