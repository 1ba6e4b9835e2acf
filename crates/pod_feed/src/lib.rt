//! A feed: the changes to one topic of a pod, told to a peer as they are published.
//!
//! ```text
//! let end = serve_feed(rt, alloc, &mut session, &mut wire, last, &topic, &agent);
//! // FeedEnd::Revoked: the agent may not read the topic any more
//! ```
//!
//! Proved, whatever the threads do: a feed goes on in turns of one look at the published pod, the
//! sending of the notices that this look reports, and one poll of the wire (`IsFed` of
//! `specs/Feeds.antt`). So it has sent exactly the notices that its looks reported, from `last` on,
//! in order, or a prefix of them where a send failed; and it ended as `Revoked` or `Lagged` exactly
//! where its last look reported that, as each other end exactly where the wire or the session
//! counted its cause.
//!
//! It depends on `pod_live` for looks at the published pod, on `pod_pages` for versions and their
//! effects, on `pod_access` for what is granted, and on `pod_io` for wires.
//!
//! ```ignore
//! match notices_after(alloc, &version, last, &topic, &agent)? {
//!     News::Notices(texts) => ..,          // of the changes since, in order; then last = version.seq()
//!     News::Revoked => ..,                 // the agent may not read the topic any more
//!     News::Lagged { last, oldest } => ..  // the changes from `last` on are no longer all there
//! }
//! ```
//!
//! [`notices_after`] reports `IsNews` of `specs/News.antt`, which is exact: `Revoked` where the pod
//! doesn't grant the agent to read the topic, `Lagged` where effects from `last` on aren't kept any
//! more, and else the notices of the kept effects on the topic from `last` on, in order.
#![tactic(auto)]

mod feed;
mod feed_end;
pub mod laws;
mod notice_text;
mod notices_due;
mod read_access;
mod version_report;
mod wire_turn;

pub use feed::serve_feed;
pub use feed_end::FeedEnd;
pub use notice_text::notice;
pub use notices_due::{News, notices_after};
