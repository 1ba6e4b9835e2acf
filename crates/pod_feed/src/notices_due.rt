//! [`notices_after`]: what a version has to report.
ghost use Rattle.std.specs.Prelude.{◌≡◌, ◌&&◌, bytes_eq, nat_le, IfOk, filter, map};
ghost use Rattle.pod_feed.specs.News.{IsNews, is_news, notices_of};
ghost use Rattle.pod_feed.specs.Notices.{notice_of};

use crate::notice_text::notice;
use crate::read_access::may_read;
use iri_ref::Iri;
use pod_base::{Agent, List, Mem, Text};
use pod_pages::{Effect, Version};
use pod_path::Path;
use pod_rows::PodState;
use std::alloc::Global;

/// What a version has to report of a topic.
#[derive(Debug, Drop)]
pub enum News {
    /// The notices of the changes since, in order; there may be none.
    Notices(List<Text>),
    /// The agent may not read the topic.
    Revoked,
    /// The changes from the entry `last` on aren't all kept any more: the oldest that is kept is
    /// `oldest`.
    Lagged { last: u64, oldest: u64 },
}

/// Whether a notice is due of an effect: it is on the topic, and of an entry from that number on.
fn is_news(last: u64, topic: &Path, effect: &Effect) -> bool
    ensures { result ≡ is_news last topic.now effect.now }
{
    last <= effect.seq && effect.path == *topic
}

/// The notices that are due, of the effects on a topic, of the entries from a number on.
fn notices(alloc: Global, base: &Iri, effects: &[Effect], last: u64, topic: &Path) -> Mem<Vec<Text>>
    ensures { IfOk result (λ texts. texts.items
        ≡ map (notice_of base.now) (filter (is_news last topic.now) effects.now)) }
{
    let mut texts = Vec::new(alloc);
    for effect in effects {
        if is_news(last, topic, effect) {
            let text = notice(alloc, base, effect)?;
            texts.push(text)?;
        }
    }
    Ok(texts)
}

/// The notices that a version has due, of a topic, to an agent who was told of the entries before
/// `last`.
pub fn notices_after(
    alloc: Global,
    version: &Version,
    last: u64,
    topic: &Path,
    agent: &Agent,
) -> Mem<News>
    ensures { IfOk result (IsNews version.now last topic.now agent.now) }
{
    let granted = may_read(alloc, version, topic, agent)?;
    if !granted {
        return Ok(News::Revoked);
    }
    let oldest = version.oldest();
    if last < oldest {
        return Ok(News::Lagged { last, oldest });
    }
    let texts = notices(alloc, version.base(), version.effects(), last, topic)?;
    Ok(News::Notices(List::from_vec(texts)))
}
