//! One look at the published pod, and what it reports.
ghost use Rattle.std.specs.Prelude.{◌≡◌, IfErr, IfOk};
ghost use Rattle.pod_feed.specs.Turns.{EndsAtLook, EndsByNews, IsReport, IsReportOf, ComesOfNews};
ghost use Rattle.pod_feed.specs.Turns.{end_of_fault};

use crate::feed_end::FeedEnd;
use crate::{News, notices_after};
use pod_base::{Agent, List, Text};
use pod_live::{CommittedEntry, Session, StoreName};
use pod_pages::Version;
use pod_path::Path;
use published_view::{ViewFault, ViewName};
use std::alloc::Global;

/// The notices of a look, and the number of the first entry after it.
#[derive(Debug, Drop)]
pub(crate) struct Report {
    pub notices: List<Text>,
    pub next: u64,
}

/// The report of the news of a version whose next change has that number.
fn reported(news: News, next: u64) -> Result<Report, FeedEnd>
    ensures { ComesOfNews news next result }
{
    match news {
        News::Notices(notices) => Ok(Report { notices, next }),
        News::Revoked => Err(FeedEnd::Revoked),
        News::Lagged { last, oldest } => Err(FeedEnd::Lagged { last, oldest }),
    }
}

/// The report of a version on a topic from the entry `last` on, or the end of the feed.
fn report_of(
    alloc: Global,
    version: &Version,
    last: u64,
    topic: &Path,
    agent: &Agent,
) -> Result<Report, FeedEnd>
    ensures report { IfOk result (IsReportOf version.now last topic.now agent.now) }
    ensures end { IfErr result (EndsByNews version.now last topic.now agent.now) }
{
    match notices_after(alloc, version, last, topic, agent) {
        Ok(news) => reported(news, version.seq()),
        Err(_) => Err(FeedEnd::NoMemory),
    }
}

/// What a look that gave no version reports, which is the end of the feed.
fn end_of_fault(fault: ViewFault) -> FeedEnd
    ensures { result ≡ end_of_fault fault }
{
    match fault {
        ViewFault::NoPlace => FeedEnd::NoPlace,
        ViewFault::NoMemory => FeedEnd::NoMemory,
    }
}

/// Makes one look, and returns the report of the version that it gave, which is let go.
pub(crate) fn look_for_news<N: ViewName<CommittedEntry> + StoreName>(
    alloc: Global,
    session: &mut Session<N>,
    last: u64,
    topic: &Path,
    agent: &Agent,
) -> Result<Report, FeedEnd>
    ensures report { IfOk result
        (IsReport N.opened last topic.now agent.now session.old session.new) }
    ensures end { IfErr result
        (EndsAtLook N.opened last topic.now agent.now session.old session.new) }
{
    match session.look() {
        Ok(version) => report_of(alloc, &*version, last, topic, agent),
        Err(fault) => Err(end_of_fault(fault)),
    }
}
