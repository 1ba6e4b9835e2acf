//! Whether an agent may read a topic.
ghost use Rattle.std.specs.Prelude.{◌≡◌, ◌↔◌, IfOk, IsTrue, unwrap_or};
ghost use Rattle.pod_path.specs.Hierarchy.{subject_of};
ghost use Rattle.pod_feed.specs.News.{MayRead, read_mode, read_path};

use pod_access::{Need, is_granted};
use pod_base::{Agent, Mem, Mode};
use pod_pages::Version;
use pod_path::Path;
use std::alloc::Global;

/// The subject of a topic that is an access list, whose access decides who may read it.
fn subject_of(alloc: Global, topic: &Path) -> Mem<Path>
    ensures { IfOk result (λ path. path ≡ unwrap_or (subject_of topic.now) topic.now) }
{
    match topic.subject(alloc)? {
        Some(subject) => Ok(subject),
        None => topic.copy(alloc),
    }
}

/// The path on which access to read a topic is granted.
fn read_path(alloc: Global, topic: &Path) -> Mem<Path>
    ensures { IfOk result (λ path. path ≡ read_path topic.now) }
{
    if topic.is_acl() {
        subject_of(alloc, topic)
    } else {
        topic.copy(alloc)
    }
}

/// The mode of access that reading a topic needs.
fn read_mode(topic: &Path) -> Mode
    ensures { result ≡ read_mode topic.now }
{
    if topic.is_acl() {
        Mode::Control
    } else {
        Mode::Read
    }
}

/// Whether an agent has access to read a topic.
pub(crate) fn may_read(alloc: Global, version: &Version, topic: &Path, agent: &Agent) -> Mem<bool>
    ensures { IfOk result
        (λ granted. IsTrue granted ↔ MayRead version.now.pod topic.now agent.now) }
{
    let path = read_path(alloc, topic)?;
    let mode = read_mode(topic);
    Ok(is_granted(version, agent, &Need { path, mode }))
}
