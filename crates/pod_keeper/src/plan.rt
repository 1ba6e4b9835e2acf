//! What a change comes to, before a disk is written.

ghost use Rattle.std.specs.Prelude.{◌≡◌, IfOk, IfSome, IsSome, IsTrue, None};
ghost use Rattle.std.specs.Arc.{arc_value};
ghost use Rattle.std.specs.Option.{option_map};
ghost use Rattle.pod_command.specs.Bare.{bare_entry};
ghost use Rattle.pod_command.specs.Encodable.{IsEncodable};
ghost use Rattle.stored_forms.specs.Storable.{IsStorable};
ghost use Rattle.stored_forms.specs.StoredForms.{entry_bytes};
ghost use Rattle.pod_keeper.specs.Commits.{later};
ghost use Rattle.pod_keeper.specs.KeeperState.{IsCheckpointDue};
ghost use Rattle.pod_keeper.specs.Plans.{planned_entry, IsPlan, IsPlannedAt};
ghost use Rattle.pod_pages.specs.State.{state_after};
ghost use Rattle.pod_records.specs.Records.{IsSnapshotText};
ghost use Rattle.pod_reply.specs.Replies.{reply_of};
ghost use Rattle.pod_reply.specs.Reply.{IsReply};
ghost use Rattle.pod_rows.specs.Apply.{Applies};
ghost use Rattle.reply_laws.specs.Laws.{IsNoFailure};
ghost use Rattle.reply_laws.specs.Sent.{IsSent};
ghost use Rattle.token_table.specs.Credentials.{asked_view};

use crate::keeper::{Keeper, shared};
use journal_log::{EPOCH_LIMIT, Framed};
use journal_pair::Pair;
use pod_base::{Mem, Moment, Request, Stamp};
use pod_command::Entry;
use pod_core::{Answer, Replied, answer};
use pod_disk::Disk;
use pod_pages::Version;
use pod_records::{entry_record, snapshot_record};
use pod_rows::PodState;
use std::alloc::Global;
use std::sync::Arc;
use token_table::Asked;

/// The format that is only read: a journal of it has a checkpoint before the next entry.
const OLD_FORMAT: u8 = 1;

/// What a change comes to: its answer, and where it has an entry, what is to be written.
#[derive(Drop)]
pub struct Plan {
    /// Its moment is the greater of the stamp's and that of the last entry.
    pub answer: Answer,
    pub next: Option<Planned>,
}

/// An entry, with all that its commit writes and keeps.
#[derive(Drop)]
pub struct Planned {
    pub entry: Entry,
    /// The version after the entry.
    pub version: Arc<Version>,
    /// The record of the entry.
    pub body: Framed,
    /// The record of a snapshot of the version before it, where a checkpoint is due.
    pub snapshot: Option<Framed>,
}

/// What is made of an entry.
#[derive(Drop)]
struct Prepared {
    version: Arc<Version>,
    body: Framed,
    snapshot: Option<Framed>,
}

/// The stamp of a planned entry, with the greater of its moment and the last one.
fn stamp_after(stamp: Stamp, last: Option<Moment>) -> Stamp
    ensures { result ≡ later stamp last }
{
    match last {
        Some(Moment(seconds)) => Stamp {
            conn: stamp.conn,
            number: stamp.number,
            moment: Moment(stamp.moment.0.max(seconds)),
        },
        None => stamp,
    }
}

/// Whether the plan of a commit has a checkpoint before its entry.
fn is_checkpoint_due(pair: &Pair) -> bool
    ensures yes { IsTrue result → IsCheckpointDue pair.now }
    ensures no { IsCheckpointDue pair.now → IsTrue result }
{
    pair.epoch() < EPOCH_LIMIT && (pair.format() == OLD_FORMAT || pair.due())
}

/// The record of the snapshot that a commit is planned with, where a checkpoint is due.
fn snapshot_where_due(alloc: Global, pair: &Pair, version: &Version) -> Mem<Option<Framed>>
    ensures text { IfOk result (λ snapshot. IfSome snapshot
        (IsSnapshotText version.now.pod version.now.next)) }
    ensures due { IfOk result (λ snapshot. IsSome snapshot → IsCheckpointDue pair.now) }
    ensures not_due { IfOk result (λ snapshot. snapshot ≡ None → IsCheckpointDue pair.now → ⊥) }
{
    if is_checkpoint_due(pair) {
        let record = snapshot_record(alloc, version)?;
        Ok(Some(record))
    } else {
        Ok(None)
    }
}

/// Prepares what the planned commit of an entry writes and keeps.
fn prepare(alloc: Global, pair: &Pair, version: &Version, entry: &Entry) -> Mem<Prepared>
    requires applies { Applies version.now.pod version.now.next entry.now }
    requires encodable { IsEncodable entry.now }
    ensures after { IfOk result
        (λ prepared. arc_value prepared.version ≡ state_after version.now entry.now) }
    ensures form { IfOk result (λ prepared. prepared.body ≡ entry_bytes entry.now) }
    ensures storable { IfOk result (λ _. IsStorable entry.now) }
    ensures text { IfOk result (λ prepared. IfSome prepared.snapshot
        (IsSnapshotText version.now.pod version.now.next)) }
    ensures due { IfOk result
        (λ prepared. IsSome prepared.snapshot → IsCheckpointDue pair.now) }
    ensures not_due { IfOk result
        (λ prepared. prepared.snapshot ≡ None → IsCheckpointDue pair.now → ⊥) }
{
    let body = entry_record(alloc, entry)?;
    let snapshot = snapshot_where_due(alloc, pair, version)?;
    let next = version.after_entry(alloc, entry)?;
    let next = shared(alloc, next)?;
    Ok(Prepared {
        version: next,
        body,
        snapshot,
    })
}

impl<D: Disk> Keeper<D> {
    /// Plans the commit of a change, which is answered at the current version, with the greater of
    /// the stamp's moment and the last entry's, and makes all that its commit writes and keeps.
    /// [`write_planned`](Keeper::write_planned) then takes no memory.
    pub fn plan(
        &self,
        alloc: Global,
        request: &Request,
        asked: &Asked<'_>,
        stamp: Stamp,
    ) -> Mem<Plan>
        ensures { IfOk result (λ plan. IsPlan D.image self.now request.now (asked_view asked.now)
            stamp plan) }
    {
        let stamp = stamp_after(stamp, self.last);
        let replied = self.reply_at_end(alloc, request, asked, stamp)?;
        let Replied { response, entry } = replied;
        let place = self.seq();
        let next = self.plan_entry(alloc, entry)?;
        Ok(Plan {
            answer: Answer {
                response,
                place,
                moment: stamp.moment,
            },
            next,
        })
    }

    /// The reply to a change that is planned at the current version.
    fn reply_at_end(
        &self,
        alloc: Global,
        request: &Request,
        asked: &Asked<'_>,
        stamp: Stamp,
    ) -> Mem<Replied>
        ensures reply { IfOk result (λ replied. IsReply self.now.pod request.now
            (asked_view asked.now) self.now.next stamp (reply_of replied)) }
        ensures applies { IfOk result (λ replied. IfSome replied.entry
            (Applies self.now.pod self.now.next)) }
        ensures encodable { IfOk result (λ replied. IfSome replied.entry IsEncodable) }
        ensures sent { IfOk result (λ replied. IsSent replied.response) }
        ensures status { IfOk result (λ replied. IsNoFailure replied.response.status) }
    {
        let place = self.version.next();
        answer(alloc, &*self.version, request, asked, place, stamp)
    }

    /// Plans the commit of an entry, with what it writes and keeps, where there is one.
    fn plan_entry(&self, alloc: Global, entry: Option<Entry>) -> Mem<Option<Planned>>
        requires applies { IfSome entry (Applies self.now.pod self.now.next) }
        requires encodable { IfSome entry IsEncodable }
        ensures entry { IfOk result (λ next. planned_entry next ≡ option_map bare_entry entry) }
        ensures planned { IfOk result (λ next. IfSome next (IsPlannedAt self.now)) }
    {
        let Some(entry) = entry else {
            return Ok(None);
        };
        let prepared = prepare(alloc, &self.pair, &self.version, &entry)?;
        let Prepared {
            version,
            body,
            snapshot,
        } = prepared;
        Ok(Some(Planned {
            entry,
            version,
            body,
            snapshot,
        }))
    }
}
