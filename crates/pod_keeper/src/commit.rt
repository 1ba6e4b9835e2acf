//! Commits: a change is answered, made durable, and applied.

ghost use Rattle.std.specs.Prelude.{◌≡◌, ◌≤◌, ◌++◌};
ghost use Rattle.std.specs.Prelude.{IfOk, OnOk, OnErr, IfSome, IsErrOf, IsTrue};
ghost use Rattle.std.specs.Option.{option_to_list};
ghost use Rattle.pod_keeper.specs.Commits.{LeavesPods, LeavesPodsOf, FollowsReply};
ghost use Rattle.pod_keeper.specs.Commits.{IsCommitted, IsCommitFaulted, IsLeftByEntry};
ghost use Rattle.pod_keeper.specs.CommitEvents.{IsDoneByEvents, IsFailedByEvents};
ghost use Rattle.pod_keeper.specs.KeeperDisks.{ForEachWhereSure, IncreasesFaults};
ghost use Rattle.pod_keeper.specs.KeeperDisks.{StaysLong, StaysSure};
ghost use Rattle.pod_keeper.specs.Kept.{entries_in, ForEachHistory, StandsForSome};
ghost use Rattle.pod_keeper.specs.Plans.{planned_entry, IsPlannedAt};
ghost use Rattle.reply_laws.specs.Granted.{is_change};
ghost use Rattle.reply_laws.specs.Laws.{IsNoFailure};
ghost use Rattle.reply_laws.specs.Sent.{IsSent};
ghost use Rattle.token_table.specs.Credentials.{asked_view};

use crate::fault::CommitFault;
use crate::keeper::Keeper;
use crate::plan::{Plan, Planned};
use journal_log::DiskFault;
use pod_base::{NoMemory, Request, Stamp};
use pod_core::Answer;
use pod_disk::Disk;
use std::alloc::Global;
use token_table::Asked;

impl<D: Disk> Keeper<D> {
    /// Commits a change, which is answered at the current version, with the greater of the stamp's
    /// moment and the last entry's. Where the answer has an entry it is made durable, and applied:
    /// after `Ok` every crash image has it. Before it the gate in doubt is closed, where there is
    /// one, and a checkpoint is made, where the journal has format 1 or is long enough.
    ///
    /// # Errors
    ///
    /// After both the pod is as before the call. `NoMemory` comes before the first call of a disk.
    /// After `DiskFault` the entry may be in doubt: a crash may leave it, until the next commit has
    /// closed its gate.
    pub fn commit(
        &mut self,
        alloc: Global,
        request: &Request,
        asked: &Asked<'_>,
        stamp: Stamp,
    ) -> Result<Answer, CommitFault>
        requires change { IsTrue (is_change request.now.method) }
        requires stands { StandsForSome D.image self.old }

        // For each history that the keeper represented.
        ensures done { IfOk result (λ answer. ForEachHistory D.image self.old (λ history place doubt.
            IsCommitted D.image self.old self.new history place request.now
            (asked_view asked.now) stamp answer.response answer.place)) }
        ensures fault { IsErrOf result CommitFault.DiskFault
            → ForEachHistory D.image self.old (λ history place doubt.
            IsCommitFaulted D.image self.old self.new history place doubt request.now
            (asked_view asked.now) stamp) }
        ensures memory { IsErrOf result CommitFault.NoMemory → self.new ≡ self.old }
        ensures stands { StandsForSome D.image self.new }

        // For each of them, by the events of a world: the change is taken, an entry in doubt is
        // repaired, the entry's record is written, and its gate is opened, each with the outcome
        // that the disks returned.
        ensures world_done { IfOk result (λ answer. ForEachHistory D.image self.old
            (λ history place doubt. IsDoneByEvents D.image self.new history doubt request.now
            (asked_view asked.now) stamp answer.response)) }
        ensures world_fault { IsErrOf result CommitFault.DiskFault
            → ForEachHistory D.image self.old (λ history place doubt.
            IsFailedByEvents D.image self.new history doubt request.now
            (asked_view asked.now) stamp) }
        ensures sent { IfOk result (λ answer. IsSent answer.response) }
        ensures status { IfOk result (λ answer. IsNoFailure answer.response.status) }

        // At each moment.
        ensures pairs { ForEachWhereSure D.image self.old (λ history doubt. LeavesPods D.moment
            D.left_since self.old self.new history doubt request.now (asked_view asked.now) stamp) }
        ensures sure { StaysSure D.image self.old self.new }
        ensures long { StaysLong D.image self.old self.new }
        ensures no_fewer_first { D.faults self.old.first ≤ D.faults self.new.first }
        ensures no_fewer_second { D.faults self.old.second ≤ D.faults self.new.second }
        ensures counted { IsErrOf result CommitFault.DiskFault
            → IncreasesFaults D.faults self.old self.new }
    {
        match self.plan(alloc, request, asked, stamp) {
            Ok(plan) => {
                let Plan { answer, next } = plan;
                match self.carry_out(next) {
                    Ok(()) => Ok(answer),
                    Err(DiskFault) => Err(CommitFault::DiskFault),
                }
            }
            Err(NoMemory) => Err(CommitFault::NoMemory),
        }
    }

    /// Carries out the commit that was planned, where there is an entry.
    fn carry_out(&mut self, next: Option<Planned>) -> Result<(), DiskFault>
        requires planned { IfSome next (IsPlannedAt self.old) }
        requires stands { StandsForSome D.image self.old }
        ensures follows { OnOk result (ForEachHistory D.image self.old (λ history place doubt.
            FollowsReply D.image self.old self.new history place (planned_entry next))) }
        ensures fault { OnErr result (ForEachHistory D.image self.old (λ history place doubt.
            IsLeftByEntry D.image self.new history place doubt (planned_entry next))) }
        ensures stands { StandsForSome D.image self.new }
        ensures pairs { ForEachWhereSure D.image self.old (λ history doubt.
            LeavesPodsOf D.moment D.left_since self.old self.new history
            (entries_in doubt ++ option_to_list (planned_entry next))) }
        ensures sure { StaysSure D.image self.old self.new }
        ensures long { StaysLong D.image self.old self.new }
        ensures no_fewer_first { D.faults self.old.first ≤ D.faults self.new.first }
        ensures no_fewer_second { D.faults self.old.second ≤ D.faults self.new.second }
        ensures counted { OnErr result (IncreasesFaults D.faults self.old self.new) }
    {
        match next {
            Some(planned) => match self.write_planned(planned) {
                Ok(_entry) => Ok(()),
                Err(DiskFault) => Err(DiskFault),
            },
            None => Ok(()),
        }
    }
}
