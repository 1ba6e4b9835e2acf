//! [`StoredPod`]: the pod of a store, held by its keeper.
ghost use Rattle.std.specs.Prelude.{◌≡◌, Option, IfOk, IfErr, IsErrOf, IsTrue, false, max};
ghost use Rattle.pod_command.specs.declared.entry.Entry.{Entry};
ghost use Rattle.pod_core.specs.History.{History, end_of, moment_before};
ghost use Rattle.reply_laws.specs.Granted.{is_change};
ghost use Rattle.reply_laws.specs.Sent.{IsSent};
ghost use Rattle.token_table.specs.Credentials.{asked_view};
ghost use Rattle.pod_keeper.specs.KeeperRuns.{StandsWith, TakesItem};
ghost use Rattle.pod_pipe.specs.Holders.{AdvancesUnanswered, AnswersAtEnd, CountsDiskFaults};
ghost use Rattle.pod_pipe.specs.Holders.{faults_in};
ghost use Rattle.pod_pipe.specs.StoredPods.{disk_faults};

use crate::{Answer, HolderFault, PodHolder, moment_after};
use pod_base::{Mem, Moment, Request, Stamp};
use pod_core::{Replied, answer, is_change};
use pod_disk::Disk;
use pod_keeper::{CommitFault, Keeper};
use std::alloc::Global;
use token_table::Asked;

/// The pod of a store, held by its keeper.
#[derive(Drop)]
pub(crate) struct StoredPod<D: Disk> {
    pub keeper: Keeper<D>,
    /// How many requests ran out of memory, at most 2^64 - 1.
    pub out_of_memory: u64,
}

impl<D: Disk> StoredPod<D> {
    /// The moment of a change to a stored pod: no earlier than that of the last entry.
    fn change_moment(&self, moment: Moment) -> Moment
        ensures { (history : History) (doubt : Option Entry)
            → StandsWith D.image self.now.keeper history doubt
            → result.0 ≡ max moment.0 (moment_before history (end_of history)) }
    {
        match self.keeper.last() {
            Some(last) => moment_after(moment, true, last),
            None => moment,
        }
    }

    /// Answers a read of the stored pod, which is no change, at the present version.
    fn read(&self, alloc: Global, request: &Request, asked: &Asked<'_>, stamp: Stamp) -> Mem<Answer>
        requires { is_change request.now.method ≡ false }
        ensures answered { IfOk result (λ answer. AnswersAtEnd (StandsWith D.image)
            (TakesItem D.image D.moment D.left_since) self.now.keeper self.now.keeper request.now
            (asked_view asked.now) stamp answer) }
        ensures sent { IfOk result (λ answer. IsSent answer.response) }
    {
        let place = self.keeper.seq();
        let moment = stamp.moment;
        let version = &**self.keeper.version();
        let Replied { response, entry: _ } = answer(alloc, version, request, asked, place, stamp)?;
        Ok(Answer {
            response,
            place,
            moment,
        })
    }

    /// Commits a change to the stored pod.
    fn change(
        &mut self,
        alloc: Global,
        request: &Request,
        asked: &Asked<'_>,
        stamp: Stamp,
    ) -> Result<Answer, HolderFault>
        requires change { IsTrue (is_change request.now.method) }
        requires stands { (history : History) × (doubt : Option Entry)
            × StandsWith D.image self.old.keeper history doubt }
        ensures answered { IfOk result (λ answer. AnswersAtEnd (StandsWith D.image)
            (TakesItem D.image D.moment D.left_since) self.old.keeper self.new.keeper request.now
            (asked_view asked.now) stamp answer) }
        ensures sent { IfOk result (λ answer. IsSent answer.response) }
        ensures kept { IfErr result (λ fault. AdvancesUnanswered (StandsWith D.image)
            (TakesItem D.image D.moment D.left_since) self.old.keeper self.new.keeper request.now
            (asked_view asked.now) stamp fault) }
        ensures memory { IsErrOf result HolderFault.NoMemory
            → self.new.keeper ≡ self.old.keeper }
        ensures faults { CountsDiskFaults (faults_in result) (disk_faults D.faults self.old.keeper)
            (disk_faults D.faults self.new.keeper) }
        ensures out_of_memory { self.new.out_of_memory ≡ self.old.out_of_memory }
    {
        let moment = self.change_moment(stamp.moment);
        match self.keeper.commit(alloc, request, asked, stamp) {
            Ok(done) => {
                let Answer {
                    response,
                    place,
                    moment: _,
                } = done;
                Ok(Answer {
                    response,
                    place,
                    moment,
                })
            }
            Err(CommitFault::NoMemory) => Err(HolderFault::NoMemory),
            Err(CommitFault::DiskFault) => Err(HolderFault::DiskFault),
        }
    }

    /// Answers a request to the stored pod.
    fn serve(
        &mut self,
        alloc: Global,
        request: &Request,
        asked: &Asked<'_>,
        stamp: Stamp,
    ) -> Result<Answer, HolderFault>
        requires { (history : History) × (doubt : Option Entry)
            × StandsWith D.image self.old.keeper history doubt }
        ensures answered { IfOk result (λ answer. AnswersAtEnd (StandsWith D.image)
            (TakesItem D.image D.moment D.left_since) self.old.keeper self.new.keeper request.now
            (asked_view asked.now) stamp answer) }
        ensures sent { IfOk result (λ answer. IsSent answer.response) }
        ensures kept { IfErr result (λ fault. AdvancesUnanswered (StandsWith D.image)
            (TakesItem D.image D.moment D.left_since) self.old.keeper self.new.keeper request.now
            (asked_view asked.now) stamp fault) }
        ensures memory { IsErrOf result HolderFault.NoMemory
            → self.new.keeper ≡ self.old.keeper }
        ensures change { IsErrOf result HolderFault.DiskFault
            → IsTrue (is_change request.now.method) }
        ensures faults { CountsDiskFaults (faults_in result) (disk_faults D.faults self.old.keeper)
            (disk_faults D.faults self.new.keeper) }
        ensures out_of_memory { self.new.out_of_memory ≡ self.old.out_of_memory }
    {
        if is_change(request.method) {
            self.change(alloc, request, asked, stamp)
        } else {
            match self.read(alloc, request, asked, stamp) {
                Ok(answer) => Ok(answer),
                Err(_none) => Err(HolderFault::NoMemory),
            }
        }
    }
}

impl<D: Disk> PodHolder for StoredPod<D> {
    ghost use Rattle.pod_keeper.specs.KeeperRuns.{StandsWith, TakesItem};
    ghost use Rattle.pod_pipe.specs.StoredPods.{stored_faults};

    ghost stands = { λ pod history doubt. StandsWith D.image pod.keeper history doubt };

    ghost takes = { λ conn clock old history doubt item new after.
        TakesItem D.image D.moment D.left_since conn clock old.keeper history doubt item
        new.keeper after };

    ghost same = { λ old new. new.keeper ≡ old.keeper };

    ghost faults = { λ pod. stored_faults D.faults pod.keeper pod.out_of_memory };

    fn answer(
        &mut self,
        alloc: Global,
        request: &Request,
        asked: &Asked<'_>,
        stamp: Stamp,
    ) -> Result<Answer, HolderFault> {
        match self.serve(alloc, request, asked, stamp) {
            Ok(answer) => Ok(answer),
            Err(HolderFault::NoMemory) => {
                self.out_of_memory = self.out_of_memory.saturating_add(1);
                Err(HolderFault::NoMemory)
            }
            Err(HolderFault::DiskFault) => Err(HolderFault::DiskFault),
        }
    }

    ghost legal = { λ pod history doubt stands. stands.kept.is_history };
}
