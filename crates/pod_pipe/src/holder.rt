//! [`PodHolder`]: what holds the pod that a connection is served from.
ghost use Rattle.std.specs.Prelude.{ℕ, Option, IfOk, IfErr, IsErrOf, IsTrue};
ghost use Rattle.pod_command.specs.declared.entry.Entry.{Entry};
ghost use Rattle.pod_core.specs.History.{History, IsHistory};
ghost use Rattle.pod_core.specs.Session.{Item};
ghost use Rattle.reply_laws.specs.Granted.{is_change};
ghost use Rattle.reply_laws.specs.Sent.{IsSent};
ghost use Rattle.token_table.specs.Credentials.{asked_view};
ghost use Rattle.pod_pipe.specs.Holders.{AdvancesUnanswered, AnswersAtEnd, CountsUnanswered};
ghost use Rattle.pod_pipe.specs.Holders.{Faults, faults_in, out_of_memory_in};

use pod_base::{Request, Stamp};
use pod_core::Answer;
use std::alloc::Global;
use token_table::Asked;

/// Why the holder of a pod didn't answer a request.
#[derive(Clone, Copy, Debug, PartialEq, Eq)]
pub enum HolderFault {
    NoMemory,
    /// A call of a disk failed at a change.
    DiskFault,
}

/// The one holder of a pod: it answers requests at the end of the pod's history, to which each
/// change adds its entry.
pub trait PodHolder {
    /// It represents this history: its pod is the one at the history's end. Where an entry is in
    /// doubt, a crash may leave it after that end.
    ghost stands: { Self → History → Option Entry → Type 0 };

    /// What an item says of its disks: the number of the connection, the clock's moment, the
    /// history that it represented, and what was and then is in doubt.
    ghost takes: { (conn clock : ℕ) → Self → History → Option Entry → Item → Self → Option Entry
        → Type 0 };

    /// Nothing of it changed but the count of requests that ran out of memory.
    ghost same: { Self → Self → Type 0 };

    /// How many calls of its disks failed, and how many requests ran out of memory.
    ghost faults: { Self → Faults };

    /// Answers a request at the end of the history that the holder represents, at the stamp's
    /// moment; that of a change is no earlier than that of the last entry. After `Ok` the entry of
    /// the answer, where it has one, is part of the history.
    ///
    /// # Errors
    ///
    /// After both it represents the same history, and each is counted. After `NoMemory` it is as
    /// it was but for that count. Only a change has `DiskFault`, and only where a count of faults
    /// increased.
    fn answer(
        &mut self,
        alloc: Global,
        request: &Request,
        asked: &Asked<'_>,
        stamp: Stamp,
    ) -> Result<Answer, HolderFault>
        requires { (history : History) × (doubt : Option Entry) × stands self.old history doubt }

        // One reply, for each history that the holder represented.
        ensures answered { IfOk result (λ answer. AnswersAtEnd stands takes self.old self.new
            request.now (asked_view asked.now) stamp answer) }

        // The response can be written.
        ensures sent { IfOk result (λ answer. IsSent answer.response) }
        ensures kept { IfErr result (λ fault. AdvancesUnanswered stands takes self.old self.new
            request.now (asked_view asked.now) stamp fault) }
        ensures memory { IsErrOf result HolderFault.NoMemory → same self.old self.new }
        ensures change { IsErrOf result HolderFault.DiskFault
            → IsTrue (is_change request.now.method) }
        ensures faults { CountsUnanswered (faults_in result) (out_of_memory_in result)
            (faults self.old) (faults self.new) };

    /// Each history is one of a pod: the first pod is well-formed, and each entry applies.
    ghost legal: { (holder : Self) (history : History) (doubt : Option Entry)
        → stands holder history doubt → IsHistory history };
}
