//! What one agent sees of a pod while others change what that agent may not read: a law for the
//! runs of several agents.
//!
//! ```ignore
//! refusal_laws::paired_runs();   // the agent sees the same in both runs
//! ```
//!
//! Two runs are paired for an agent (`PairedRuns` of `specs/PairedRuns.antt`) where their steps are
//! the same but for PUTs of other agents over rows that the agent may not read, where each step
//! makes an entry in both or in neither, the rows have the same kinds, and what differs is never
//! open to the agent. Proved, for each two well-formed pods that are alike for the agent (`Alike`
//! of `reply_laws`) and all paired runs from them: the pods are alike at every place, and each
//! request of the agent has the same reply in both runs, byte for byte ([`paired_runs`]). So what
//! others do with rows that an agent may not read is not revealed to it.
//!
//! The function does nothing: its contract is the law.
//!
//! It depends on `reply_laws` for the replies to one agent, on `pod_reply` for the definition of a
//! reply, and on `pod_edits` and `pod_rows` for what an entry makes of a pod.

ghost use Rattle.refusal_laws.specs.Laws.{PairedRunsStayAlike, PutsChangeOnePath};

/// Alike pods stay alike in paired runs, and the agent has the same replies in both.
pub fn paired_runs()
    ensures runs { PairedRunsStayAlike }

    // After two PUTs of one moment by another agent, what was the same at another path is the same.
    ensures puts { PutsChangeOnePath }
{
    pod_reply::laws::one_reply();
    reply_laws::applies();
    reply_laws::isolation_law();
}
