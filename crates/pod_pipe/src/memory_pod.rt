//! [`MemoryPod`]: a pod in memory, in pages, and the moment of its last entry.
ghost use Rattle.std.specs.Prelude.{◌≡◌, ◌+◌, max, if◌then◌else◌, length, IfOk, IfSome, OnOk};
ghost use Rattle.std.specs.Prelude.{OnErr};
ghost use Rattle.std.specs.Option.{option_map_or, option_to_list};
ghost use Rattle.pod_core.specs.History.{seconds_of};
ghost use Rattle.pod_rows.specs.Apply.{Applies, applied};
ghost use Rattle.reply_laws.specs.Granted.{is_change};
ghost use Rattle.reply_laws.specs.Sent.{IsSent};
ghost use Rattle.token_table.specs.Credentials.{asked_view};
ghost use Rattle.pod_pipe.specs.Holders.{AnswersAtEnd};
ghost use Rattle.pod_pipe.specs.Memory.{memory_stands, memory_takes};

use crate::holder::{HolderFault, PodHolder};
use pod_base::{Mem, Moment, Request, Stamp};
use pod_command::Entry;
use pod_core::{Answer, Replied, answer, is_change};
use pod_pages::Version;
use pod_rows::PodState;
use std::alloc::Global;
use token_table::Asked;

/// A pod in memory, and where its history ends. Its requests use no disk.
#[derive(Drop)]
pub struct MemoryPod {
    pub state: Version,
    /// The moment of the last entry, 0 where there is none.
    pub last: Moment,
    /// How many requests ran out of memory, at most 2^64 - 1.
    pub out_of_memory: u64,
}

/// The moment of a request to a pod in memory: that of a change is no earlier than that of the last
/// entry.
pub fn moment_after(moment: Moment, change: bool, last: Moment) -> Moment
    ensures { result.0 ≡ (if change then max moment.0 last.0 else moment.0) }
{
    if change {
        Moment(moment.0.max(last.0))
    } else {
        moment
    }
}

impl MemoryPod {
    /// Applies an entry to the pod in memory, where there is one. Out of memory, nothing changes.
    fn carry_out(&mut self, alloc: Global, entry: Option<Entry>) -> Mem<()>
        requires { IfSome entry (Applies self.old.state.pod self.old.state.next) }
        ensures pod { OnOk result (self.new.state.pod
            ≡ option_map_or (applied self.old.state.pod) entry self.old.state.pod) }
        ensures next { OnOk result (self.new.state.next
            ≡ self.old.state.next + length (option_to_list entry)) }
        ensures last { OnOk result (self.new.last.0
            ≡ option_map_or seconds_of entry self.old.last.0) }
        ensures out_of_memory { self.new.out_of_memory ≡ self.old.out_of_memory }
        ensures unchanged { OnErr result (self.new ≡ self.old) }
    {
        let Some(entry) = entry else {
            return Ok(());
        };
        let after = self.state.after(alloc, &entry)?;
        self.state = after;
        self.last = entry.moment;
        Ok(())
    }

    /// Answers a request from the pod in memory, and applies its entry. Out of memory, nothing
    /// changes.
    fn take(
        &mut self,
        alloc: Global,
        request: &Request,
        asked: &Asked<'_>,
        stamp: Stamp,
    ) -> Mem<Answer>
        ensures answered { IfOk result (λ answer. AnswersAtEnd memory_stands memory_takes
            self.old self.new request.now (asked_view asked.now) stamp answer) }
        ensures sent { IfOk result (λ answer. IsSent answer.response) }
        ensures out_of_memory { self.new.out_of_memory ≡ self.old.out_of_memory }
        ensures unchanged { OnErr result (self.new ≡ self.old) }
    {
        let place = self.state.next();
        let moment = moment_after(stamp.moment, is_change(request.method), self.last);
        let stamp = Stamp {
            conn: stamp.conn,
            number: stamp.number,
            moment,
        };
        let Replied { response, entry } = answer(alloc, &self.state, request, asked, place, stamp)?;
        self.carry_out(alloc, entry)?;
        Ok(Answer {
            response,
            place,
            moment,
        })
    }
}

impl PodHolder for MemoryPod {
    ghost use Rattle.pod_pipe.specs.Memory.{memory_faults, memory_stands, memory_takes};
    ghost use Rattle.pod_pipe.specs.Memory.{same_memory};

    ghost stands = { memory_stands };

    ghost takes = { memory_takes };

    ghost same = { same_memory };

    ghost faults = { memory_faults };

    fn answer(
        &mut self,
        alloc: Global,
        request: &Request,
        asked: &Asked<'_>,
        stamp: Stamp,
    ) -> Result<Answer, HolderFault> {
        match self.take(alloc, request, asked, stamp) {
            Ok(answer) => Ok(answer),
            Err(_none) => {
                self.out_of_memory = self.out_of_memory.saturating_add(1);
                Err(HolderFault::NoMemory)
            }
        }
    }

    ghost legal = { λ _ _ _ stands. stands.0.is_history };
}
