//! [`MemGate`]: a gate in memory.
ghost use Rattle.std.specs.Prelude.{◌≡◌, ◌<◌, ◌≤◌, ◌+◌, ◌-◌, ◌↔◌, [], Some};
ghost use Rattle.std.specs.Prelude.{IsErr, IsSome, IfOk};
ghost use Rattle.std.specs.VecDeque.{deque_len};
ghost use Rattle.pod_io.specs.Counts.{CountsFaults};
ghost use Rattle.pod_io.specs.Gates.{GivesFirst, TakesBack, CountsGiven, CountsLast};
ghost use Rattle.pod_io.specs.Memory.{NextFails, IsNextCall};

use crate::failing_calls::Calls;
use crate::gate::Gate;
use crate::link::Link;
use crate::source::Failed;
use pod_base::{List, Mem};
use std::alloc::Global;
use std::collections::VecDeque;

/// A gate in memory: it gives its connections in order, and then none. It shows those that are left
/// and those that came back, and has room for all of them from its making.
#[derive(Drop)]
pub struct MemGate<L: Drop> {
    alloc: Global,
    rest: VecDeque<L>,
    back: List<L>,
    given: u64,
    ends: u64,
    calls: Calls,
    ghost fits: { deque_len rest ≤ back.room },
}

impl<L: Drop> MemGate<L> {
    /// A gate that gives these connections. The calls of `next` of these numbers, from 1, fail, and
    /// no others do.
    pub fn new(alloc: Global, conns: List<L>, failing: Vec<u64>) -> Mem<MemGate<L>>
        ensures rest { IfOk result (λ gate. gate.rest.items ≡ conns.items) }
        ensures back { IfOk result (λ gate. gate.back.items ≡ []) }
        ensures given { IfOk result (λ gate. gate.given ≡ 0) }
        ensures ends { IfOk result (λ gate. gate.ends ≡ 0) }
        ensures made { IfOk result (λ gate. gate.calls.made ≡ 0) }
        ensures failing { IfOk result (λ gate. gate.calls.failing ≡ failing.items) }
        ensures faults { IfOk result (λ gate. gate.calls.faults ≡ 0) }
    {
        let rest = VecDeque::from(conns.into_vec());
        let mut back = List::new(alloc);
        back.reserve(alloc, rest.len())?;
        Ok(MemGate {
            alloc,
            rest,
            back,
            given: 0,
            ends: 0,
            calls: Calls::new(failing),
        })
    }

    /// A gate that gives no connection and doesn't fail.
    pub fn idle(alloc: Global) -> MemGate<L>
        ensures rest { result.rest.items ≡ [] }
        ensures back { result.back.items ≡ [] }
        ensures given { result.given ≡ 0 }
        ensures ends { result.ends ≡ 0 }
        ensures made { result.calls.made ≡ 0 }
        ensures failing { result.calls.failing ≡ [] }
        ensures faults { result.calls.faults ≡ 0 }
    {
        MemGate {
            alloc,
            rest: VecDeque::new(alloc),
            back: List::new(alloc),
            given: 0,
            ends: 0,
            calls: Calls::new(Vec::new(alloc)),
        }
    }

    /// The connections that came back, in order.
    pub fn back(&self) -> &[L]
        ensures { result.now ≡ self.now.back.items }
    {
        self.back.as_slice()
    }
}

impl<L: Link + Send> Gate for MemGate<L> {
    type Conn = L;

    ghost rest = { λ g. Some g.rest.items };

    ghost back = { λ g. Some g.back.items };

    ghost room = { λ g. g.back.room - deque_len g.rest };

    ghost faults = { λ g. g.calls.faults };

    ghost given = { λ g. g.given };

    ghost ends = { λ g. g.ends };

    fn next(&mut self) -> Result<Option<L>, Failed>
        ensures rest { GivesFirst result (Some self.old.rest.items) (Some self.new.rest.items) }
        ensures back { Some self.new.back.items ≡ Some self.old.back.items }
        ensures room { IfOk result (λ found. IsSome found
            → 0 < self.new.back.room - deque_len self.new.rest) }
        ensures no_less_room { self.old.back.room - deque_len self.old.rest
            ≤ self.new.back.room - deque_len self.new.rest }
        ensures faults { CountsFaults result self.old.calls.faults self.new.calls.faults }
        ensures given { CountsGiven result self.old.given self.new.given }
        ensures ends { CountsLast result self.old.ends self.new.ends }
        ensures fails { IsErr result ↔ NextFails self.old.calls }
        ensures calls { IsNextCall result self.old.calls self.new.calls }
    {
        if self.calls.next_fails() {
            return Err(Failed);
        }
        let found = self.rest.pop_front();
        if found.is_some() {
            self.given = self.given.saturating_add(1);
        } else {
            self.ends = self.ends.saturating_add(1);
        }
        Ok(found)
    }

    fn done(&mut self, conn: L)
        requires { 0 < self.old.back.room - deque_len self.old.rest }
        ensures back { TakesBack conn (Some self.old.back.items) (Some self.new.back.items) }
        ensures room { self.old.back.room - deque_len self.old.rest
            ≤ self.new.back.room - deque_len self.new.rest + 1 }
        ensures rest { Some self.new.rest.items ≡ Some self.old.rest.items }
        ensures faults { self.new.calls.faults ≡ self.old.calls.faults }
        ensures given { self.new.given ≡ self.old.given }
        ensures ends { self.new.ends ≡ self.old.ends }
        ensures calls { self.new.calls ≡ self.old.calls }
    {
        let _ = self.back.push(self.alloc, conn);
    }
}
