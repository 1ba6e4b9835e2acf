//! [`MemListen`]: a listener in memory.
ghost use Rattle.std.specs.Prelude.{◌≡◌, ◌<◌, ◌≤◌, ◌+◌, ◌-◌, [], ◌∷◌, List as ListOf, Some, drop};
ghost use Rattle.std.specs.Prelude.{IfOk, IsErrOf, OnErr, length};
ghost use Rattle.pod_base.specs.Counts.{CountIncreased};
ghost use Rattle.pod_io.specs.Gates.{TakesBack, OpensFirst};
ghost use Rattle.pod_io.specs.declared.listen.TheConstants.{GATE_LIMIT};
ghost use Rattle.pod_io.specs.Memory.{NextFails, next_call};

use crate::failing_calls::Calls;
use crate::gate::Gate;
use crate::link::Link;
use crate::listen::{Listen, ListenFault};
use crate::mem_gate::MemGate;
use pod_base::List;
use std::alloc::Global;
use std::collections::VecDeque;

/// A listener in memory: it opens its gates in order, and then gates without connections. It shows
/// the gates that are left and those that came back.
#[derive(Drop)]
pub struct MemListen<L: Drop> {
    alloc: Global,
    rest: VecDeque<MemGate<L>>,
    back: List<MemGate<L>>,
    calls: Calls,
}

impl<L: Drop> MemListen<L> {
    /// A listener that opens these gates. The calls of `open` of these numbers, from 1, fail.
    /// Another one fails only when out of memory.
    pub fn new(alloc: Global, gates: List<MemGate<L>>, failing: Vec<u64>) -> MemListen<L>
        ensures rest { result.rest.items ≡ gates.items }
        ensures back { result.back.items ≡ [] }
        ensures made { result.calls.made ≡ 0 }
        ensures failing { result.calls.failing ≡ failing.items }
        ensures faults { result.calls.faults ≡ 0 }
    {
        MemListen {
            alloc,
            rest: VecDeque::from(gates.into_vec()),
            back: List::new(alloc),
            calls: Calls::new(failing),
        }
    }

    /// The gates that came back, in order.
    pub fn back(&self) -> &[MemGate<L>]
        ensures { result.now ≡ self.now.back.items }
    {
        self.back.as_slice()
    }
}

/// Takes the first gate that is left of a listener in memory, or a gate without connections where
/// there are none.
fn next_gate<L: Drop>(alloc: Global, rest: &mut VecDeque<MemGate<L>>) -> MemGate<L>
    ensures first { (more : ListOf _) → OpensFirst rest.new.items more
        → OpensFirst rest.old.items (result ∷ more) }
    ensures rest { rest.new.items ≡ drop 1 rest.old.items }
{
    match rest.pop_front() {
        Some(gate) => gate,
        None => MemGate::idle(alloc),
    }
}

/// Moves that many gates of a listener in memory to a list that has room for them: the first of
/// `rest`, and gates without connections where there are no more.
fn move_gates<L: Drop>(
    alloc: Global,
    rest: &mut VecDeque<MemGate<L>>,
    gates: &mut List<MemGate<L>>,
    count: usize,
)
    requires { (gates.old.items ≡ []) × (count ≤ gates.old.room) }
    ensures count { length gates.new.items ≡ count }
    ensures first { OpensFirst rest.old.items gates.new.items }
    ensures rest { rest.new.items ≡ drop count rest.old.items }
{
    for _ in 0..count {
        let gate = next_gate(alloc, rest);
        let _ = gates.push(alloc, gate);
    }
}

impl<L: Link + Send> Listen for MemListen<L> {
    type Gate = MemGate<L>;

    ghost may_open = { λ l gates. OpensFirst l.rest.items gates };

    ghost back = { λ l. Some l.back.items };

    ghost room = { λ l. l.back.room };

    ghost faults = { λ l. l.calls.faults };

    fn open(
        &mut self,
        alloc: Global,
        _port: u16,
        workers: usize,
    ) -> Result<List<MemGate<L>>, ListenFault>
        requires { (0 < workers) × (workers ≤ GATE_LIMIT) }
        ensures count { IfOk result (λ gates. length gates.items ≡ workers) }
        ensures opened { IfOk result (λ gates. OpensFirst self.old.rest.items gates.items) }
        ensures room { IfOk result (λ _. workers ≤ self.new.back.room) }
        ensures back { Some self.new.back.items ≡ Some self.old.back.items }
        ensures no_fewer { self.old.calls.faults ≤ self.new.calls.faults }
        ensures failed { IsErrOf result ListenFault.Failed
            → CountIncreased self.old.calls.faults self.new.calls.faults }
        ensures fails { IsErrOf result ListenFault.Failed → NextFails self.old.calls }
        ensures listed { NextFails self.old.calls → IsErrOf result ListenFault.Failed }
        ensures rest { IfOk result (λ _. self.new.rest.items ≡ drop workers self.old.rest.items) }
        ensures kept { OnErr result (self.new.rest.items ≡ self.old.rest.items) }
        ensures made { self.new.calls.made ≡ next_call self.old.calls }
        ensures failing { self.new.calls.failing ≡ self.old.calls.failing }
    {
        if self.calls.next_fails() {
            return Err(ListenFault::Failed);
        }
        let mut gates = List::new(alloc);
        if gates.reserve(alloc, workers).is_err() || self.back.reserve(alloc, workers).is_err() {
            return Err(ListenFault::NoMemory);
        }
        move_gates(alloc, &mut self.rest, &mut gates, workers);
        Ok(gates)
    }

    fn close(&mut self, gate: MemGate<L>)
        requires { 0 < self.old.back.room }
        ensures back { TakesBack gate (Some self.old.back.items) (Some self.new.back.items) }
        ensures room { self.old.back.room ≤ self.new.back.room + 1 }
        ensures faults { self.new.calls.faults ≡ self.old.calls.faults }
        ensures rest { self.new.rest.items ≡ self.old.rest.items }
        ensures calls { self.new.calls ≡ self.old.calls }
    {
        let _ = self.back.push(self.alloc, gate);
    }
}
