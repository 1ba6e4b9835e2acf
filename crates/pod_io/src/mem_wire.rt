//! [`MemWire`]: a wire in memory.
ghost use Rattle.std.specs.Prelude.{◌≡◌, ◌-◌, ◌==◌, ◌↔◌, [], Some, ◌∷◌, ◌++◌, IsErr, IfOk, OnErr};
ghost use Rattle.std.specs.Prelude.{if◌then◌else◌};
ghost use Rattle.pod_io.specs.Memory.{NextFails, IsNextCall};
ghost use Rattle.pod_io.specs.Wires.{SendsText, CountsPolls, CountsErrors, CountsClosed};

use crate::failing_calls::Calls;
use crate::wire::{Polled, Wire, WireFault};
use pod_base::{List, Text};
use std::alloc::Global;

/// A wire in memory, which shows the texts that it has sent.
#[derive(Drop)]
pub struct MemWire {
    alloc: Global,
    sent: List<Text>,
    polls: u64,
    closed: u64,
    left: u64,
    calls: Calls,
}

impl MemWire {
    /// A wire that has sent nothing. It stays open for that many polls, and each later one finds it
    /// closed. The calls of these numbers, from 1, fail: sends and polls are numbered together.
    /// Another send fails only when out of memory, and another poll doesn't.
    pub fn new(alloc: Global, polls: u64, failing: Vec<u64>) -> MemWire
        ensures sent { result.sent.items ≡ [] }
        ensures polls { result.polls ≡ 0 }
        ensures closed { result.closed ≡ 0 }
        ensures left { result.left ≡ polls }
        ensures made { result.calls.made ≡ 0 }
        ensures failing { result.calls.failing ≡ failing.items }
        ensures faults { result.calls.faults ≡ 0 }
    {
        MemWire {
            alloc,
            sent: List::new(alloc),
            polls: 0,
            closed: 0,
            left: polls,
            calls: Calls::new(failing),
        }
    }

    /// The texts that it has sent, in order.
    pub fn sent(&self) -> &[Text]
        ensures { result.now ≡ self.now.sent.items }
    {
        self.sent.as_slice()
    }
}

/// Appends a copy of a text to those that a wire in memory has sent. Returns whether there was
/// memory for it.
fn append(alloc: Global, sent: &mut List<Text>, text: &Text) -> bool
    ensures { sent.new.items
        ≡ (if result then sent.old.items ++ text.now ∷ [] else sent.old.items) }
{
    match text.copy(alloc) {
        Ok(copy) => sent.push(alloc, copy).is_ok(),
        Err(_full) => false,
    }
}

impl Wire for MemWire {
    ghost sent = { λ w. Some w.sent.items };

    ghost polls = { λ w. Some w.polls };

    ghost faults = { λ w. w.calls.faults };

    ghost closed = { λ w. w.closed };

    ghost follows = { λ _ _. Unit {0} };

    ghost still = { λ _. tt };

    ghost joins = { λ _ _ _ _ _. tt };

    fn send_text(&mut self, text: &Text) -> Result<(), WireFault>
        ensures sent { SendsText result text.now (Some self.old.sent.items)
            (Some self.new.sent.items) }
        ensures polls { Some self.new.polls ≡ Some self.old.polls }
        ensures faults { CountsErrors result self.old.calls.faults self.new.calls.faults }
        ensures closed { self.new.closed ≡ self.old.closed }
        ensures follows { Unit {0} }
        ensures listed { NextFails self.old.calls → IsErr result }
        ensures left { self.new.left ≡ self.old.left }
        ensures calls { IsNextCall result self.old.calls self.new.calls }
    {
        if self.calls.next_fails() {
            return Err(WireFault);
        }
        if !append(self.alloc, &mut self.sent, text) {
            self.calls.count();
            return Err(WireFault);
        }
        Ok(())
    }

    fn poll(&mut self) -> Result<Polled, WireFault>
        ensures sent { Some self.new.sent.items ≡ Some self.old.sent.items }
        ensures polls { CountsPolls result (Some self.old.polls) (Some self.new.polls) }
        ensures faults { CountsErrors result self.old.calls.faults self.new.calls.faults }
        ensures closed { CountsClosed result self.old.closed self.new.closed }
        ensures follows { Unit {0} }
        ensures fails { IsErr result ↔ NextFails self.old.calls }
        ensures found { IfOk result (λ polled. polled
            ≡ (if self.old.left == 0 then Polled.Closed else Polled.Nothing)) }
        ensures left { IfOk result (λ _. self.new.left ≡ self.old.left - 1) }
        ensures kept { OnErr result (self.new.left ≡ self.old.left) }
        ensures calls { IsNextCall result self.old.calls self.new.calls }
    {
        if self.calls.next_fails() {
            return Err(WireFault);
        }
        self.polls = self.polls.saturating_add(1);
        if self.left == 0 {
            self.closed = self.closed.saturating_add(1);
            return Ok(Polled::Closed);
        }
        self.left -= 1;
        Ok(Polled::Nothing)
    }
}
