//! [`MemSink`]: a sink in memory.
ghost use Rattle.std.specs.Prelude.{◌≡◌, ◌<◌, ◌≤◌, [], Some, length, min, IsErr, IfOk};
ghost use Rattle.pod_io.specs.Counts.{CountsFaults};
ghost use Rattle.pod_io.specs.Visible.{Appends};
ghost use Rattle.pod_io.specs.Memory.{NextFails, IsNextCall};

use crate::failing_calls::Calls;
use crate::sink::Sink;
use crate::source::Failed;
use std::alloc::Global;
use std::marker::Model;

/// A sink in memory, which shows the bytes that it has taken.
#[derive(Debug, Drop)]
pub struct MemSink {
    taken: Vec<u8>,
    piece: usize,
    calls: Calls,
}

impl Model for MemSink {
    ghost use Rattle.std.specs.Prelude.{◌<◌};
    ghost use Rattle.pod_io.specs.Memory.{SinkState};

    ghost Value = { SinkState };

    ghost view = { λ s. record { taken = s.taken.items; piece = s.piece; calls = s.calls } };

    ghost invariant = { λ s. 0 < s.piece };
}

impl MemSink {
    /// A sink that has taken nothing, of which a write takes at most `piece` bytes at a time. The
    /// writes of these numbers, from 1, fail. Another one fails only when out of memory.
    pub fn new(alloc: Global, piece: usize, failing: Vec<u64>) -> MemSink
        requires { 0 < piece }
        ensures taken { result.taken ≡ [] }
        ensures piece { result.piece ≡ piece }
        ensures made { result.calls.made ≡ 0 }
        ensures failing { result.calls.failing ≡ failing.items }
        ensures faults { result.calls.faults ≡ 0 }
    {
        MemSink {
            taken: Vec::new(alloc),
            piece,
            calls: Calls::new(failing),
        }
    }

    /// The bytes that it has taken.
    pub fn taken(&self) -> &[u8]
        ensures { result.now ≡ self.now.taken }
    {
        self.taken.as_slice()
    }
}

impl Sink for MemSink {
    ghost taken = { λ s. Some s.taken };

    ghost faults = { λ s. s.calls.faults };

    fn write(&mut self, piece: &[u8]) -> Result<usize, Failed>
        requires { 0 < length piece.now }
        ensures some { IfOk result (λ count. 0 < count) }
        ensures len { IfOk result (λ count. count ≤ length piece.now) }
        ensures taken { Appends result piece.now (Some self.old.taken) (Some self.new.taken) }
        ensures faults { CountsFaults result self.old.calls.faults self.new.calls.faults }
        ensures listed { NextFails self.old.calls → IsErr result }
        ensures count { IfOk result (λ count. count ≡ min (length piece.now) self.old.piece) }
        ensures piece { self.new.piece ≡ self.old.piece }
        ensures calls { IsNextCall result self.old.calls self.new.calls }
    {
        if self.calls.next_fails() {
            return Err(Failed);
        }
        let count = piece.len().min(self.piece);
        if self.taken.extend_from_slice(&piece[..count]).is_err() {
            self.calls.count();
            return Err(Failed);
        }
        Ok(count)
    }
}
