//! [`MemSource`]: a source in memory.
ghost use Rattle.std.specs.Prelude.{◌≡◌, ◌<◌, ◌≤◌, ◌↔◌, Some, length, min, IsErr, IfOk};
ghost use Rattle.pod_io.specs.Counts.{CountsFaults, CountsReads, CountsEnds};
ghost use Rattle.pod_io.specs.Visible.{IfVisible, IsRead, Consumes};
ghost use Rattle.pod_io.specs.Memory.{NextFails, IsNextCall};

use crate::failing_calls::Calls;
use crate::source::{Failed, Source};
use std::marker::Model;

/// A source in memory, which shows the bytes that are left.
#[derive(Debug, Drop)]
pub struct MemSource {
    bytes: Vec<u8>,
    at: usize,
    piece: usize,
    reads: u64,
    ends: u64,
    calls: Calls,
}

impl Model for MemSource {
    ghost use Rattle.std.specs.Prelude.{drop, length, ◌≤◌, ◌<◌};
    ghost use Rattle.pod_io.specs.Memory.{SourceState};

    ghost Value = { SourceState };

    ghost view = { λ s. record {
      rest = drop s.at s.bytes.items;
      piece = s.piece;
      reads = s.reads;
      ends = s.ends;
      calls = s.calls;
    } };

    ghost invariant = { λ s. (s.at ≤ length s.bytes.items) × (0 < s.piece) };
}

impl MemSource {
    /// A source of these bytes, of which a read gives at most `piece` at a time. The reads of these
    /// numbers, from 1, fail, and no others do.
    pub fn new(bytes: Vec<u8>, piece: usize, failing: Vec<u64>) -> MemSource
        requires { 0 < piece }
        ensures rest { result.rest ≡ bytes.items }
        ensures piece { result.piece ≡ piece }
        ensures reads { result.reads ≡ 0 }
        ensures ends { result.ends ≡ 0 }
        ensures made { result.calls.made ≡ 0 }
        ensures failing { result.calls.failing ≡ failing.items }
        ensures faults { result.calls.faults ≡ 0 }
    {
        MemSource {
            bytes,
            at: 0,
            piece,
            reads: 0,
            ends: 0,
            calls: Calls::new(failing),
        }
    }

    /// The bytes that are left.
    pub fn rest(&self) -> &[u8]
        ensures { result.now ≡ self.now.rest }
    {
        &self.bytes[self.at..]
    }
}

impl Source for MemSource {
    ghost rest = { λ s. Some s.rest };

    ghost faults = { λ s. s.calls.faults };

    ghost reads = { λ s. s.reads };

    ghost ends = { λ s. s.ends };

    fn read(&mut self, into: &mut [u8]) -> Result<usize, Failed>
        requires { 0 < length into.old }
        ensures len { IfOk result (λ count. count ≤ length into.old) }
        ensures bytes { IfOk result (λ count. IfVisible (Some self.old.rest)
            (λ rest. IsRead rest count into.old into.new)) }
        ensures rest { Consumes result (Some self.old.rest) (Some self.new.rest) }
        ensures faults { CountsFaults result self.old.calls.faults self.new.calls.faults }
        ensures reads { CountsReads result self.old.reads self.new.reads }
        ensures ends { CountsEnds result self.old.ends self.new.ends }
        ensures fails { IsErr result ↔ NextFails self.old.calls }
        ensures count { IfOk result
            (λ count. count ≡ min (min (length self.old.rest) (length into.old)) self.old.piece) }
        ensures piece { self.new.piece ≡ self.old.piece }
        ensures calls { IsNextCall result self.old.calls self.new.calls }
    {
        if self.calls.next_fails() {
            return Err(Failed);
        }
        let rest = &self.bytes[self.at..];
        let count = rest.len().min(into.len()).min(self.piece);
        into[..count].copy_from_slice(&rest[..count]);
        self.at += count;
        self.reads = self.reads.saturating_add(1);
        if count == 0 {
            self.ends = self.ends.saturating_add(1);
        }
        Ok(count)
    }
}
