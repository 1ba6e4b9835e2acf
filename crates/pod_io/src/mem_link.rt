//! [`MemLink`]: a link in memory.
ghost use Rattle.std.specs.Prelude.{◌≡◌, ◌<◌, ◌≤◌, ◌↔◌, ◌⊎◌, Some, length, IsErr, IfOk, IfErr, IsErrOf};
ghost use Rattle.pod_io.specs.Links.{CountsLinkRead, CountsLinkWrite};
ghost use Rattle.pod_io.specs.Memory.{NextFails, IsNextCall, next_call};
ghost use Rattle.pod_io.specs.Visible.{IfVisible, IsRead, Consumes, Appends};

use crate::failing_calls::Calls;
use crate::link::{Link, LinkCounts, LinkFailed};
use crate::mem_sink::MemSink;
use crate::mem_source::MemSource;
use crate::sink::Sink;
use crate::source::Source;

/// A link in memory: a source of the bytes that come, a sink of those that are sent, and the reads
/// that are quiet times. It shows what is left and what it has sent.
#[derive(Debug, Drop)]
pub struct MemLink {
    source: MemSource,
    sink: MemSink,
    silence: Calls,
    counts: LinkCounts,
}

impl MemLink {
    /// A link that reads from that source and writes to that sink. The reads of these numbers, from
    /// 1, are quiet times; the source numbers the others. A call fails where that of the source or
    /// of the sink does.
    pub fn new(source: MemSource, sink: MemSink, quiet: Vec<u64>) -> MemLink
        ensures source { result.source ≡ source }
        ensures sink { result.sink ≡ sink }
        ensures made { result.silence.made ≡ 0 }
        ensures quiet { result.silence.failing ≡ quiet.items }
        ensures reads { result.counts.reads ≡ 0 }
        ensures ends { result.counts.ends ≡ 0 }
        ensures read_faults { result.counts.read_faults ≡ 0 }
        ensures write_faults { result.counts.write_faults ≡ 0 }
        ensures quiet_times { result.counts.quiet ≡ 0 }
        ensures quiet_row { result.counts.quiet_row ≡ 0 }
    {
        MemLink {
            source,
            sink,
            silence: Calls::new(quiet),
            counts: LinkCounts::new(),
        }
    }

    /// The bytes that are left.
    pub fn rest(&self) -> &[u8]
        ensures { result.now ≡ self.now.source.rest }
    {
        self.source.rest()
    }

    /// The bytes that it has sent.
    pub fn sent(&self) -> &[u8]
        ensures { result.now ≡ self.now.sink.taken }
    {
        self.sink.taken()
    }
}

impl Link for MemLink {
    ghost rest = { λ l. Some l.source.rest };

    ghost sent = { λ l. Some l.sink.taken };

    ghost counts = { λ l. l.counts };

    fn read(&mut self, into: &mut [u8]) -> Result<usize, LinkFailed>
        requires { 0 < length into.old }
        ensures len { IfOk result (λ count. count ≤ length into.old) }
        ensures bytes { IfOk result (λ count. IfVisible (Some self.old.source.rest)
            (λ rest. IsRead rest count into.old into.new)) }
        ensures rest { Consumes result (Some self.old.source.rest) (Some self.new.source.rest) }
        ensures sent { Some self.new.sink.taken ≡ Some self.old.sink.taken }
        ensures counts { CountsLinkRead result self.old.counts self.new.counts }
        ensures sink { self.new.sink ≡ self.old.sink }
        ensures quiet { IsErrOf result LinkFailed.Quiet ↔ NextFails self.old.silence }
        ensures fails { IsErr result
            ↔ (NextFails self.old.silence ⊎ NextFails self.old.source.calls) }
        ensures kept { NextFails self.old.silence → self.new.source ≡ self.old.source }
        ensures calls { NextFails self.old.silence
            ⊎ IsNextCall result self.old.source.calls self.new.source.calls }
        ensures piece { self.new.source.piece ≡ self.old.source.piece }
        ensures numbered { self.new.silence.made ≡ next_call self.old.silence }
        ensures listed { self.new.silence.failing ≡ self.old.silence.failing }
    {
        let outcome = if self.silence.next_fails() {
            Err(LinkFailed::Quiet)
        } else {
            self.source.read(into).map_err(|_| LinkFailed::Failed)
        };
        self.counts.count_read(outcome);
        outcome
    }

    fn write(&mut self, piece: &[u8]) -> Result<usize, LinkFailed>
        requires { 0 < length piece.now }
        ensures some { IfOk result (λ count. 0 < count) }
        ensures len { IfOk result (λ count. count ≤ length piece.now) }
        ensures sent { Appends result piece.now (Some self.old.sink.taken)
            (Some self.new.sink.taken) }
        ensures rest { Some self.new.source.rest ≡ Some self.old.source.rest }
        ensures never_quiet { IfErr result (λ failed. failed ≡ LinkFailed.Failed) }
        ensures counts { CountsLinkWrite result self.old.counts self.new.counts }
        ensures source { self.new.source ≡ self.old.source }
        ensures silence { self.new.silence ≡ self.old.silence }
        ensures listed { NextFails self.old.sink.calls → IsErr result }
        ensures calls { IsNextCall result self.old.sink.calls self.new.sink.calls }
        ensures piece { self.new.sink.piece ≡ self.old.sink.piece }
    {
        let outcome = self.sink.write(piece).map_err(|_| LinkFailed::Failed);
        self.counts.count_write(outcome);
        outcome
    }
}
