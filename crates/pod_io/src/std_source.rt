//! [`StdSource`]: a source over a reader of the host.
ghost use Rattle.std.specs.Prelude.{◌≡◌, ◌<◌, ◌≤◌, None, length, IfOk};
ghost use Rattle.std.specs.Io.KnownBytes.{ReadConsumes};
ghost use Rattle.pod_io.specs.Counts.{CountsFaults, CountsReads, CountsEnds};
ghost use Rattle.pod_io.specs.Visible.{IfVisible, IsRead, Consumes};

use crate::source::{Failed, Source};
use std::io::Read;

/// A reader of the host. As a source it doesn't show its bytes; the reader may (clause `given`). It
/// counts its reads and its errors.
#[derive(Debug, Drop)]
pub struct StdSource<R: Drop> {
    reader: R,
    faults: u64,
    reads: u64,
    ends: u64,
}

impl<R: Drop> StdSource<R> {
    /// A source over that reader.
    pub fn new(reader: R) -> StdSource<R>
        ensures reader { result.reader ≡ reader }
        ensures faults { result.faults ≡ 0 }
        ensures reads { result.reads ≡ 0 }
        ensures ends { result.ends ≡ 0 }
    {
        StdSource {
            reader,
            faults: 0,
            reads: 0,
            ends: 0,
        }
    }
}

impl<R: Read + Drop> Source for StdSource<R> {
    ghost rest = { λ _. None };

    ghost faults = { λ s. s.faults };

    ghost reads = { λ s. s.reads };

    ghost ends = { λ s. s.ends };

    fn read(&mut self, into: &mut [u8]) -> Result<usize, Failed>
        requires { 0 < length into.old }
        ensures len { IfOk result (λ count. count ≤ length into.old) }
        ensures bytes { IfOk result (λ count. IfVisible None
            (λ rest. IsRead rest count into.old into.new)) }
        ensures rest { Consumes result None None }
        ensures faults { CountsFaults result self.old.faults self.new.faults }
        ensures reads { CountsReads result self.old.reads self.new.reads }
        ensures ends { CountsEnds result self.old.ends self.new.ends }

        // The bytes are the next ones of the reader, where it shows what it has left.
        ensures given { ReadConsumes (R.remaining self.old.reader) (R.remaining self.new.reader)
            result into.new }
    {
        match self.reader.read(into) {
            Ok(count) => {
                self.reads = self.reads.saturating_add(1);
                if count == 0 {
                    self.ends = self.ends.saturating_add(1);
                }
                Ok(count)
            }
            Err(_error) => {
                self.faults = self.faults.saturating_add(1);
                Err(Failed)
            }
        }
    }
}
