//! [`StdSink`]: a sink over a writer of the host.
ghost use Rattle.std.specs.Prelude.{◌≡◌, ◌<◌, ◌≤◌, None, length, IfOk};
ghost use Rattle.std.specs.Io.KnownBytes.{WriteAppends};
ghost use Rattle.pod_io.specs.Counts.{CountsFaults};
ghost use Rattle.pod_io.specs.Visible.{Appends};

use crate::sink::Sink;
use crate::source::Failed;
use std::io::Write;

/// A writer of the host. As a sink it doesn't show the bytes that it takes; the writer may (clause
/// `written`). It counts its errors. A write that takes no byte is one of them.
#[derive(Debug, Drop)]
pub struct StdSink<W: Drop> {
    writer: W,
    faults: u64,
}

impl<W: Drop> StdSink<W> {
    /// A sink over that writer.
    pub fn new(writer: W) -> StdSink<W>
        ensures writer { result.writer ≡ writer }
        ensures faults { result.faults ≡ 0 }
    {
        StdSink { writer, faults: 0 }
    }
}

impl<W: Write + Drop> Sink for StdSink<W> {
    ghost taken = { λ _. None };

    ghost faults = { λ s. s.faults };

    fn write(&mut self, piece: &[u8]) -> Result<usize, Failed>
        requires { 0 < length piece.now }
        ensures some { IfOk result (λ count. 0 < count) }
        ensures len { IfOk result (λ count. count ≤ length piece.now) }
        ensures taken { Appends result piece.now None None }
        ensures faults { CountsFaults result self.old.faults self.new.faults }

        // The writer has the bytes, where it shows what it has.
        ensures written { WriteAppends (W.contents self.old.writer) (W.contents self.new.writer)
            result piece.now }
    {
        match self.writer.write(piece) {
            Ok(count) if count > 0 => Ok(count),
            _ => {
                self.faults = self.faults.saturating_add(1);
                Err(Failed)
            }
        }
    }
}
