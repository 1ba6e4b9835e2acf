//! [`Sink`]: where bytes go to.
ghost use Rattle.std.specs.Prelude.{◌≡◌, ◌<◌, ◌≤◌, ℕ, List, Option, length, IfOk};
ghost use Rattle.pod_io.specs.Counts.{CountsFaults};
ghost use Rattle.pod_io.specs.Visible.{Appends};

use crate::source::Failed;

/// Where bytes go to.
pub trait Sink {
    /// The bytes that it has taken, where the sink shows them.
    ghost taken: { Self → Option (List ℕ) };

    /// How many writes failed: a number of 64 bits, which never falls and stops at the last number.
    ghost faults: { Self → ℕ };

    /// Writes a prefix of `piece`, which is not empty, to the sink, and returns its length: at
    /// least one byte.
    fn write(&mut self, piece: &[u8]) -> Result<usize, Failed>
        requires { 0 < length piece.now }
        ensures some { IfOk result (λ count. 0 < count) }
        ensures len { IfOk result (λ count. count ≤ length piece.now) }
        ensures taken { Appends result piece.now (taken self.old) (taken self.new) }
        ensures faults { CountsFaults result (faults self.old) (faults self.new) };
}
