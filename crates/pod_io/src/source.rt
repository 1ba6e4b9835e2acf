//! [`Source`]: where bytes come from.
ghost use Rattle.std.specs.Prelude.{◌≡◌, ◌<◌, ◌≤◌, ℕ, List, Option, length, IfOk};
ghost use Rattle.pod_io.specs.Counts.{CountsFaults, CountsReads, CountsEnds};
ghost use Rattle.pod_io.specs.Visible.{IfVisible, IsRead, Consumes};

/// A call that failed. The object that was called has counted it.
#[derive(Clone, Copy, Debug, PartialEq, Eq)]
pub struct Failed;

/// Where bytes come from.
///
/// Its counts are numbers of 64 bits, which never fall and stop at the last number.
pub trait Source {
    /// The bytes that are left, where the source shows them.
    ghost rest: { Self → Option (List ℕ) };

    /// How many reads failed.
    ghost faults: { Self → ℕ };

    /// How many reads succeeded: those that gave bytes, and those that found the end.
    ghost reads: { Self → ℕ };

    /// How many reads found the end: they succeeded, and gave no byte.
    ghost ends: { Self → ℕ };

    /// Reads some bytes of the source to the start of `into`, which is not empty, and returns how
    /// many. Where there are none, the source is at its end.
    fn read(&mut self, into: &mut [u8]) -> Result<usize, Failed>
        requires { 0 < length into.old }
        ensures len { IfOk result (λ count. count ≤ length into.old) }
        ensures bytes { IfOk result (λ count. IfVisible (rest self.old)
            (λ rest. IsRead rest count into.old into.new)) }
        ensures rest { Consumes result (rest self.old) (rest self.new) }
        ensures faults { CountsFaults result (faults self.old) (faults self.new) }
        ensures reads { CountsReads result (reads self.old) (reads self.new) }
        ensures ends { CountsEnds result (ends self.old) (ends self.new) };
}
