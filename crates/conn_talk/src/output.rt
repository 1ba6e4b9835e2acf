//! [`Output`]: where the responses of a connection go.
ghost use Rattle.std.specs.Prelude.{◌≡◌, ◌<◌, ◌≤◌, ℕ, List, Option, length, IfOk};
ghost use Rattle.pod_io.specs.Counts.{CountsFaults};
ghost use Rattle.pod_io.specs.Visible.{Appends};

use pod_io::{Failed, Sink};

/// Where the responses of a connection go. It may hold bytes back until it is flushed.
///
/// Every [`Sink`] is an output that holds nothing back.
pub trait Output {
    /// The bytes that it has taken, where it shows them: those that it sent, and then those that it
    /// holds back.
    ghost taken: { Self → Option (List ℕ) };

    /// How many writes failed: a number of 64 bits, which never falls and stops at the last number.
    ghost faults: { Self → ℕ };

    /// What an output is after calls: at least what it borrows is the same.
    ghost follows: { Self → Self → Type 0 };

    /// Takes a prefix of `piece`, bytes of a response, which is not empty, and returns its length:
    /// at least one byte.
    fn write(&mut self, piece: &[u8]) -> Result<usize, Failed>
        requires { 0 < length piece.now }
        ensures some { IfOk result (λ count. 0 < count) }
        ensures len { IfOk result (λ count. count ≤ length piece.now) }
        ensures taken { Appends result piece.now (taken self.old) (taken self.new) }
        ensures faults { CountsFaults result (faults self.old) (faults self.new) }
        ensures follows { follows self.old self.new };

    /// Sends what the output holds back of the responses. It takes no memory.
    fn flush(&mut self) -> Result<(), Failed>
        ensures taken { taken self.new ≡ taken self.old }
        ensures faults { CountsFaults result (faults self.old) (faults self.new) }
        ensures follows { follows self.old self.new };

    /// `follows` is reflexive and transitive.
    ghost still: { (output : Self) → follows output output };

    ghost joins: { (a b c : Self) → follows a b → follows b c → follows a c };
}

impl<K: Sink> Output for K {
    ghost taken = { K.taken };

    ghost faults = { K.faults };

    ghost follows = { λ _ _. Unit {0} };

    fn write(&mut self, piece: &[u8]) -> Result<usize, Failed> {
        Sink::write(self, piece)
    }

    fn flush(&mut self) -> Result<(), Failed> {
        Ok(())
    }

    ghost still = { λ _. tt };

    ghost joins = { λ _ _ _ _ _. tt };
}
