//! [`Gate`]: where connections come from, and where they go back.
ghost use Rattle.std.specs.Prelude.{◌≡◌, ◌<◌, ◌≤◌, ◌+◌, ℕ, List, Option, IfOk, IsSome};
ghost use Rattle.pod_io.specs.Counts.{CountsFaults};
ghost use Rattle.pod_io.specs.Gates.{GivesFirst, TakesBack, CountsGiven, CountsLast};

use crate::link::Link;
use crate::source::Failed;

/// Where connections come from, one after the other, and where they go back.
///
/// Its counts are numbers of 64 bits, which never fall and stop at the last number.
pub trait Gate: Drop {
    /// A connection. It may go to another thread with its gate.
    type Conn: Link + Send;

    /// The connections that it is yet to give, in order, where the gate shows them.
    ghost rest: { Self → Option (List Self.Conn) };

    /// The connections that were given back, in order, where the gate shows them.
    ghost back: { Self → Option (List Self.Conn) };

    /// How many connections it can take back at least.
    ghost room: { Self → ℕ };

    /// How many calls failed.
    ghost faults: { Self → ℕ };

    /// How many connections it gave.
    ghost given: { Self → ℕ };

    /// How many calls found no more connections.
    ghost ends: { Self → ℕ };

    /// The next connection at the gate, or `None` at the end of the connections. It may wait for
    /// one.
    fn next(&mut self) -> Result<Option<Self::Conn>, Failed>
        ensures rest { GivesFirst result (rest self.old) (rest self.new) }
        ensures back { back self.new ≡ back self.old }
        ensures room { IfOk result (λ found. IsSome found → 0 < room self.new) }
        ensures no_less_room { room self.old ≤ room self.new }
        ensures faults { CountsFaults result (faults self.old) (faults self.new) }
        ensures given { CountsGiven result (given self.old) (given self.new) }
        ensures ends { CountsLast result (ends self.old) (ends self.new) };

    /// Takes back a connection that the gate gave.
    fn done(&mut self, conn: Self::Conn)
        requires { 0 < room self.old }
        ensures back { TakesBack conn (back self.old) (back self.new) }
        ensures room { room self.old ≤ room self.new + 1 }
        ensures rest { rest self.new ≡ rest self.old }
        ensures faults { faults self.new ≡ faults self.old }
        ensures given { given self.new ≡ given self.old }
        ensures ends { ends self.new ≡ ends self.old };
}
