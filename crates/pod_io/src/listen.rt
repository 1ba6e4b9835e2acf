//! [`Listen`]: where the gates of a server come from, and where they go back.
ghost use Rattle.std.specs.Prelude.{◌≡◌, ◌<◌, ◌≤◌, ◌+◌, ℕ, List as ListOf, Option, IfOk, IsErrOf};
ghost use Rattle.std.specs.Prelude.{length};
ghost use Rattle.pod_base.specs.Counts.{CountIncreased};
ghost use Rattle.pod_io.specs.Gates.{TakesBack};
ghost use Rattle.pod_io.specs.declared.listen.TheConstants.{GATE_LIMIT};

use crate::gate::Gate;
use pod_base::List;
use std::alloc::Global;

/// Why a listener opened no gates.
#[derive(Clone, Copy, Debug, PartialEq, Eq)]
pub enum ListenFault {
    /// The call failed. The listener has counted it.
    Failed,
    /// Out of memory.
    NoMemory,
}

/// The most gates that a listener opens at once.
pub const GATE_LIMIT: usize = 64;

/// Where the gates of a server come from, one for each of its workers, and where they go back.
pub trait Listen {
    /// Where the connections of one worker come from.
    type Gate: Gate;

    /// The gates that the next call may open, in order.
    ghost may_open: { Self → ListOf Self.Gate → Type 0 };

    /// The gates that were given back, in order, where the listener shows them.
    ghost back: { Self → Option (ListOf Self.Gate) };

    /// How many gates it can take back at least.
    ghost room: { Self → ℕ };

    /// How many calls failed: a number of 64 bits, which never falls and stops at the last number.
    ghost faults: { Self → ℕ };

    /// Opens as many gates of the listener as there are workers, 1 to [`GATE_LIMIT`], for the
    /// connections to that port of this host.
    fn open(
        &mut self,
        alloc: Global,
        port: u16,
        workers: usize,
    ) -> Result<List<Self::Gate>, ListenFault>
        requires { (0 < workers) × (workers ≤ GATE_LIMIT) }
        ensures count { IfOk result (λ gates. length gates.items ≡ workers) }
        ensures opened { IfOk result (λ gates. may_open self.old gates.items) }
        ensures room { IfOk result (λ _. workers ≤ room self.new) }
        ensures back { back self.new ≡ back self.old }
        ensures no_fewer { faults self.old ≤ faults self.new }
        ensures failed { IsErrOf result ListenFault.Failed
            → CountIncreased (faults self.old) (faults self.new) };

    /// Takes back a gate that the listener opened.
    fn close(&mut self, gate: Self::Gate)
        requires { 0 < room self.old }
        ensures back { TakesBack gate (back self.old) (back self.new) }
        ensures room { room self.old ≤ room self.new + 1 }
        ensures faults { faults self.new ≡ faults self.old };
}
