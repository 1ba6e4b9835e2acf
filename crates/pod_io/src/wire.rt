//! [`Wire`]: texts to a peer.
ghost use Rattle.std.specs.Prelude.{◌≡◌, ℕ, List, Option};
ghost use Rattle.pod_io.specs.Wires.{SendsText, CountsPolls, CountsErrors, CountsClosed};

use pod_base::Text;

/// A text was not sent, or a poll failed. The wire has counted it.
#[derive(Clone, Copy, Debug, PartialEq, Eq)]
pub struct WireFault;

/// What a poll found.
#[derive(Clone, Copy, Debug, PartialEq, Eq)]
pub enum Polled {
    /// The wire is open.
    Nothing,
    /// The peer has closed the wire.
    Closed,
}

/// A wire by which texts are sent to a peer.
///
/// Its counts are numbers of 64 bits, which never fall and stop at the last number.
pub trait Wire {
    /// The texts that were sent, in order, where the wire shows them.
    ghost sent: { Self → Option (List (List ℕ)) };

    /// How many polls succeeded, where the wire shows its texts.
    ghost polls: { Self → Option ℕ };

    /// How many calls failed.
    ghost faults: { Self → ℕ };

    /// How many polls found the wire closed.
    ghost closed: { Self → ℕ };

    /// A wire is the same one as before, after some of its calls.
    ghost follows: { Self → Self → Type 0 };

    /// So it is after no call.
    ghost still: { (wire : Self) → follows wire wire };

    /// So it is after some calls, and then some more.
    ghost joins: { (a b c : Self) → follows a b → follows b c → follows a c };

    /// Sends a text on the wire.
    fn send_text(&mut self, text: &Text) -> Result<(), WireFault>
        ensures sent { SendsText result text.now (sent self.old) (sent self.new) }
        ensures polls { polls self.new ≡ polls self.old }
        ensures faults { CountsErrors result (faults self.old) (faults self.new) }
        ensures closed { closed self.new ≡ closed self.old }
        ensures follows { follows self.old self.new };

    /// Answers what came on the wire from the peer, and returns whether that has closed it. It
    /// waits for at most one second or so.
    fn poll(&mut self) -> Result<Polled, WireFault>
        ensures sent { sent self.new ≡ sent self.old }
        ensures polls { CountsPolls result (polls self.old) (polls self.new) }
        ensures faults { CountsErrors result (faults self.old) (faults self.new) }
        ensures closed { CountsClosed result (closed self.old) (closed self.new) }
        ensures follows { follows self.old self.new };
}
