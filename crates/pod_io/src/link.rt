//! [`Link`]: one connection, which is read and written.
ghost use Rattle.std.specs.Prelude.{◌≡◌, ◌<◌, ◌≤◌, ℕ, List, Option, length, IfOk, IfErr};
ghost use Rattle.pod_base.specs.Counts.{CountIncreased};
ghost use Rattle.pod_io.specs.Counts.{next_count};
ghost use Rattle.pod_io.specs.Links.{CountsLinkRead, CountsLinkWrite};
ghost use Rattle.pod_io.specs.Visible.{IfVisible, IsRead, Consumes, Appends};

/// Why a call of a link gave nothing. The link has counted it.
#[derive(Clone, Copy, Debug, PartialEq, Eq)]
pub enum LinkFailed {
    /// The call failed.
    Failed,
    /// Nothing came while the read waited: a quiet time.
    Quiet,
}

/// How often the calls of a link ended in each way.
///
/// These are numbers of 64 bits, which stop at the last number.
#[derive(Clone, Copy, Debug, PartialEq, Eq)]
pub struct LinkCounts {
    /// The reads that succeeded: those that gave bytes, and those that found the end.
    pub reads: u64,
    /// The reads that found the end.
    pub ends: u64,
    /// The reads that failed.
    pub read_faults: u64,
    /// The writes that failed.
    pub write_faults: u64,
    /// The quiet times.
    pub quiet: u64,
    /// The quiet times since the last read that gave bytes.
    pub quiet_row: u64,
}

/// The count of a link's calls after one more, which stops at the last number.
fn one_more(count: u64) -> u64
    ensures value { result ≡ next_count count }
    ensures no_fewer { count ≤ result }
    ensures increased { CountIncreased count result }
{
    count.saturating_add(1)
}

impl LinkCounts {
    /// The counts of a link of which no call was made.
    pub fn new() -> LinkCounts
        ensures reads { result.reads ≡ 0 }
        ensures ends { result.ends ≡ 0 }
        ensures read_faults { result.read_faults ≡ 0 }
        ensures write_faults { result.write_faults ≡ 0 }
        ensures quiet { result.quiet ≡ 0 }
        ensures quiet_row { result.quiet_row ≡ 0 }
    {
        LinkCounts {
            reads: 0,
            ends: 0,
            read_faults: 0,
            write_faults: 0,
            quiet: 0,
            quiet_row: 0,
        }
    }

    /// Counts a read with this outcome.
    pub fn count_read(&mut self, outcome: Result<usize, LinkFailed>)
        ensures { CountsLinkRead outcome self.old self.new }
    {
        match outcome {
            Ok(count) => {
                self.reads = one_more(self.reads);
                if count == 0 {
                    self.ends = one_more(self.ends);
                } else {
                    self.quiet_row = 0;
                }
            }
            Err(LinkFailed::Failed) => self.read_faults = one_more(self.read_faults),
            Err(LinkFailed::Quiet) => {
                self.quiet = one_more(self.quiet);
                self.quiet_row = one_more(self.quiet_row);
            }
        }
    }

    /// Counts a write with this outcome.
    pub fn count_write(&mut self, outcome: Result<usize, LinkFailed>)
        ensures { CountsLinkWrite outcome self.old self.new }
    {
        if outcome.is_err() {
            self.write_faults = one_more(self.write_faults);
        }
    }
}

/// One connection: bytes come from the peer, and others go to it.
pub trait Link: Drop {
    ghost use Rattle.pod_io.specs.declared.link.LinkCounts.{LinkCounts};

    /// The bytes that are left to be read, where the link shows them.
    ghost rest: { Self → Option (List ℕ) };

    /// The bytes that it has sent, where the link shows them.
    ghost sent: { Self → Option (List ℕ) };

    /// How often its calls ended in each way.
    ghost counts: { Self → LinkCounts };

    /// Reads some bytes of the link to the start of `into`, which is not empty, and returns how
    /// many. Where there are none, the peer has ended. A read waits for bytes for at most one
    /// second or so, and then ends with [`LinkFailed::Quiet`].
    fn read(&mut self, into: &mut [u8]) -> Result<usize, LinkFailed>
        requires { 0 < length into.old }
        ensures len { IfOk result (λ count. count ≤ length into.old) }
        ensures bytes { IfOk result (λ count. IfVisible (rest self.old)
            (λ rest. IsRead rest count into.old into.new)) }
        ensures rest { Consumes result (rest self.old) (rest self.new) }
        ensures sent { sent self.new ≡ sent self.old }
        ensures counts { CountsLinkRead result (counts self.old) (counts self.new) };

    /// Writes a prefix of `piece`, which is not empty, to the link, and returns its length: at
    /// least one byte. It never ends with [`LinkFailed::Quiet`].
    fn write(&mut self, piece: &[u8]) -> Result<usize, LinkFailed>
        requires { 0 < length piece.now }
        ensures some { IfOk result (λ count. 0 < count) }
        ensures len { IfOk result (λ count. count ≤ length piece.now) }
        ensures sent { Appends result piece.now (sent self.old) (sent self.new) }
        ensures rest { rest self.new ≡ rest self.old }
        ensures never_quiet { IfErr result (λ failed. failed ≡ LinkFailed.Failed) }
        ensures counts { CountsLinkWrite result (counts self.old) (counts self.new) };
}
