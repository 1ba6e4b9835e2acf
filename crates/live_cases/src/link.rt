//! [`ScriptLink`]: a connection whose reads and writes follow a script, and wait for other
//! connections.
ghost use Rattle.std.specs.Prelude.{◌≡◌, ◌<◌, ◌≤◌, None, length, IfOk, IfErr};

use pod_base::Mem;
use pod_io::{Link, LinkCounts, LinkFailed};
use std::alloc::Global;
use std::sync::Arc;
use std::sync::atomic::{AtomicU64, Ordering};

/// How often a read that waits loads the flags at most.
const TURNS: u64 = 1_000_000_000;

/// One bit for each flag that is raised.
pub(crate) type Flags = Arc<AtomicU64>;

/// What a read does.
#[derive(Drop)]
pub(crate) enum Action {
    /// It gives these bytes as far as it has room, and the next read gives the others.
    Give(Vec<u8>),
    /// It is a quiet time.
    Quiet,
    /// It fails.
    Break,
    /// It raises these flags first.
    Raise(u64),
    /// It waits first until these flags are raised.
    Wait(u64),
}

/// Whether these flags were raised before the turns ran out.
fn wait_for(flags: &AtomicU64, mask: u64) -> bool {
    for _ in 0..TURNS {
        if flags.load(Ordering::SeqCst) & mask == mask {
            return true;
        }
    }
    false
}

/// Copies the bytes from a position on, as far as there is room, and returns how many.
fn copy_from(bytes: &[u8], from: usize, into: &mut [u8]) -> usize
    ensures { result ≤ length into.old }
{
    let rest = &bytes[from.min(bytes.len())..];
    let count = rest.len().min(into.len());
    into[..count].copy_from_slice(&rest[..count]);
    count
}

/// What the reads of a connection do, and how far it was read.
#[derive(Drop)]
struct Script {
    flags: Flags,
    actions: Vec<Action>,
    next: usize,
    // How many bytes of the next action were given.
    given: usize,
    // Whether the end was read.
    ended: bool,
    // Whether a flag was waited for in vain.
    stuck: bool,
}

impl Script {
    /// Raises flags and waits for flags up to the next action of another kind. Returns whether all
    /// that it waited for were raised.
    fn meet(&mut self) -> bool {
        for _ in 0..self.actions.len() {
            match self.actions.get(self.next) {
                Some(Action::Raise(mask)) => {
                    self.flags.fetch_or(*mask, Ordering::SeqCst);
                }
                Some(Action::Wait(mask)) => {
                    if !wait_for(&self.flags, *mask) {
                        return false;
                    }
                }
                _ => return true,
            }
            self.next = self.next.saturating_add(1);
        }
        true
    }

    /// Gives the bytes that are left of the next action.
    fn give(&mut self, into: &mut [u8]) -> usize
        ensures { result ≤ length into.old }
    {
        let Some(Action::Give(bytes)) = self.actions.get(self.next) else {
            return 0;
        };
        let count = copy_from(bytes, self.given, into);
        self.given = self.given.saturating_add(count);
        if self.given >= bytes.len() {
            self.given = 0;
            self.next = self.next.saturating_add(1);
        }
        count
    }

    /// Reads what the next action gives.
    fn read(&mut self, into: &mut [u8]) -> Result<usize, LinkFailed>
        ensures { IfOk result (λ count. count ≤ length into.old) }
    {
        if !self.meet() {
            self.stuck = true;
            return Err(LinkFailed::Failed);
        }
        match self.actions.get(self.next) {
            None => {
                self.ended = true;
                Ok(0)
            }
            Some(Action::Give(_bytes)) => Ok(self.give(into)),
            Some(Action::Quiet) => {
                self.next = self.next.saturating_add(1);
                Err(LinkFailed::Quiet)
            }
            _ => {
                self.next = self.next.saturating_add(1);
                Err(LinkFailed::Failed)
            }
        }
    }
}

/// What the writes of a connection do, and what they took.
#[derive(Drop)]
struct Output {
    sent: Vec<u8>,
    piece: usize,
    writes: u64,
    // The number of the write that fails, from 1; none where it is 0.
    stop: u64,
}

impl Output {
    /// Takes a prefix of a piece.
    fn take(&mut self, piece: &[u8]) -> Result<usize, LinkFailed>
        requires { 0 < length piece.now }
        ensures some { IfOk result (λ count. 0 < count) }
        ensures len { IfOk result (λ count. count ≤ length piece.now) }
        ensures never_quiet { IfErr result (λ failed. failed ≡ LinkFailed.Failed) }
    {
        self.writes = self.writes.saturating_add(1);
        if self.writes == self.stop {
            return Err(LinkFailed::Failed);
        }
        let count = piece.len().min(self.piece.max(1));
        match self.sent.extend_from_slice(&piece[..count]) {
            Ok(()) => Ok(count),
            Err(_) => Err(LinkFailed::Failed),
        }
    }
}

/// A connection in memory whose reads follow a script. It shares flags with others: it waits for
/// some, and raises others. It doesn't show its bytes to contracts.
#[derive(Drop)]
pub(crate) struct ScriptLink {
    pub(crate) name: String,
    script: Script,
    output: Output,
    // The flags that each write raises.
    raises: u64,
    counts: LinkCounts,
}

impl ScriptLink {
    /// A connection that ends at once, and whose writes take all.
    pub(crate) fn new(alloc: Global, name: &str, flags: &Flags) -> Mem<ScriptLink> {
        Ok(ScriptLink {
            name: String::from_str(alloc, name)?,
            script: Script {
                flags: Arc::try_clone(flags)?,
                actions: Vec::new(alloc),
                next: 0,
                given: 0,
                ended: false,
                stuck: false,
            },
            output: Output {
                sent: Vec::new(alloc),
                piece: usize::MAX,
                writes: 0,
                stop: 0,
            },
            raises: 0,
            counts: LinkCounts::new(),
        })
    }

    /// Adds an action after the others.
    pub(crate) fn push(&mut self, action: Action) -> Mem<()> {
        self.script.actions.push(action)?;
        Ok(())
    }

    /// Has each write raise these flags, too.
    pub(crate) fn raise_on_write(&mut self, mask: u64) {
        self.raises |= mask;
    }

    /// Has a write take at most so many bytes.
    pub(crate) fn cut_writes(&mut self, piece: usize) {
        self.output.piece = piece;
    }

    /// Has the write of that number fail, from 1.
    pub(crate) fn stop_at(&mut self, write: u64) {
        self.output.stop = write;
    }

    /// What was sent.
    pub(crate) fn sent(&self) -> &[u8] {
        self.output.sent.as_slice()
    }

    /// Whether the end was read.
    pub(crate) fn has_ended(&self) -> bool {
        self.script.ended
    }

    /// Whether it waited for a flag in vain.
    pub(crate) fn is_stuck(&self) -> bool {
        self.script.stuck
    }

    /// How many actions are left.
    pub(crate) fn left(&self) -> usize {
        self.script.actions.len().saturating_sub(self.script.next)
    }
}

impl Link for ScriptLink {
    ghost rest = { λ _. None };

    ghost sent = { λ _. None };

    ghost counts = { λ l. l.counts };

    fn read(&mut self, into: &mut [u8]) -> Result<usize, LinkFailed> {
        let outcome = self.script.read(into);
        self.counts.count_read(outcome);
        outcome
    }

    fn write(&mut self, piece: &[u8]) -> Result<usize, LinkFailed> {
        let outcome = self.output.take(piece);
        if outcome.is_ok() {
            self.script.flags.fetch_or(self.raises, Ordering::SeqCst);
        }
        self.counts.count_write(outcome);
        outcome
    }
}
