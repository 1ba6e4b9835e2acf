//! [`Following`]: a follower, and the frames that it takes.
ghost use Rattle.std.specs.Prelude.{◌≡◌, ◌≤◌, ◌+◌, ◌++◌, ◌-◌, length, drop, false};
ghost use Rattle.std.specs.Prelude.{IfOk, IfErr, OnOk, OnErr, IsErrOf, IsTrue};
ghost use Rattle.pod_base.specs.Counts.{CountIncreased};
ghost use Rattle.podctl_commands.specs.FollowEnds.{IsTooLong, IsUnfinished};
ghost use Rattle.podctl_commands.specs.Steps.{FollowedOne, FollowedTo, Stopped, StoppedIn};

use crate::one_frame::take_body;
use pod_base::{Mem, NoMemory};
use pod_follow::{Follower, split_frame};
use pod_io::{Failed, Sink, write_all};
use std::alloc::Global;

/// The least first byte of a length of 2^63 or more. No disk holds such a record.
const TOO_LONG: u8 = 128;

/// Why frames are no longer taken.
#[derive(Clone, Copy, Debug, PartialEq, Eq)]
pub enum FrameFault {
    /// The frame was refused.
    Refused,
    /// The frame is longer than any record.
    TooLong,
    /// A write failed.
    WriteFault,
    NoMemory,
}

/// A follower, once it has started, and how many frames it has taken.
#[derive(Drop)]
pub struct Following {
    pub follower: Option<Follower>,
    pub frames: u64,
}

impl Following {
    /// Takes a frame of the input, and writes the response where it is a read.
    fn take_frame<K: Sink>(
        &mut self,
        alloc: Global,
        body: &[u8],
        output: &mut K,
    ) -> Result<(), FrameFault>
        ensures followed { OnOk result (FollowedOne self.old.follower body.now self.new.follower
            (K.taken output.old) (K.taken output.new)) }
        ensures frames { OnOk result (self.new.frames ≡ self.old.frames + 1) }
        ensures stopped { IfErr result (λ fault. StoppedIn fault self.old.follower body.now
            (K.taken output.old) (K.taken output.new)) }
        ensures kept { OnErr result (self.new.frames ≡ self.old.frames) }
        ensures failed { IsErrOf result FrameFault.WriteFault
            → CountIncreased (K.faults output.old) (K.faults output.new) }
        ensures counts { K.faults output.old ≤ K.faults output.new }
    {
        // No input is so long that this fails.
        let Some(frames) = self.frames.checked_add(1) else {
            return Err(FrameFault::NoMemory);
        };
        let Ok(found) = take_body(alloc, &mut self.follower, body) else {
            return Err(FrameFault::NoMemory);
        };
        let Some(text) = found else {
            return Err(FrameFault::Refused);
        };
        match write_all(output, text.as_slice()) {
            Ok(()) => {
                self.frames = frames;
                Ok(())
            }
            Err(Failed) => Err(FrameFault::WriteFault),
        }
    }

    /// Takes the whole frames with which bytes of the input begin, and returns how many bytes are
    /// left.
    fn take_frames<K: Sink>(
        &mut self,
        alloc: Global,
        bytes: &[u8],
        output: &mut K,
    ) -> Result<usize, FrameFault>
        ensures left { IfOk result (λ left. left ≤ length bytes.now) }
        ensures followed { IfOk result (λ left. FollowedTo self.old bytes.now
            (drop (length bytes.now - left) bytes.now) self.new
            (K.taken output.old) (K.taken output.new)) }
        ensures unfinished { IfOk result
            (λ left. IsUnfinished (drop (length bytes.now - left) bytes.now)) }
        ensures stopped { IfErr result (λ fault. Stopped fault self.old bytes.now self.new
            (K.taken output.old) (K.taken output.new)) }
        ensures failed { IsErrOf result FrameFault.WriteFault
            → CountIncreased (K.faults output.old) (K.faults output.new) }
        ensures counts { K.faults output.old ≤ K.faults output.new }
    {
        let mut rest = bytes;
        while let Some((body, more)) = split_frame(rest) {
            match self.take_frame(alloc, body, output) {
                Ok(()) => {}
                Err(fault) => return Err(fault),
            }
            rest = more;
        }
        if is_too_long(rest) {
            return Err(FrameFault::TooLong);
        }
        Ok(rest.len())
    }

    /// Takes the frames that a piece of the input makes whole, after the bytes that are kept, and
    /// keeps what is left.
    pub(crate) fn take_piece<K: Sink>(
        &mut self,
        alloc: Global,
        kept: &mut Vec<u8>,
        piece: &[u8],
        output: &mut K,
    ) -> Result<(), FrameFault>
        ensures followed { OnOk result (FollowedTo self.old (kept.old.items ++ piece.now)
            kept.new.items self.new (K.taken output.old) (K.taken output.new)) }
        ensures unfinished { OnOk result (IsUnfinished kept.new.items) }
        ensures stopped { IfErr result (λ fault. Stopped fault self.old
            (kept.old.items ++ piece.now) self.new (K.taken output.old) (K.taken output.new)) }
        ensures failed { IsErrOf result FrameFault.WriteFault
            → CountIncreased (K.faults output.old) (K.faults output.new) }
        ensures counts { K.faults output.old ≤ K.faults output.new }
    {
        match kept.extend_from_slice(piece) {
            Ok(()) => {}
            Err(_none) => return Err(FrameFault::NoMemory),
        }
        let left = self.take_frames(alloc, kept.as_slice(), output)?;
        match keep_last(alloc, kept, left) {
            Ok(()) => Ok(()),
            Err(NoMemory) => Err(FrameFault::NoMemory),
        }
    }
}

/// Whether a frame of the input is longer than any record, as the first byte of its length shows.
fn is_too_long(bytes: &[u8]) -> bool
    ensures yes { IsTrue result → IsTooLong bytes.now }
    ensures no { result ≡ false → IsTooLong bytes.now → ⊥ }
{
    match bytes.split_first() {
        Some((first, _rest)) => *first >= TOO_LONG,
        None => false,
    }
}

/// Keeps the last bytes of the input of frames, as many as `left`. It copies them only where others
/// come before them.
fn keep_last(alloc: Global, kept: &mut Vec<u8>, left: usize) -> Mem<()>
    requires { left ≤ length kept.old.items }
    ensures { OnOk result (kept.new.items
        ≡ drop (length kept.old.items - left) kept.old.items) }
{
    let from = kept.len() - left;
    if from == 0 {
        return Ok(());
    }
    let mut last = Vec::with_capacity(alloc, left)?;
    last.extend_from_slice(&kept[from..])?;
    *kept = last;
    Ok(())
}
