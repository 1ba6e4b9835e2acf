//! [`follow`]: a follower over two streams.
ghost use Rattle.std.specs.Prelude.{◌≡◌, ◌≤◌, ◌<◌, length};
ghost use Rattle.pod_base.specs.Counts.{CountIncreased};
ghost use Rattle.pod_pipe.specs.CountedFaults.{StreamFaultsCounted, no_table};
ghost use Rattle.pod_pipe.specs.RunStreams.{streams_of};
ghost use Rattle.podctl_commands.specs.FollowEnds.{CountsFrames, FollowsInput, ReportsFollowEnd};
ghost use Rattle.podctl_commands.specs.FollowEnds.{status_of_follow_end};
ghost use Rattle.podctl_commands.specs.Steps.{end_at, fault_end};

use crate::follow_end::FollowEnd;
use crate::follow_end_line::write_end_line;
use crate::frame_input::{Following, FrameFault};
use pod_io::{Sink, Source};
use std::alloc::Global;

/// The most bytes that one read requests.
const PIECE_LIMIT: usize = 65_536;

/// The most reads of one input.
const READ_LIMIT: u64 = 1 << 40;

/// Ends the command `follow` where the input ended: after whole frames alone, or not.
fn at_end(following: &Following, is_whole: bool) -> FollowEnd
    ensures { result ≡ end_at following.now is_whole }
{
    match &following.follower {
        Some(follower) if is_whole => FollowEnd::Done {
            next: follower.next(),
        },
        _ => FollowEnd::BadFrame {
            frame: following.frames,
        },
    }
}

/// Ends the command `follow` where frames are no longer taken.
fn fault_end(fault: FrameFault, frames: u64) -> FollowEnd
    ensures { result ≡ fault_end fault frames }
{
    match fault {
        FrameFault::Refused => FollowEnd::BadFrame { frame: frames },
        FrameFault::TooLong => FollowEnd::BadFrame { frame: frames },
        FrameFault::WriteFault => FollowEnd::WriteFault,
        FrameFault::NoMemory => FollowEnd::NoMemory,
    }
}

/// Takes the frames of the input of the command `follow`. Each piece is taken before the next one
/// is read.
fn take_input<S: Source, K: Sink>(alloc: Global, input: &mut S, output: &mut K) -> FollowEnd
    ensures follows { FollowsInput result (S.rest input.old) (S.rest input.new)
        (K.taken output.old) (K.taken output.new) }
    ensures counts { CountsFrames result (S.reads input.old) (S.reads input.new)
        (S.ends input.old) (S.ends input.new) }
    ensures read_fault { result ≡ FollowEnd.ReadFault
        → CountIncreased (S.faults input.old) (S.faults input.new) }
    ensures write_fault { result ≡ FollowEnd.WriteFault
        → CountIncreased (K.faults output.old) (K.faults output.new) }
    ensures input_faults { S.faults input.old ≤ S.faults input.new }
    ensures output_faults { K.faults output.old ≤ K.faults output.new }
{
    let mut following = Following {
        follower: None,
        frames: 0,
    };
    let mut kept = Vec::new(alloc);
    let mut piece = [0u8; PIECE_LIMIT];
    'reads: for _ in 0..READ_LIMIT {
        let Ok(count) = input.read(&mut piece) else {
            return FollowEnd::ReadFault;
        };
        if count == 0 {
            return at_end(&following, kept.as_slice().is_empty());
        }
        match following.take_piece(alloc, &mut kept, &piece[..count], output) {
            Ok(()) => {}
            Err(fault) => return fault_end(fault, following.frames),
        }
    }
    FollowEnd::ReadLimit
}

/// Follows a pod by the frames of an input: reads frames, keeps the pod that they give, and writes
/// the response to each read. A last line on the error sink reports how that ended:
/// `follow: next=N`, or `frame K` for the frame that was refused, isn't whole, or is missing. What
/// is kept of a frame that isn't whole yet is what came of it, and one longer than any record is
/// refused by its first byte.
///
/// A snapshot starts the follower, or starts it anew. An entry that isn't the next one is passed
/// over. Each response is written before the next piece of the input is read.
pub fn follow<S: Source, K: Sink, E: Sink>(
    alloc: Global,
    input: &mut S,
    output: &mut K,
    errors: &mut E,
) -> FollowEnd
    // The frames that were read, the responses that were written, and what came then.
    ensures follows { FollowsInput result (S.rest input.old) (S.rest input.new)
        (K.taken output.old) (K.taken output.new) }
    ensures told { ReportsFollowEnd result (E.taken errors.old) (E.taken errors.new) (E.faults errors.old)
        (E.faults errors.new) }
    ensures counts { CountsFrames result (S.reads input.old) (S.reads input.new)
        (S.ends input.old) (S.ends input.new) }

    // It ends by a fault only where a count increased.
    ensures counted { StreamFaultsCounted no_table
        (streams_of S.rest S.faults S.reads S.ends K.taken K.faults E.taken E.faults
        input.old input.new output.old output.new errors.old errors.new)
        (status_of_follow_end result) }
{
    let end = take_input(alloc, input, output);
    write_end_line(end, errors)
}
