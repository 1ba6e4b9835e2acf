//! `follow`: a follower over the streams of a run.
ghost use Rattle.std.specs.Prelude.{◌≢◌};
ghost use Rattle.pod_pipe.specs.CountedFaults.{StreamFaultsCounted, no_table};
ghost use Rattle.pod_pipe.specs.RunStreams.{streams_of};
ghost use Rattle.pod_tool.specs.Follows.{FollowsStreams};

use pod_io::{Sink, Source};
use pod_pipe::Status;
use podctl_commands::follow;
use std::alloc::Global;

/// Runs the tool's command `follow` over its streams: reads frames, keeps the pod that they give,
/// and writes the response to each read.
pub(crate) fn follow_streams<S: Source, K: Sink, E: Sink>(
    alloc: Global,
    input: &mut S,
    output: &mut K,
    errors: &mut E,
) -> Status
    ensures not_invalid { result.0 ≢ 2 }
    ensures no_disk { result.0 ≢ 6 }
    ensures runs { FollowsStreams
        (streams_of S.rest S.faults S.reads S.ends K.taken K.faults E.taken E.faults
        input.old input.new output.old output.new errors.old errors.new) result.0 }
    ensures counted { StreamFaultsCounted no_table
        (streams_of S.rest S.faults S.reads S.ends K.taken K.faults E.taken E.faults
        input.old input.new output.old output.new errors.old errors.new) result.0 }
{
    follow(alloc, input, output, errors).status()
}
