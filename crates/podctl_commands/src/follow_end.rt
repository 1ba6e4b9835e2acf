//! [`FollowEnd`]: how a run of a follower ends.
ghost use Rattle.std.specs.Prelude.{◌≡◌};
ghost use Rattle.podctl_commands.specs.FollowEnds.{status_of_follow_end};

use pod_pipe::Status;

/// How a run of a follower ended.
#[derive(Clone, Copy, Debug, PartialEq, Eq)]
pub enum FollowEnd {
    /// The input ended after a whole frame. The follower can apply the entry of this number next.
    Done { next: u64 },
    /// The frame of this number, from 0, was refused, isn't whole, is longer than any record, or is
    /// missing.
    BadFrame { frame: u64 },
    /// A read failed.
    ReadFault,
    /// A write failed.
    WriteFault,
    /// Out of memory.
    NoMemory,
    /// The limit on reads was reached.
    ReadLimit,
}

impl FollowEnd {
    /// The status of a `follow` that ended so.
    pub fn status(self) -> Status
        ensures { result.0 ≡ status_of_follow_end self }
    {
        match self {
            FollowEnd::Done { next: _ } => Status(0),
            FollowEnd::ReadFault => Status(3),
            FollowEnd::WriteFault => Status(4),
            FollowEnd::NoMemory => Status(7),
            FollowEnd::ReadLimit => Status(14),
            FollowEnd::BadFrame { frame: _ } => Status(15),
        }
    }
}
