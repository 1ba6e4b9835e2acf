//! Statuses, and how connections end.
ghost use Rattle.std.specs.Prelude.{◌≡◌};
ghost use Rattle.std.specs.Process.{exit_status};
ghost use Rattle.pod_pipe.specs.Statuses.{status_of};

use std::process::ExitCode;

/// The status of a program, as it ends.
#[derive(Clone, Copy, Debug, PartialEq, Eq)]
pub struct Status(pub u8);

impl Status {
    /// The arguments are invalid.
    pub const INVALID_ARGUMENTS: Status = Status(2);

    /// Out of memory, or of open files.
    pub const NO_MEMORY: Status = Status(7);

    /// The status as the process ends with it.
    pub fn exit_code(self) -> ExitCode
        ensures { exit_status result ≡ self.0 }
    {
        ExitCode::from(self.0)
    }
}

/// How a connection over two streams ended.
#[derive(Clone, Copy, Debug, PartialEq, Eq)]
pub enum PipeEnd {
    /// The input ended between messages.
    Peer,
    /// The input ended inside a message, after so many bytes of it.
    Cut { rest: usize },
    /// A request asked to close it, or has a version whose connections don't persist.
    Closed,
    /// The last request that a connection may have was answered.
    Limit,
    /// A request was answered by a switch of protocols.
    Upgraded,
    /// A malformed message was refused with that status.
    Bad { status: u16 },
    /// A read failed.
    ReadFault,
    /// A write failed.
    WriteFault,
    /// Out of memory.
    NoMemory,
    /// The limit on reads was reached.
    ReadLimit,
}

impl PipeEnd {
    /// The status of a connection that ended so.
    pub fn status(self) -> Status
        ensures { result.0 ≡ status_of self }
    {
        match self {
            PipeEnd::Peer | PipeEnd::Closed | PipeEnd::Limit | PipeEnd::Upgraded => Status(0),
            PipeEnd::ReadFault => Status(3),
            PipeEnd::WriteFault => Status(4),
            PipeEnd::NoMemory => Status(7),
            PipeEnd::Cut { rest: _ } => Status(12),
            PipeEnd::Bad { status: _ } => Status(13),
            PipeEnd::ReadLimit => Status(14),
        }
    }
}
