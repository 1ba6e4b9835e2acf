//! The last line of a run, on the error sink.
ghost use Rattle.std.specs.Prelude.{◌≡◌, ◌≤◌, ◌⊎◌};
ghost use Rattle.pod_base.specs.Counts.{CountIncreased};
ghost use Rattle.podctl_commands.specs.FollowEnds.{ComesOf, ReportsFollowEnd};

use crate::follow_end::FollowEnd;
use pod_io::{Failed, Sink, write_number_line};

/// Writes the last line of a `follow`, which reports its end, unless a fault, out of memory or the
/// limit on reads ended it. It takes no memory. A failure of the line of status 0 is a write fault,
/// and another one changes nothing.
pub(crate) fn write_end_line<E: Sink>(end: FollowEnd, errors: &mut E) -> FollowEnd
    ensures end { ComesOf end result }
    ensures told { ReportsFollowEnd result (E.taken errors.old) (E.taken errors.new) (E.faults errors.old)
        (E.faults errors.new) }
    ensures no_fewer { E.faults errors.old ≤ E.faults errors.new }
    ensures failed { result ≡ FollowEnd.WriteFault → (end ≡ FollowEnd.WriteFault)
        ⊎ CountIncreased (E.faults errors.old) (E.faults errors.new) }
{
    match end {
        FollowEnd::Done { next } => match write_number_line(errors, b"follow: next=", next) {
            Ok(()) => end,
            Err(Failed) => FollowEnd::WriteFault,
        },
        FollowEnd::BadFrame { frame } => {
            let _told = write_number_line(errors, b"frame ", frame);
            end
        }
        FollowEnd::ReadFault => FollowEnd::ReadFault,
        FollowEnd::WriteFault => FollowEnd::WriteFault,
        FollowEnd::NoMemory => FollowEnd::NoMemory,
        FollowEnd::ReadLimit => FollowEnd::ReadLimit,
    }
}
