//! How a command ends whose output was written.
ghost use Rattle.std.specs.Prelude.{◌≡◌};
ghost use Rattle.podctl_commands.specs.Endings.{written_end};

use crate::StoreEnd;
use pod_io::Failed;

/// The end of a command by whether all of its output was written.
pub(crate) fn written_end(written: Result<(), Failed>) -> StoreEnd
    ensures { result ≡ written_end written }
{
    match written {
        Ok(()) => StoreEnd::Done,
        Err(Failed) => StoreEnd::WriteFault,
    }
}
