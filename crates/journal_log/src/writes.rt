//! The writes of a journal, and what a crash inside one may leave.

ghost use Rattle.std.specs.Prelude.{◌≡◌, ◌+◌, ◌<◌, ◌≤◌, ◌^◌, length, OnOk};
ghost use Rattle.std.specs.Option.{option_map};
ghost use Rattle.pod_io.specs.Counts.{CountsFaults};
ghost use Rattle.pod_io.specs.Visible.{IfVisible};
ghost use Rattle.pod_disk.specs.Disk.{EachImage, overwritten, LeavesOnly};
ghost use Rattle.journal_log.specs.Writes.{IsTornFrom, IsOverwritten};

use pod_disk::Disk;
use pod_io::Failed;

/// Writes bytes to the disk of a journal, and doesn't wait until they are on it.
pub fn write<D: Disk>(disk: &mut D, at: u64, bytes: &[u8]) -> Result<(), Failed>
    requires { IfVisible (D.content disk.old) (λ b. at ≤ length b) }
    ensures torn { LeavesOnly D.moment D.left_since disk.old disk.new
        (IsTornFrom (D.image disk.old) at (length bytes.now)) }
    ensures content { OnOk result
        (D.content disk.new ≡ option_map (overwritten at bytes.now) (D.content disk.old)) }
    ensures room { OnOk result (at + length bytes.now < 2 ^ 63) }
    ensures faults { CountsFaults result (D.faults disk.old) (D.faults disk.new) }
{
    disk.write_at(at, bytes)
}

/// Writes bytes to the disk of a journal, and waits until all is on it.
pub fn write_through<D: Disk>(disk: &mut D, at: u64, bytes: &[u8]) -> Result<(), Failed>
    requires { IfVisible (D.content disk.old) (λ b. at ≤ length b) }
    ensures torn { LeavesOnly D.moment D.left_since disk.old disk.new
        (IsTornFrom (D.image disk.old) at (length bytes.now)) }
    ensures written { OnOk result
        (EachImage (D.image disk.new) (IsOverwritten (D.content disk.old) at bytes.now)) }
    ensures room { OnOk result (at + length bytes.now < 2 ^ 63) }
    ensures faults { CountsFaults result (D.faults disk.old) (D.faults disk.new) }
{
    write(disk, at, bytes)?;
    disk.sync()
}
