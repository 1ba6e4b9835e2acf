//! Opening a journal: reading its records and mending a torn last gate.

ghost use Rattle.std.specs.Prelude.{◌≡◌, ◌≤◌, ◌<◌, ◌^◌, ◌++◌, ℕ, drop, length, IfOk, IfErr, IfSome};
ghost use Rattle.std.specs.Prelude.{IfNone, OnOk, Some};
ghost use Rattle.pod_io.specs.Counts.{CountsFaults};
ghost use Rattle.pod_io.specs.Visible.{IfVisible};
ghost use Rattle.pod_disk.specs.Disk.{EachImage, LeavesOnly};
ghost use Rattle.journal_log.specs.Heads.{encoded_head, IsKnownHead, NoHead};
ghost use Rattle.journal_log.specs.Images.{Stands};
ghost use Rattle.journal_log.specs.CleanJournal.{IsClean};
ghost use Rattle.journal_log.specs.Reading.{OnlyReads, WindowShows, ReadKeeps};
ghost use Rattle.journal_log.specs.Walking.{IsFound, state_at};
ghost use Rattle.journal_log.specs.Opening.{IsWhileOpened};
ghost use Rattle.journal_log.specs.Causes.{HasCause};

use crate::fault::{OpenFault, Side};
use crate::head::Head;
use crate::journal::Journal;
use crate::record_walk::{Found, Walk, read_records};
use crate::window::Window;
use crate::writes::write_through;
use pod_base::{Bytes, List};
use pod_disk::Disk;
use pod_io::Failed;
use std::alloc::Global;

impl Journal {
    /// Opens the journal of a disk, and gives its records. It begins with a sync. Where the last
    /// open gate is torn, neither 0 nor 1, it writes 1 there and syncs, and nothing else is
    /// written. `Empty` comes where the disk holds nothing, `Damaged` at 0 where it holds no right
    /// head, and else at the first gate whose frame isn't whole, with the side that is handed in.
    ///
    /// At each moment every crash image of the disk is one from before the call, or one from before
    /// with any byte at its torn gate, and stands for the same records, with the last or without.
    /// At `Ok` the journal is clean with the records that were read.
    pub fn open<D: Disk>(
        alloc: Global,
        disk: &mut D,
        side: Side,
    ) -> Result<(Journal, List<Bytes>), OpenFault>
        ensures moments { LeavesOnly D.moment D.left_since disk.old disk.new
            (IsWhileOpened (D.image disk.old)) }
        ensures clean { IfOk result (λ opened. IsClean (D.image disk.new) opened.0 opened.1.items) }
        ensures records { IfOk result
            (λ opened. IfVisible (D.content disk.old)
            (Stands opened.0.format opened.0.epoch opened.1.items)) }
        ensures no_fewer { D.faults disk.old ≤ D.faults disk.new }
        ensures cause { IfErr result
            (HasCause (D.content disk.old) side (D.faults disk.old) (D.faults disk.new)) }
    {
        let found = read_all(alloc, disk, side)?;
        normalize_gate(disk, &found)?;
        Ok((Journal::new_clean(found.head, found.end), found.records))
    }
}

/// Waits until all is on a journal's disk, as an opening begins, and returns the disk's length.
pub fn synced_len<D: Disk>(disk: &mut D) -> Result<u64, Failed>
    ensures only_reads { OnlyReads D.image D.moment D.left_since disk.old disk.new }
    ensures durable { OnOk result
        (EachImage (D.image disk.new) (λ c. D.content disk.new ≡ Some c)) }
    ensures content { OnOk result (D.content disk.new ≡ D.content disk.old) }
    ensures len { IfOk result (λ size. IfVisible (D.content disk.old) (λ b. length b ≡ size)) }
    ensures below { IfOk result (λ size. size < 2 ^ 63) }
    ensures faults { CountsFaults result (D.faults disk.old) (D.faults disk.new) }
{
    disk.sync()?;
    disk.len()
}

/// Reads the head of the journal to be opened, where the disk begins with a right one.
fn head_at<D: Disk>(window: &mut Window, disk: &mut D) -> Result<Option<Head>, Failed>
    requires { IfVisible (D.content disk.old) (WindowShows window.old) }
    ensures only_reads { OnlyReads D.image D.moment D.left_since disk.old disk.new }
    ensures kept { OnOk result
        (ReadKeeps (D.content disk.old) (D.content disk.new) window.old window.new) }
    ensures found { IfOk result
        (λ found. IfSome found
        (λ head. IfVisible (D.content disk.old)
        (λ b. b ≡ encoded_head head.format head.epoch ++ drop 16 b))) }
    ensures known { IfOk result
        (λ found. IfSome found (λ head. IsKnownHead head.format head.epoch)) }
    ensures size { IfOk result (λ found. IfSome found (λ _. 16 ≤ window.old.size)) }
    ensures none { IfOk result (λ found. IfNone found (IfVisible (D.content disk.old) NoHead)) }
    ensures faults { CountsFaults result (D.faults disk.old) (D.faults disk.new) }
{
    if window.size < 16 {
        return Ok(None);
    }
    let mut bytes = [0u8; 16];
    window.read(disk, 0, &mut bytes)?;
    Ok(Head::read(&bytes))
}

/// Reads the journal to be opened from a disk of this length, all of which is on it.
fn read_from<D: Disk>(
    alloc: Global,
    disk: &mut D,
    size: u64,
    side: Side,
) -> Result<Found, OpenFault>
    requires small { size < 2 ^ 63 }
    requires size { IfVisible (D.content disk.old) (λ b. length b ≡ size) }
    ensures only_reads { OnlyReads D.image D.moment D.left_since disk.old disk.new }
    ensures content { OnOk result (D.content disk.new ≡ D.content disk.old) }
    ensures found { IfOk result (IsFound (D.content disk.old)) }
    ensures no_fewer { D.faults disk.old ≤ D.faults disk.new }
    ensures cause { IfErr result
        (HasCause (D.content disk.old) side (D.faults disk.old) (D.faults disk.new)) }
{
    if size == 0 {
        return Err(OpenFault::Empty);
    }
    let mut window = Window::new(alloc, size)?;
    match head_at(&mut window, disk)? {
        Some(head) => match read_records(alloc, &mut window, disk, head)? {
            Walk::Whole(found) => Ok(found),
            Walk::Broken(at) => Err(OpenFault::Damaged { side, at }),
        },
        None => Err(OpenFault::Damaged { side, at: 0 }),
    }
}

/// Reads the records of the journal to be opened.
fn read_all<D: Disk>(alloc: Global, disk: &mut D, side: Side) -> Result<Found, OpenFault>
    ensures only_reads { OnlyReads D.image D.moment D.left_since disk.old disk.new }
    ensures durable { OnOk result
        (EachImage (D.image disk.new) (λ c. D.content disk.new ≡ Some c)) }
    ensures content { OnOk result (D.content disk.new ≡ D.content disk.old) }
    ensures found { IfOk result (IsFound (D.content disk.old)) }
    ensures no_fewer { D.faults disk.old ≤ D.faults disk.new }
    ensures cause { IfErr result
        (HasCause (D.content disk.old) side (D.faults disk.old) (D.faults disk.new)) }
{
    let size = synced_len(disk)?;
    read_from(alloc, disk, size, side)
}

/// Mends the last gate of the journal that is opened: writes 1 there where it is torn.
fn normalize_gate<D: Disk>(disk: &mut D, found: &Found) -> Result<(), Failed>
    requires durable { EachImage (D.image disk.old) (λ c. D.content disk.old ≡ Some c) }
    requires found { IsFound (D.content disk.old) found.now }
    ensures moments { LeavesOnly D.moment D.left_since disk.old disk.new
        (IsWhileOpened (D.image disk.old)) }
    ensures clean { OnOk result
        (IsClean (D.image disk.new)
        (state_at found.now.head found.now.end) found.now.records.items) }
    ensures faults { CountsFaults result (D.faults disk.old) (D.faults disk.new) }
{
    match found.torn_gate {
        Some(at) => write_through(disk, at, &[1]),
        None => Ok(()),
    }
}
