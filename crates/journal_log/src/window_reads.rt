//! Reads through a buffer, so that small records need no call of the disk each.

ghost use Rattle.std.specs.Prelude.{◌≡◌, ◌+◌, ◌-◌, ◌<◌, ◌≤◌, ◌^◌, List, ℕ, min, length, take, drop};
ghost use Rattle.std.specs.Prelude.{IfOk, OnOk};
ghost use Rattle.std.specs.Int.{to_be_bytes, w64};
ghost use Rattle.pod_io.specs.Counts.{CountsFaults};
ghost use Rattle.pod_io.specs.Visible.{IfVisible};
ghost use Rattle.journal_log.specs.Reading.{OnlyReads, WindowShows, ReadKeeps};

use crate::window::Window;
use pod_base::Mem;
use pod_disk::Disk;
use pod_io::Failed;
use std::alloc::Global;

/// How many bytes a window holds.
const WINDOW: usize = 65_536;

impl Window {
    /// An empty window, through which a disk of this length is read.
    pub fn new(alloc: Global, size: u64) -> Mem<Window>
        ensures size { IfOk result (λ window. window.size ≡ size) }
        ensures shown { IfOk result (λ window. (disk : List ℕ) → length disk ≡ size
            → WindowShows window disk) }
    {
        let buffer = vec![in alloc; 0u8; WINDOW]?;
        Ok(Window {
            buffer,
            at: 0,
            filled: 0,
            size,
        })
    }

    /// Reads the window anew, from this offset of the disk on.
    fn fill<D: Disk>(&mut self, disk: &mut D, at: u64) -> Result<(), Failed>
        requires within { at ≤ self.old.size }
        requires size { IfVisible (D.content disk.old) (λ b. length b ≡ self.old.size) }
        ensures only_reads { OnlyReads D.image D.moment D.left_since disk.old disk.new }
        ensures kept { OnOk result
            (ReadKeeps (D.content disk.old) (D.content disk.new) self.old self.new) }
        ensures at { OnOk result (self.new.at ≡ at) }
        ensures filled { OnOk result (self.new.filled ≡ min (self.old.size - at) 65536) }
        ensures faults { CountsFaults result (D.faults disk.old) (D.faults disk.new) }
    {
        let len = (self.size - at).min(WINDOW as u64) as usize;
        self.filled = 0;
        read_prefix(disk, at, &mut self.buffer, len)?;
        self.at = at;
        self.filled = len;
        Ok(())
    }

    /// Reads the window anew, unless it has this range of the disk.
    fn keep_in_window<D: Disk>(&mut self, disk: &mut D, at: u64, len: usize) -> Result<(), Failed>
        requires small { len ≤ 65536 }
        requires within { at + len ≤ self.old.size }
        requires shown { IfVisible (D.content disk.old) (WindowShows self.old) }
        ensures only_reads { OnlyReads D.image D.moment D.left_since disk.old disk.new }
        ensures kept { OnOk result
            (ReadKeeps (D.content disk.old) (D.content disk.new) self.old self.new) }
        ensures from { OnOk result (self.new.at ≤ at) }
        ensures to { OnOk result (at + len ≤ self.new.at + self.new.filled) }
        ensures faults { CountsFaults result (D.faults disk.old) (D.faults disk.new) }
    {
        if self.at <= at && at - self.at + len as u64 <= self.filled as u64 {
            return Ok(());
        }
        self.fill(disk, at)
    }

    /// Copies a range of the disk that was read out of the window.
    fn copy_from_window(&self, at: u64, into: &mut [u8])
        requires from { self.now.at ≤ at }
        requires to { at + length into.old ≤ self.now.at + self.now.filled }
        ensures { (disk : List ℕ) → WindowShows self.now disk
            → into.new ≡ take (length into.old) (drop at disk) }
    {
        let start = (at - self.at) as usize;
        into.copy_from_slice(&self.buffer[start..start + into.len()]);
    }

    /// Reads as many bytes of the disk as `into` has through the window, from the offset `at` on.
    pub fn read<D: Disk>(&mut self, disk: &mut D, at: u64, into: &mut [u8]) -> Result<(), Failed>
        requires within { at + length into.old ≤ self.old.size }
        requires shown { IfVisible (D.content disk.old) (WindowShows self.old) }
        ensures only_reads { OnlyReads D.image D.moment D.left_since disk.old disk.new }
        ensures kept { OnOk result
            (ReadKeeps (D.content disk.old) (D.content disk.new) self.old self.new) }
        ensures bytes { OnOk result
            (IfVisible (D.content disk.old) (λ b. into.new ≡ take (length into.old) (drop at b))) }
        ensures faults { CountsFaults result (D.faults disk.old) (D.faults disk.new) }
    {
        if into.len() > WINDOW {
            return disk.read(at, into);
        }
        self.keep_in_window(disk, at, into.len())?;
        self.copy_from_window(at, into);
        Ok(())
    }
}

/// Reads that many bytes of the disk to the prefix of a window's buffer.
fn read_prefix<D: Disk>(disk: &mut D, at: u64, buffer: &mut [u8], len: usize) -> Result<(), Failed>
    requires room { len ≤ length buffer.old }
    requires within { IfVisible (D.content disk.old) (λ b. at + len ≤ length b) }
    ensures only_reads { OnlyReads D.image D.moment D.left_since disk.old disk.new }
    ensures content { OnOk result (D.content disk.new ≡ D.content disk.old) }
    ensures bytes { OnOk result
        (IfVisible (D.content disk.old) (λ b. take len buffer.new ≡ take len (drop at b))) }
    ensures faults { CountsFaults result (D.faults disk.old) (D.faults disk.new) }
{
    disk.read(at, &mut buffer[..len])
}
