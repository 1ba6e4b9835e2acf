//! Goes from gate to gate, and keeps the records.

ghost use Rattle.std.specs.Prelude.{◌≡◌, ◌≢◌, ◌+◌, ◌≤◌, ◌<◌, ◌^◌, ◌++◌, ◌∷◌, [], ℕ, length, drop};
ghost use Rattle.std.specs.Prelude.{IfOk, IfErr, OnOk};
ghost use Rattle.pod_io.specs.Visible.{IfVisible};
ghost use Rattle.journal_log.specs.Heads.{encoded_head, IsKnownHead};
ghost use Rattle.journal_log.specs.Reading.{OnlyReads, WindowShows, ReadKeeps};
ghost use Rattle.journal_log.specs.Walking.{IsWalked};
ghost use Rattle.journal_log.specs.Causes.{IsOfReading};

use crate::fault::OpenFault;
use crate::frame_scan::{Frame, frame_at};
use crate::head::Head;
use crate::window::Window;
use pod_base::{Bytes, List};
use pod_disk::Disk;
use std::alloc::Global;

/// The records of a disk.
#[derive(Drop)]
pub struct Found {
    pub head: Head,
    pub records: List<Bytes>,
    /// The offset of the gate after the last record.
    pub end: u64,
    /// The offset of the gate before the last record, where that gate is neither 0 nor 1.
    pub torn_gate: Option<u64>,
}

/// How a walk ended.
#[derive(Drop)]
pub enum Walk {
    Whole(Found),
    /// At the gate of this offset, which has no whole frame.
    Broken(u64),
}

/// Keeps a record that a walk over a journal has read.
fn keep(alloc: Global, records: &mut List<Bytes>, body: Bytes) -> Result<(), OpenFault>
    ensures kept { OnOk result (records.new.items ≡ records.old.items ++ body ∷ []) }
    ensures cause { IfErr result (λ fault. fault ≡ OpenFault.NoMemory) }
{
    match records.push(alloc, body) {
        Ok(()) => Ok(()),
        Err(_body) => Err(OpenFault::NoMemory),
    }
}

/// Walks from gate to gate after a journal's head, and reads the records.
pub fn read_records<D: Disk>(
    alloc: Global,
    window: &mut Window,
    disk: &mut D,
    head: Head,
) -> Result<Walk, OpenFault>
    requires known { IsKnownHead head.format head.epoch }
    requires head { IfVisible (D.content disk.old)
        (λ b. b ≡ encoded_head head.format head.epoch ++ drop 16 b) }
    requires size { 16 ≤ window.old.size }
    requires small { window.old.size < 2 ^ 63 }
    requires shown { IfVisible (D.content disk.old) (WindowShows window.old) }
    ensures only_reads { OnlyReads D.image D.moment D.left_since disk.old disk.new }
    ensures content { OnOk result (D.content disk.new ≡ D.content disk.old) }
    ensures is { IfOk result (IsWalked (D.content disk.old)) }
    ensures no_fewer { D.faults disk.old ≤ D.faults disk.new }
    ensures cause { IfErr result (IsOfReading (D.faults disk.old) (D.faults disk.new)) }
{
    let mut records = List::new(alloc);
    let mut at: u64 = 16;
    loop {
        match frame_at(alloc, window, disk, at)? {
            Frame::End => {
                return Ok(Walk::Whole(Found {
                    head,
                    records,
                    end: at,
                    torn_gate: None,
                }));
            }
            Frame::Broken => return Ok(Walk::Broken(at)),
            Frame::Record { gate, body } => {
                let next = at + 9 + body.as_slice().len() as u64;
                keep(alloc, &mut records, body)?;
                if gate != 1 {
                    return Ok(Walk::Whole(Found {
                        head,
                        records,
                        end: next,
                        torn_gate: Some(at),
                    }));
                }
                at = next;
            }
        }
    }
}
