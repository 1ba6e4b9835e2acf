//! What a disk of a store is, by its length, its head and its first gate.

ghost use Rattle.std.specs.Prelude.{◌≡◌, List, ℕ, Some, length, take, IfOk, OnOk};
ghost use Rattle.pod_io.specs.Counts.{CountsFaults};
ghost use Rattle.pod_io.specs.Visible.{IfVisible};
ghost use Rattle.pod_disk.specs.Disk.{EachImage, LeavesOnly};
ghost use Rattle.journal_log.specs.Classes.{HasClass};
ghost use Rattle.journal_log.specs.Reading.{OnlyReads};

use crate::fault::DiskFault;
use crate::head::Head;
use crate::journal::Journal;
use crate::opening::synced_len;
use pod_disk::Disk;
use pod_io::Failed;

/// How many bytes a head and a first gate have.
const HEAD_AND_GATE_LEN: usize = 17;

/// What a disk of a store is.
#[derive(Clone, Copy, Debug, PartialEq, Eq)]
pub enum DiskClass {
    /// It has no bytes.
    Empty,
    /// It has fewer bytes than a head and a first gate.
    Short,
    /// It has no right head, and its first gate is 0.
    Torn,
    /// It has a right head, and its first gate is 0.
    Closed,
    /// It has no right head, and its first gate is another byte than 0.
    Wrong,
    /// It has a right head with this epoch, and its first gate is another byte than 0.
    Open { epoch: u64 },
}

impl Journal {
    /// Returns the class of a disk, by its length, its head and its first gate, once all is on the
    /// disk. It changes nothing.
    pub fn classify<D: Disk>(disk: &mut D) -> Result<DiskClass, DiskFault>
        ensures moments { LeavesOnly D.moment D.left_since disk.old disk.new (D.image disk.old) }
        ensures images { EachImage (D.image disk.new) (D.image disk.old) }
        ensures durable { OnOk result
            (EachImage (D.image disk.new) (λ c. D.content disk.new ≡ Some c)) }
        ensures content { OnOk result (D.content disk.new ≡ D.content disk.old) }
        ensures class { IfOk result (λ class. IfVisible (D.content disk.old) (HasClass class)) }
        ensures each { IfOk result (λ class. EachImage (D.image disk.new) (HasClass class)) }
        ensures faults { CountsFaults result (D.faults disk.old) (D.faults disk.new) }
    {
        Ok(class_at(disk)?)
    }
}

/// The class of a disk, by calls that only read.
fn class_at<D: Disk>(disk: &mut D) -> Result<DiskClass, Failed>
    ensures only_reads { OnlyReads D.image D.moment D.left_since disk.old disk.new }
    ensures durable { OnOk result
        (EachImage (D.image disk.new) (λ c. D.content disk.new ≡ Some c)) }
    ensures content { OnOk result (D.content disk.new ≡ D.content disk.old) }
    ensures class { IfOk result (λ class. IfVisible (D.content disk.old) (HasClass class)) }
    ensures faults { CountsFaults result (D.faults disk.old) (D.faults disk.new) }
{
    let size = synced_len(disk)?;
    if size == 0 {
        return Ok(DiskClass::Empty);
    }
    if size < HEAD_AND_GATE_LEN as u64 {
        return Ok(DiskClass::Short);
    }
    let mut bytes = [0u8; HEAD_AND_GATE_LEN];
    disk.read(0, &mut bytes)?;
    Ok(class_of(&bytes))
}

/// The class of a disk that begins with these bytes.
fn class_of(bytes: &[u8]) -> DiskClass
    requires { length bytes.now ≡ 17 }
    ensures { (image : List ℕ) → bytes.now ≡ take 17 image → HasClass result image }
{
    match Head::read(&bytes[..16]) {
        Some(head) => {
            if bytes[16] == 0 {
                DiskClass::Closed
            } else {
                DiskClass::Open { epoch: head.epoch }
            }
        }
        None => {
            if bytes[16] == 0 {
                DiskClass::Torn
            } else {
                DiskClass::Wrong
            }
        }
    }
}
