//! A journal begun anew on a disk that may have been used, and one begun on an empty disk.

ghost use Rattle.std.specs.Prelude.{◌≡◌, ◌≤◌, ◌<◌, ◌+◌, ◌^◌, ◌∷◌, [], List, ℕ, length, IfOk, IfErr};
ghost use Rattle.std.specs.Prelude.{OnOk, IsErrOf, Some};
ghost use Rattle.pod_io.specs.Counts.{CountsFaults};
ghost use Rattle.pod_io.specs.Visible.{IfVisible};
ghost use Rattle.pod_disk.specs.Disk.{EachImage, LeavesOnly};
ghost use Rattle.journal_log.specs.Frames.{framed_of};
ghost use Rattle.journal_log.specs.Heads.{encoded_head, IsClosedHead};
ghost use Rattle.journal_log.specs.Gates.{IsFirstGateClosed, IsGated};
ghost use Rattle.journal_log.specs.Classes.{HasClass};
ghost use Rattle.journal_log.specs.CleanJournal.{IsClean};
ghost use Rattle.journal_log.specs.Reading.{OnlyReads};
ghost use Rattle.journal_log.specs.Writes.{IsTornFrom};
ghost use Rattle.journal_log.specs.FirstGates.{IsFirstGate};
ghost use Rattle.journal_log.specs.Renewing.{IsBeforeOpening, IsNewJournal, IsWhileRenewed};

use crate::disk_class::DiskClass;
use crate::fault::{DiskFault, RenewFault};
use crate::framed_record::Framed;
use crate::head::{Head, head_and_gate, head_bytes};
use crate::journal::Journal;
use crate::opening::synced_len;
use crate::writes::{write, write_through};
use pod_disk::Disk;
use pod_io::Failed;

/// The offset of the first gate: the head has sixteen bytes.
const FIRST_GATE: u64 = 16;

/// How the first gate of a disk reads.
#[derive(Clone, Copy, Debug, PartialEq, Eq)]
pub enum FirstGate {
    /// The disk has fewer than 17 bytes.
    Missing,
    Closed,
    /// Another byte than 0.
    Open,
}

impl Journal {
    /// Begins a new journal of format 2 on an empty disk, with this epoch, which is at most 2^63,
    /// and this first record: head and an open gate in one write, the record with its gate in the
    /// next, and a sync. A crash inside this call may leave anything.
    pub fn init<D: Disk>(disk: &mut D, epoch: u64, first: &Framed) -> Result<Journal, DiskFault>
        requires empty { IfVisible (D.content disk.old) (λ b. b ≡ []) }
        requires most { epoch ≤ 2 ^ 63 }
        ensures clean { IfOk result
            (λ journal. IsClean (D.image disk.new) journal (first.now ∷ [])) }
        ensures format { IfOk result (λ journal. journal.format ≡ 2) }
        ensures epoch { IfOk result (λ journal. journal.epoch ≡ epoch) }
        ensures faults { CountsFaults result (D.faults disk.old) (D.faults disk.new) }
    {
        let framed = first.bytes();
        write_anew(disk, epoch, 1, framed)?;
        let end = FIRST_GATE + framed.len() as u64;
        Ok(Journal::new_clean(Head { format: 2, epoch }, end))
    }

    /// Begins a new journal without records on an empty disk: writes a head of format 2 with this
    /// epoch, which is at most 2^63, and a closed first gate, and syncs. The disk then holds these
    /// bytes alone, and has no records. A crash inside this call may leave anything.
    pub fn init_closed<D: Disk>(disk: &mut D, epoch: u64) -> Result<(), DiskFault>
        requires empty { IfVisible (D.content disk.old) (λ b. b ≡ []) }
        requires most { epoch ≤ 2 ^ 63 }
        ensures closed { OnOk result (EachImage (D.image disk.new) (HasClass DiskClass.Closed)) }
        ensures alone { OnOk result (EachImage (D.image disk.new) (IsClosedHead epoch)) }
        ensures reads { OnOk result (IfVisible (D.content disk.new) (IsClosedHead epoch)) }
        ensures faults { CountsFaults result (D.faults disk.old) (D.faults disk.new) }
    {
        write_through(disk, 0, &head_and_gate(epoch, 0))?;
        Ok(())
    }

    /// Begins a new journal of format 2 on a disk that may have been used, with this epoch, which
    /// is at most 2^63, and this first record. In four parts: a sync; where the first gate reads
    /// other than 0, a 0 there and a sync; the head and, in a second write, the record, and a sync;
    /// a 1 at the first gate, and a sync.
    ///
    /// On a disk of at least 17 bytes each crash image at each moment is one from before, or one
    /// whose first gate is being closed, or has a first gate 0, or is the new journal with any
    /// first gate; the last only once the last part has begun. On a shorter disk head and closed
    /// gate go out in one write and the record in the next, before one sync; there a crash before
    /// the last part may leave any bytes in these ranges.
    ///
    /// `Closed` comes where the disk failed before the last part: on a disk of at least 17 bytes
    /// the new journal is then in no crash image, and on a shorter one nothing is known of the
    /// bytes that were to be written. `InDoubt` comes where the write or the sync of that 1 failed:
    /// the first gate may then hold any byte, and [`shut`](Journal::shut) closes it.
    pub fn renew<D: Disk>(disk: &mut D, epoch: u64, first: &Framed) -> Result<Journal, RenewFault>
        requires { epoch ≤ 2 ^ 63 }
        ensures moments { IfVisible (D.content disk.old) (λ b. 17 ≤ length b)
            → LeavesOnly D.moment D.left_since disk.old disk.new
            (IsWhileRenewed (D.image disk.old) epoch first.now) }
        ensures short { IfVisible (D.content disk.old) (λ b. length b < 17
            → LeavesOnly D.moment D.left_since disk.old disk.new
            (IsTornFrom (D.image disk.old) 0 (17 + length (framed_of first.now)))) }
        ensures clean { IfOk result
            (λ journal. IsClean (D.image disk.new) journal (first.now ∷ [])) }
        ensures format { IfOk result (λ journal. journal.format ≡ 2) }
        ensures epoch { IfOk result (λ journal. journal.epoch ≡ epoch) }
        ensures closed { IsErrOf result RenewFault.Closed
            → IfVisible (D.content disk.old) (λ b. 17 ≤ length b)
            → LeavesOnly D.moment D.left_since disk.old disk.new
            (IsBeforeOpening (D.image disk.old)) }
        ensures in_doubt { IsErrOf result RenewFault.InDoubt
            → EachImage (D.image disk.new) (IsNewJournal epoch first.now) }
        ensures faults { CountsFaults result (D.faults disk.old) (D.faults disk.new) }
    {
        let framed = first.bytes();
        match prepare(disk, epoch, framed) {
            Ok(()) => match write_through(disk, FIRST_GATE, &[1]) {
                Ok(()) => {
                    let end = FIRST_GATE + framed.len() as u64;
                    Ok(Journal::new_clean(Head { format: 2, epoch }, end))
                }
                Err(_failed) => Err(RenewFault::InDoubt),
            },
            Err(_failed) => Err(RenewFault::Closed),
        }
    }

    /// Closes the first gate of a new journal: writes 0 there, and syncs. The disk has at least 17
    /// bytes. At each moment every crash image of it is one from before the call with any byte at
    /// that gate; where the gate was in doubt after [`renew`](Journal::renew), it stays the new
    /// journal with any first gate.
    pub fn shut<D: Disk>(disk: &mut D) -> Result<(), DiskFault>
        requires { IfVisible (D.content disk.old) (λ b. 17 ≤ length b) }
        ensures moments { LeavesOnly D.moment D.left_since disk.old disk.new
            (IsTornFrom (D.image disk.old) 16 1) }
        ensures in_doubt { (epoch : ℕ) (body : List ℕ)
            → EachImage (D.image disk.old) (IsNewJournal epoch body)
            → LeavesOnly D.moment D.left_since disk.old disk.new (IsNewJournal epoch body) }
        ensures shut { OnOk result (EachImage (D.image disk.new) IsFirstGateClosed) }
        ensures faults { CountsFaults result (D.faults disk.old) (D.faults disk.new) }
    {
        close(disk)?;
        Ok(())
    }
}

/// Writes a new journal's head, closed gate and record, all on the disk: the first three parts of
/// `renew`.
fn prepare<D: Disk>(disk: &mut D, epoch: u64, framed: &[u8]) -> Result<(), Failed>
    ensures moments { IfVisible (D.content disk.old) (λ b. 17 ≤ length b)
        → LeavesOnly D.moment D.left_since disk.old disk.new (IsBeforeOpening (D.image disk.old)) }
    ensures short { IfVisible (D.content disk.old) (λ b. length b < 17
        → LeavesOnly D.moment D.left_since disk.old disk.new
        (IsTornFrom (D.image disk.old) 0 (17 + length framed.now))) }
    ensures prepared { OnOk result
        (EachImage (D.image disk.new) (IsGated (encoded_head 2 epoch) 0 framed.now)) }
    ensures room { OnOk result (17 + length framed.now < 2 ^ 63) }
    ensures faults { CountsFaults result (D.faults disk.old) (D.faults disk.new) }
{
    match first_gate(disk)? {
        FirstGate::Missing => write_anew(disk, epoch, 0, framed),
        FirstGate::Closed => write_record(disk, epoch, framed),
        FirstGate::Open => close_and_write(disk, epoch, framed),
    }
}

/// Reads the first gate of a new journal's disk, once all is on the disk: the first part of
/// `renew`.
fn first_gate<D: Disk>(disk: &mut D) -> Result<FirstGate, Failed>
    ensures only_reads { OnlyReads D.image D.moment D.left_since disk.old disk.new }
    ensures durable { OnOk result
        (EachImage (D.image disk.new) (λ c. D.content disk.new ≡ Some c)) }
    ensures content { OnOk result (D.content disk.new ≡ D.content disk.old) }
    ensures is { IfOk result (λ gate. IfVisible (D.content disk.new) (IsFirstGate gate)) }
    ensures faults { CountsFaults result (D.faults disk.old) (D.faults disk.new) }
{
    if synced_len(disk)? < 17 {
        return Ok(FirstGate::Missing);
    }
    let mut gate = [0u8; 1];
    disk.read(FIRST_GATE, &mut gate)?;
    if gate[0] == 0 {
        Ok(FirstGate::Closed)
    } else {
        Ok(FirstGate::Open)
    }
}

/// Closes the first gate of a new journal's disk: the second part of `renew`.
fn close<D: Disk>(disk: &mut D) -> Result<(), Failed>
    requires { IfVisible (D.content disk.old) (λ b. 17 ≤ length b) }
    ensures moments { LeavesOnly D.moment D.left_since disk.old disk.new
        (IsTornFrom (D.image disk.old) 16 1) }
    ensures shut { OnOk result (EachImage (D.image disk.new) IsFirstGateClosed) }
    ensures faults { CountsFaults result (D.faults disk.old) (D.faults disk.new) }
{
    write_through(disk, FIRST_GATE, &[0])
}

/// Closes the first gate of a new journal's disk, where it isn't closed, and writes head and
/// record: the second part of `renew` and the third.
fn close_and_write<D: Disk>(disk: &mut D, epoch: u64, framed: &[u8]) -> Result<(), Failed>
    requires { EachImage (D.image disk.old) (IsFirstGate FirstGate.Open) }
    ensures moments { LeavesOnly D.moment D.left_since disk.old disk.new
        (IsBeforeOpening (D.image disk.old)) }
    ensures written { OnOk result
        (EachImage (D.image disk.new) (IsGated (encoded_head 2 epoch) 0 framed.now)) }
    ensures room { OnOk result (17 + length framed.now < 2 ^ 63) }
    ensures faults { CountsFaults result (D.faults disk.old) (D.faults disk.new) }
{
    close(disk)?;
    write_record(disk, epoch, framed)
}

/// Writes a new journal's head and record to a disk of at least 17 bytes whose first gate is
/// closed, and syncs: the third part of `renew`. No write touches the first gate.
fn write_record<D: Disk>(disk: &mut D, epoch: u64, framed: &[u8]) -> Result<(), Failed>
    requires { EachImage (D.image disk.old) IsFirstGateClosed }
    ensures moments { LeavesOnly D.moment D.left_since disk.old disk.new IsFirstGateClosed }
    ensures written { OnOk result
        (EachImage (D.image disk.new) (IsGated (encoded_head 2 epoch) 0 framed.now)) }
    ensures room { OnOk result (17 + length framed.now < 2 ^ 63) }
    ensures faults { CountsFaults result (D.faults disk.old) (D.faults disk.new) }
{
    write(disk, 0, &head_bytes(epoch))?;
    write_through(disk, FIRST_GATE + 1, framed)
}

/// Writes a new journal to a shorter disk, head and first gate in one write and the record in the
/// next, and syncs: the third part of `renew`.
fn write_anew<D: Disk>(disk: &mut D, epoch: u64, gate: u8, framed: &[u8]) -> Result<(), Failed>
    ensures torn { LeavesOnly D.moment D.left_since disk.old disk.new
        (IsTornFrom (D.image disk.old) 0 (17 + length framed.now)) }
    ensures written { OnOk result
        (EachImage (D.image disk.new) (IsGated (encoded_head 2 epoch) gate framed.now)) }
    ensures room { OnOk result (17 + length framed.now < 2 ^ 63) }
    ensures faults { CountsFaults result (D.faults disk.old) (D.faults disk.new) }
{
    write(disk, 0, &head_and_gate(epoch, gate))?;
    write_through(disk, FIRST_GATE + 1, framed)
}
