//! Reads a gate and its record.

ghost use Rattle.std.specs.Prelude.{◌≡◌, ◌≢◌, ◌+◌, ◌≤◌, ◌<◌, ◌^◌, ◌++◌, ◌∷◌, List, ℕ, length, take};
ghost use Rattle.std.specs.Prelude.{drop, IfOk, IfErr, OnOk};
ghost use Rattle.std.specs.Int.{to_be_bytes, w64};
ghost use Rattle.pod_io.specs.Counts.{CountsFaults};
ghost use Rattle.pod_io.specs.Visible.{IfVisible};
ghost use Rattle.journal_log.specs.Reading.{OnlyReads, WindowShows, ReadKeeps};
ghost use Rattle.journal_log.specs.Scanning.{IsByteAt, IsStart, StartFits, IsSeen, FrameFits};
ghost use Rattle.journal_log.specs.Causes.{IsOfReading};

use crate::fault::OpenFault;
use crate::head::number;
use crate::window::Window;
use pod_base::Bytes;
use pod_disk::Disk;
use pod_io::Failed;
use std::alloc::Global;

/// What follows from a gate on.
#[derive(Drop)]
pub enum Frame {
    /// The gate is 0.
    End,
    /// The gate is open, and its record is whole.
    Record { gate: u8, body: Bytes },
    /// There is no gate, or its record isn't whole.
    Broken,
}

/// What the gate and the eight bytes after it say.
#[derive(Drop)]
pub enum Start {
    End,
    Open { gate: u8, len: u64 },
    Broken,
}

/// Reads one byte of a record's frame, at this offset.
fn byte_at<D: Disk>(window: &mut Window, disk: &mut D, at: u64) -> Result<u8, Failed>
    requires within { at < window.old.size }
    requires shown { IfVisible (D.content disk.old) (WindowShows window.old) }
    ensures only_reads { OnlyReads D.image D.moment D.left_since disk.old disk.new }
    ensures kept { OnOk result
        (ReadKeeps (D.content disk.old) (D.content disk.new) window.old window.new) }
    ensures byte { IfOk result (λ byte. IfVisible (D.content disk.old) (λ b. IsByteAt at b byte)) }
    ensures faults { CountsFaults result (D.faults disk.old) (D.faults disk.new) }
{
    let mut byte = [0u8; 1];
    window.read(disk, at, &mut byte)?;
    Ok(byte[0])
}

/// Reads the length in a record's frame, which the eight bytes from this offset on spell.
fn number_at<D: Disk>(window: &mut Window, disk: &mut D, at: u64) -> Result<u64, Failed>
    requires within { at + 8 ≤ window.old.size }
    requires shown { IfVisible (D.content disk.old) (WindowShows window.old) }
    ensures only_reads { OnlyReads D.image D.moment D.left_since disk.old disk.new }
    ensures kept { OnOk result
        (ReadKeeps (D.content disk.old) (D.content disk.new) window.old window.new) }
    ensures small { IfOk result (λ n. n < 2 ^ 64) }
    ensures number { IfOk result
        (λ n. IfVisible (D.content disk.old) (λ b. to_be_bytes w64 n ≡ take 8 (drop at b))) }
    ensures faults { CountsFaults result (D.faults disk.old) (D.faults disk.new) }
{
    let mut bytes = [0u8; 8];
    window.read(disk, at, &mut bytes)?;
    Ok(number(&bytes))
}

/// Reads how a record's frame starts: what the gate at this offset says, and the length after it.
fn start_at<D: Disk>(window: &mut Window, disk: &mut D, at: u64) -> Result<Start, Failed>
    requires within { at ≤ window.old.size }
    requires small { window.old.size < 2 ^ 63 }
    requires shown { IfVisible (D.content disk.old) (WindowShows window.old) }
    ensures only_reads { OnlyReads D.image D.moment D.left_since disk.old disk.new }
    ensures kept { OnOk result
        (ReadKeeps (D.content disk.old) (D.content disk.new) window.old window.new) }
    ensures is { IfOk result
        (λ start. IfVisible (D.content disk.old) (λ b. IsStart start (drop at b))) }
    ensures fits { IfOk result (StartFits at window.old.size) }
    ensures faults { CountsFaults result (D.faults disk.old) (D.faults disk.new) }
{
    if at == window.size {
        return Ok(Start::Broken);
    }
    let gate = byte_at(window, disk, at)?;
    if gate == 0 {
        return Ok(Start::End);
    }
    if window.size - at < 10 {
        return Ok(Start::Broken);
    }
    let len = number_at(window, disk, at + 1)?;
    if len > window.size - at - 10 {
        return Ok(Start::Broken);
    }
    Ok(Start::Open { gate, len })
}

/// Reads the body in a record's frame, to memory of its own.
fn body_at<D: Disk>(
    alloc: Global,
    window: &mut Window,
    disk: &mut D,
    at: u64,
    len: u64,
) -> Result<Bytes, OpenFault>
    requires within { at + len ≤ window.old.size }
    requires shown { IfVisible (D.content disk.old) (WindowShows window.old) }
    ensures only_reads { OnlyReads D.image D.moment D.left_since disk.old disk.new }
    ensures kept { OnOk result
        (ReadKeeps (D.content disk.old) (D.content disk.new) window.old window.new) }
    ensures len { IfOk result (λ body. length body ≡ len) }
    ensures body { IfOk result
        (λ body. IfVisible (D.content disk.old) (λ b. body ≡ take len (drop at b))) }
    ensures no_fewer { D.faults disk.old ≤ D.faults disk.new }
    ensures cause { IfErr result (IsOfReading (D.faults disk.old) (D.faults disk.new)) }
{
    let mut body = vec![in alloc; 0u8; len as usize]?;
    window.read(disk, at, &mut body)?;
    match Bytes::from_vec(alloc, body) {
        Ok(body) => Ok(body),
        Err(_body) => Err(OpenFault::NoMemory),
    }
}

/// Reads the record in a frame whose gate is open and whose length was read.
fn record_at<D: Disk>(
    alloc: Global,
    window: &mut Window,
    disk: &mut D,
    at: u64,
    gate: u8,
    len: u64,
) -> Result<Frame, OpenFault>
    requires is_open { gate ≢ 0 }
    requires within { at + len + 10 ≤ window.old.size }
    requires small { window.old.size < 2 ^ 63 }
    requires shown { IfVisible (D.content disk.old) (WindowShows window.old) }
    requires start { IfVisible (D.content disk.old)
        (λ b. drop at b ≡ gate ∷ (to_be_bytes w64 len ++ drop 9 (drop at b))) }
    ensures only_reads { OnlyReads D.image D.moment D.left_since disk.old disk.new }
    ensures kept { OnOk result
        (ReadKeeps (D.content disk.old) (D.content disk.new) window.old window.new) }
    ensures is { IfOk result
        (λ frame. IfVisible (D.content disk.old) (λ b. IsSeen frame (drop at b))) }
    ensures fits { IfOk result (FrameFits at window.old.size) }
    ensures no_fewer { D.faults disk.old ≤ D.faults disk.new }
    ensures cause { IfErr result (IsOfReading (D.faults disk.old) (D.faults disk.new)) }
{
    let body = body_at(alloc, window, disk, at + 9, len)?;
    if gate == 1 {
        return Ok(Frame::Record { gate, body });
    }
    let next = byte_at(window, disk, at + 9 + len)?;
    if next != 0 {
        return Ok(Frame::Broken);
    }
    Ok(Frame::Record { gate, body })
}

/// Reads the frame of a record from the gate at this offset on.
pub fn frame_at<D: Disk>(
    alloc: Global,
    window: &mut Window,
    disk: &mut D,
    at: u64,
) -> Result<Frame, OpenFault>
    requires within { at ≤ window.old.size }
    requires small { window.old.size < 2 ^ 63 }
    requires shown { IfVisible (D.content disk.old) (WindowShows window.old) }
    ensures only_reads { OnlyReads D.image D.moment D.left_since disk.old disk.new }
    ensures kept { OnOk result
        (ReadKeeps (D.content disk.old) (D.content disk.new) window.old window.new) }
    ensures is { IfOk result
        (λ frame. IfVisible (D.content disk.old) (λ b. IsSeen frame (drop at b))) }
    ensures fits { IfOk result (FrameFits at window.old.size) }
    ensures no_fewer { D.faults disk.old ≤ D.faults disk.new }
    ensures cause { IfErr result (IsOfReading (D.faults disk.old) (D.faults disk.new)) }
{
    match start_at(window, disk, at)? {
        Start::End => Ok(Frame::End),
        Start::Open { gate, len } => record_at(alloc, window, disk, at, gate, len),
        Start::Broken => Ok(Frame::Broken),
    }
}
