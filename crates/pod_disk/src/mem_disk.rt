//! The disk in memory, which notes its calls.

ghost use Rattle.std.specs.Prelude.{◌≡◌, ◌+◌, ◌<◌, ◌≤◌, ◌^◌, ◌∷◌, [], ◌++◌, ℕ, List, Some, is_some};
ghost use Rattle.std.specs.Prelude.{length, take, drop, OnOk, OnErr, IfOk, ◌⊎◌, true, false};
ghost use Rattle.std.specs.Option.{option_map};
ghost use Rattle.pod_base.specs.Counts.{CountIncreased};
ghost use Rattle.pod_io.specs.Counts.{CountsFaults, next_count};
ghost use Rattle.pod_io.specs.Visible.{IfVisible};
ghost use Rattle.pod_io.specs.Memory.{next_call};
ghost use Rattle.pod_disk.specs.declared.disk.TheConstants.{LENGTH_LIMIT};
ghost use Rattle.pod_disk.specs.Disk.{overwritten, Torn, TornCut, Unchanged, Passes};
ghost use Rattle.pod_disk.specs.NotedCalls.{noted_as, done_by, content_of, visible_content, Step};
ghost use Rattle.pod_disk.specs.NotedCalls.{IsCrashImage, MayLeave, moment_of, LeftSince};
ghost use Rattle.pod_disk.specs.NotedCalls.{MakesCall, LeavesContent};
ghost use Rattle.pod_disk.specs.Tears.{crash_of};

use crate::call::{Call, NotedCall};
use crate::call_effects::perform;
use crate::crash_image::crashed;
use crate::disk::{Disk, LENGTH_LIMIT};
use crate::torn_call::Tear;
use pod_base::{Bytes, Mem};
use pod_io::{Calls, Failed};
use std::alloc::Global;
use std::marker::Model;

/// A disk in memory. It tells its content, and it notes its calls, from which its crash images at
/// each moment follow.
#[derive(Debug, Drop)]
pub struct MemDisk {
    alloc: Global,
    first: Vec<u8>,
    noted: Vec<NotedCall>,
    bytes: Vec<u8>,
    calls: Calls,
}

impl Model for MemDisk {
    ghost use Rattle.std.specs.Prelude.{◌≡◌, ◌<◌, ◌^◌, length};
    ghost use Rattle.pod_disk.specs.NotedCalls.{DiskState, content_at};

    ghost Value = { DiskState };

    ghost view = { λ m. record { first = m.first.items; noted = m.noted.items; calls = m.calls } };

    ghost invariant = { λ m. m.bytes.items ≡ content_at m.first.items m.noted.items };
}

/// Makes a call of a disk in memory, and notes it. Out of memory, nothing changes.
fn make(noted: &mut Vec<NotedCall>, bytes: &mut Vec<u8>, call: Call) -> Mem<()>
    ensures noted { OnOk result (noted.new.items ≡ noted.old.items ++ noted_as call true ∷ []) }
    ensures done { OnOk result (bytes.new.items ≡ done_by call bytes.old.items) }
    ensures kept { OnErr result ((noted.new.items ≡ noted.old.items)
        × (bytes.new.items ≡ bytes.old.items)) }
{
    noted.reserve(1)?;
    perform(bytes, &call)?;
    noted.push_reserved(NotedCall { call, done: true });
    Ok(())
}

/// Notes a call of a disk in memory that failed, where there is memory for that.
fn note_failed(noted: &mut Vec<NotedCall>, call: Call)
    ensures { (noted.new.items ≡ noted.old.items ++ noted_as call false ∷ [])
        ⊎ (noted.new.items ≡ noted.old.items) }
{
    let _pushed = noted.push(NotedCall { call, done: false });
}

impl MemDisk {
    /// A disk in memory that holds these bytes, all of them durable. The calls of these numbers,
    /// from 1, fail. Another one fails only when out of memory.
    pub fn new(alloc: Global, bytes: Vec<u8>, failing: Vec<u64>) -> Mem<MemDisk>
        ensures first { IfOk result (λ disk. disk.first ≡ bytes.items) }
        ensures noted { IfOk result (λ disk. disk.noted ≡ []) }
        ensures content { IfOk result (λ disk. visible_content disk ≡ Some bytes.items) }
        ensures durable { IfOk result (λ disk. (c : List ℕ) → MayLeave disk c → c ≡ bytes.items) }
        ensures made { IfOk result (λ disk. disk.calls.made ≡ 0) }
        ensures failing { IfOk result (λ disk. disk.calls.failing ≡ failing.items) }
        ensures faults { IfOk result (λ disk. disk.calls.faults ≡ 0) }
    {
        let first = Vec::from_slice(alloc, bytes.as_slice())?;
        Ok(MemDisk {
            alloc,
            first,
            noted: Vec::new(alloc),
            bytes,
            calls: Calls::new(failing),
        })
    }

    /// The bytes that reads of a disk in memory give.
    pub fn bytes(&self) -> &[u8]
        ensures { result.now ≡ content_of self.now }
    {
        self.bytes.as_slice()
    }

    /// The calls that a disk in memory has noted, in their order.
    pub fn noted(&self) -> &[NotedCall]
        ensures { result.now ≡ self.now.noted }
    {
        self.noted.as_slice()
    }

    /// A crash image of a disk in memory: bytes that a crash after the first `count` of the noted
    /// calls may leave. The tears are those of the writes and cuts since the last sync that
    /// succeeded, in their order, of those that failed too. The last tear goes on; with no tears
    /// all of them are whole.
    pub fn crash(&self, alloc: Global, count: usize, tears: &[Tear]) -> Mem<Vec<u8>>
        requires { count ≤ length self.now.noted }
        ensures image { IfOk result
            (λ image. IsCrashImage self.now.first (take count self.now.noted) image.items) }
        ensures left { IfOk result (λ image. LeftSince self.now count image.items) }
        ensures tears { IfOk result (λ image. image.items
            ≡ crash_of self.now.first (take count self.now.noted) tears.now) }
    {
        crashed(alloc, &self.first, &self.noted[..count], tears)
    }

    /// Makes a call of a disk in memory, unless it is to fail.
    fn attempt(&mut self, call: Call) -> Result<(), Failed>
        ensures makes { MakesCall call result self.old self.new }
        ensures faults { CountsFaults result self.old.calls.faults self.new.calls.faults }
    {
        if self.calls.next_fails() {
            note_failed(&mut self.noted, call);
            return Err(Failed);
        }
        match make(&mut self.noted, &mut self.bytes, call) {
            Ok(()) => Ok(()),
            Err(_no_memory) => {
                self.calls.count();
                Err(Failed)
            }
        }
    }

    /// Makes a call of a disk in memory, unless it is to fail, with what it makes of the content
    /// and of the crash images.
    fn make(&mut self, call: Call) -> Result<(), Failed>
        ensures makes { MakesCall call result self.old self.new }
        ensures faults { CountsFaults result self.old.calls.faults self.new.calls.faults }
        ensures passes { Passes MayLeave moment_of LeftSince (Step call) self.old self.new }
        ensures content { OnOk result (content_of self.new ≡ done_by call (content_of self.old)) }
        ensures kept { OnErr result (content_of self.new ≡ content_of self.old) }
        ensures settles { OnOk result (LeavesContent call self.new) }
    {
        self.attempt(call)
    }

    /// Fails a call that a disk in memory can't make, and counts it.
    fn refuse(&mut self) -> Failed
        ensures first { self.new.first ≡ self.old.first }
        ensures noted { self.new.noted ≡ self.old.noted }
        ensures failing { self.new.calls.failing ≡ self.old.calls.failing }
        ensures made { self.new.calls.made ≡ next_call self.old.calls }
        ensures faults { self.new.calls.faults ≡ next_count self.old.calls.faults }
        ensures no_fewer { self.old.calls.faults ≤ self.new.calls.faults }
        ensures increased { CountIncreased self.old.calls.faults self.new.calls.faults }
    {
        if !self.calls.next_fails() {
            self.calls.count();
        }
        Failed
    }
}

impl Disk for MemDisk {
    ghost use Rattle.pod_disk.specs.Laws.{visible_is_image, image_now, only_image};

    ghost content = { visible_content };

    ghost image = { MayLeave };

    ghost moment = { moment_of };

    ghost left_since = { LeftSince };

    ghost faults = { λ m. m.calls.faults };

    ghost reads_image = { visible_is_image };

    ghost counts_now = { image_now };

    ghost only_now = { only_image };

    fn len(&mut self) -> Result<u64, Failed>
        ensures len { IfOk result (λ n. IfVisible (visible_content self.old) (λ b. n ≡ length b)) }
        ensures below { IfOk result (λ n. n < LENGTH_LIMIT) }
        ensures content { OnOk result (visible_content self.new ≡ visible_content self.old) }
        ensures visible { is_some (visible_content self.new) ≡ is_some (visible_content self.old) }
        ensures passes { Passes MayLeave moment_of LeftSince Unchanged self.old self.new }
        ensures faults { CountsFaults result self.old.calls.faults self.new.calls.faults }
        ensures makes { MakesCall Call.Length result self.old self.new }
        ensures kept { visible_content self.new ≡ visible_content self.old }
    {
        self.make(Call::Length)?;
        Ok(self.bytes.len() as u64)
    }

    fn read(&mut self, at: u64, into: &mut [u8]) -> Result<(), Failed>
        requires { IfVisible (visible_content self.old) (λ b. at + length into.old ≤ length b) }
        ensures bytes { OnOk result
            (IfVisible (visible_content self.old) (λ b. into.new ≡ take (length into.old) (drop at b))) }
        ensures content { OnOk result (visible_content self.new ≡ visible_content self.old) }
        ensures visible { is_some (visible_content self.new) ≡ is_some (visible_content self.old) }
        ensures passes { Passes MayLeave moment_of LeftSince Unchanged self.old self.new }
        ensures faults { CountsFaults result self.old.calls.faults self.new.calls.faults }
        ensures makes { MakesCall (Call.Read at (length into.old)) result self.old self.new }
        ensures kept { visible_content self.new ≡ visible_content self.old }
    {
        let count = into.len();
        self.make(Call::Read { at, count })?;
        let start = at as usize;
        into.copy_from_slice(&self.bytes[start..start + count]);
        Ok(())
    }

    fn write_at(&mut self, at: u64, bytes: &[u8]) -> Result<(), Failed>
        requires { IfVisible (visible_content self.old) (λ b. at ≤ length b) }
        ensures content { OnOk result
            (visible_content self.new ≡ option_map (overwritten at bytes.now)
            (visible_content self.old)) }
        ensures visible { is_some (visible_content self.new) ≡ is_some (visible_content self.old) }
        ensures room { OnOk result (at + length bytes.now < LENGTH_LIMIT) }
        ensures passes { Passes MayLeave moment_of LeftSince
            (Torn at (length bytes.now)) self.old self.new }
        ensures faults { CountsFaults result self.old.calls.faults self.new.calls.faults }
        ensures makes { MakesCall (Call.Write at bytes.now) result self.old self.new }
        ensures kept { OnErr result (visible_content self.new ≡ visible_content self.old) }
    {
        if at >= LENGTH_LIMIT || bytes.len() as u64 >= LENGTH_LIMIT - at {
            return Err(self.refuse());
        }
        match Bytes::of(self.alloc, bytes) {
            Ok(bytes) => self.make(Call::Write { at, bytes }),
            Err(_no_memory) => Err(self.refuse()),
        }
    }

    fn cut(&mut self, len: u64) -> Result<(), Failed>
        requires { IfVisible (visible_content self.old) (λ b. len ≤ length b) }
        ensures content { OnOk result
            (visible_content self.new ≡ option_map (take len) (visible_content self.old)) }
        ensures visible { is_some (visible_content self.new) ≡ is_some (visible_content self.old) }
        ensures passes { Passes MayLeave moment_of LeftSince (TornCut len) self.old self.new }
        ensures faults { CountsFaults result self.old.calls.faults self.new.calls.faults }
        ensures makes { MakesCall (Call.Cut len) result self.old self.new }
        ensures kept { OnErr result (visible_content self.new ≡ visible_content self.old) }
    {
        self.make(Call::Cut { len })
    }

    fn sync(&mut self) -> Result<(), Failed>
        ensures durable { OnOk result ((c : List ℕ) → MayLeave self.new c
            → visible_content self.new ≡ Some c) }
        ensures content { OnOk result (visible_content self.new ≡ visible_content self.old) }
        ensures visible { is_some (visible_content self.new) ≡ is_some (visible_content self.old) }
        ensures passes { Passes MayLeave moment_of LeftSince Unchanged self.old self.new }
        ensures faults { CountsFaults result self.old.calls.faults self.new.calls.faults }
        ensures makes { MakesCall Call.Sync result self.old self.new }
        ensures kept { visible_content self.new ≡ visible_content self.old }
    {
        self.make(Call::Sync)
    }
}
