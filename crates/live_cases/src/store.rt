//! A new store in memory.
ghost use Rattle.std.specs.Prelude.{IfOk, IsTrue};
ghost use Rattle.iri_ref.specs.Components.{IsAbsolute};
ghost use Rattle.pod_rows.specs.Base.{is_base};

use iri_ref::Iri;
use pod_base::{Mem, Moment, NoMemory, Text};
use pod_disk::{Disk, Disks, MemDisk};
use podctl_commands::init;
use std::alloc::Global;

/// The owner of the pod.
pub(crate) const OWNER: &str = "https://alice.example/#me";

/// What the clock gives.
pub(crate) const SECONDS: u64 = 784_111_777;

/// Two empty disks.
pub(crate) fn empty_disks(alloc: Global) -> Mem<Disks<MemDisk>> {
    let first = MemDisk::new(alloc, Vec::new(alloc), Vec::new(alloc))?;
    let second = MemDisk::new(alloc, Vec::new(alloc), Vec::new(alloc))?;
    Ok(Disks { first, second })
}

/// The base of the pod.
fn base(alloc: Global) -> Mem<Iri>
    ensures { IfOk result (λ base. IsTrue (is_base base)) }
{
    match Iri::read(alloc, "http://127.0.0.1:8080/") {
        Ok(base) => Ok(base),
        Err(_) => Err(NoMemory),
    }
}

/// The text of the owner.
fn owner(alloc: Global) -> Mem<Text>
    ensures { IfOk result IsAbsolute }
{
    match Iri::read(alloc, OWNER) {
        Ok(_iri) => Text::of(alloc, OWNER),
        Err(_) => Err(NoMemory),
    }
}

/// Makes a store on these disks, and returns the status.
pub(crate) fn make<D: Disk>(alloc: Global, disks: &mut Disks<D>) -> Mem<u8> {
    let base = base(alloc)?;
    let owner = owner(alloc)?;
    Ok(init(alloc, disks, base, owner, Moment(SECONDS)).status())
}
