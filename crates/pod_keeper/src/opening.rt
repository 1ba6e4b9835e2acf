//! Opening a store.

ghost use Rattle.std.specs.Prelude.{◌≡◌, ◌+◌, ◌<◌, ◌^◌, ℕ, List as ListOf, ◌∷◌, IfOk, IfErr, OnOk};
ghost use Rattle.pod_keeper.specs.KeeperDisks.{HasSureDisks};
ghost use Rattle.pod_keeper.specs.Kept.{StandsForSome};
ghost use Rattle.pod_keeper.specs.OpenedPods.{IsOpened, OpensDisks};
ghost use Rattle.pod_records.specs.OpenedStores.{HasPodCause};

use crate::fault::NotOpened;
use crate::keeper::{Keeper, shared};
use journal_log::OpenFault;
use pod_base::{Bytes, List, NoMemory};
use pod_disk::{Disk, Disks};
use pod_records::{OpenedStore, open_store};
use std::alloc::Global;

/// The keeper of a store that was opened.
fn keeper_of<D: Disk>(
    alloc: Global,
    disks: Disks<D>,
    opened: OpenedStore,
) -> Result<(Keeper<D>, List<Bytes>), NotOpened<D>>
    ensures keeper { IfOk result (λ kept. kept.0 ≡ record {
      first = disks.first;
      second = disks.second;
      pair = opened.pair;
      pod = opened.reading.version.pod;
      next = opened.reading.version.next;
      effects = opened.reading.version.effects;
      oldest = opened.reading.version.oldest;
      last = opened.reading.last;
    }) }
    ensures records { IfOk result (λ kept. kept.1.items ≡ opened.records.items) }
    ensures fault { IfErr result (λ refused. refused.fault ≡ OpenFault.NoMemory) }
    ensures first { IfErr result (λ refused. refused.disks.first ≡ disks.first) }
    ensures second { IfErr result (λ refused. refused.disks.second ≡ disks.second) }
{
    let OpenedStore {
        pair,
        records,
        reading,
    } = opened;
    match shared(alloc, reading.version) {
        Ok(version) => {
            let keeper = Keeper {
                disks,
                pair,
                version,
                last: reading.last,
            };
            Ok((keeper, records))
        }
        Err(NoMemory) => Err(NotOpened {
            fault: OpenFault::NoMemory,
            disks,
        }),
    }
}

impl<D: Disk> Keeper<D> {
    /// Opens a store, and decodes and applies each entry of its active journal once.
    ///
    /// # Errors
    ///
    /// A refusal returns the disks. `Empty` comes where both disks are empty. `Damaged` comes at
    /// the first gate of the store whose frame isn't whole, and where all frames are whole, at the
    /// first gate whose record isn't what it should be: a well-formed snapshot, or an entry that
    /// applies after those before it. `DiskFault` comes only where a count of faults increased.
    pub fn open(alloc: Global, disks: Disks<D>) -> Result<Keeper<D>, NotOpened<D>>
        ensures opened { IfOk result (λ keeper. (bodies : ListOf (ListOf ℕ))
            × IsOpened D.image (D.content disks.first) (D.content disks.second) bodies keeper) }
        ensures stands { IfOk result (λ keeper. StandsForSome D.image keeper) }
        ensures sure { IfOk result (λ keeper. HasSureDisks D.image keeper) }
        ensures cause { IfErr result (λ refused.
            HasPodCause (D.content disks.first) (D.content disks.second)
            (D.faults disks.first) (D.faults refused.disks.first)
            (D.faults disks.second) (D.faults refused.disks.second) refused.fault) }
        ensures disks { IfOk result (λ keeper. OpensDisks D.image D.moment D.left_since D.faults
            disks.first disks.second keeper.first keeper.second) }
        ensures refused { IfErr result (λ refused. OpensDisks D.image D.moment D.left_since D.faults
            disks.first disks.second refused.disks.first refused.disks.second) }
    {
        match Keeper::open_records(alloc, disks) {
            Ok((keeper, _records)) => Ok(keeper),
            Err(refused) => Err(refused),
        }
    }

    /// Opens a store as [`open`](Keeper::open) does, with the records of the active journal as they
    /// were read, the snapshot first.
    pub fn open_records(
        alloc: Global,
        disks: Disks<D>,
    ) -> Result<(Keeper<D>, List<Bytes>), NotOpened<D>>
        ensures opened { IfOk result (λ opened. IsOpened D.image (D.content disks.first)
            (D.content disks.second) opened.1.items opened.0) }
        ensures stands { IfOk result (λ opened. StandsForSome D.image opened.0) }
        ensures sure { IfOk result (λ opened. HasSureDisks D.image opened.0) }
        ensures cause { IfErr result (λ refused.
            HasPodCause (D.content disks.first) (D.content disks.second)
            (D.faults disks.first) (D.faults refused.disks.first)
            (D.faults disks.second) (D.faults refused.disks.second) refused.fault) }
        ensures disks { IfOk result (λ opened. OpensDisks D.image D.moment D.left_since D.faults
            disks.first disks.second opened.0.first opened.0.second) }
        ensures refused { IfErr result (λ refused. OpensDisks D.image D.moment D.left_since D.faults
            disks.first disks.second refused.disks.first refused.disks.second) }
    {
        let mut disks = disks;
        match open_store(alloc, &mut disks.first, &mut disks.second) {
            Ok(opened) => keeper_of(alloc, disks, opened),
            Err(fault) => Err(NotOpened { fault, disks }),
        }
    }
}
