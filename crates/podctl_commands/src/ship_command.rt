//! Shipping the records of a store.
ghost use Rattle.std.specs.Prelude.{IfErr, IfOk};
ghost use Rattle.pod_io.specs.Writing.{Writes};
ghost use Rattle.pod_follow.specs.Frames.{frame_of, frames_of};
ghost use Rattle.pod_io.specs.Counts.{CountsFaults};
ghost use Rattle.pod_keeper.specs.OpenedPods.{OpensDisks};
ghost use Rattle.pod_records.specs.OpenedStores.{HasPodCause};
ghost use Rattle.podctl_commands.specs.CountedEnds.{EndFaultsCounted};
ghost use Rattle.podctl_commands.specs.Endings.{AreStored};
ghost use Rattle.podctl_commands.specs.Ships.{Ships};
ghost use Rattle.podctl_commands.specs.Prints.{ReportsDamage};

use crate::output_end::written_end;
use crate::store_printing::refuse;
use crate::{Ended, StoreEnd};
use pod_base::{Bytes, List};
use pod_disk::{Disk, Disks};
use pod_follow::frame_head;
use pod_io::{Failed, Sink, write_all};
use pod_keeper::{Keeper, NotOpened};
use std::alloc::Global;

/// Ships a record by its frame, which it writes.
fn write_frame<K: Sink>(output: &mut K, body: &[u8]) -> Result<(), Failed>
    ensures writes { Writes result (frame_of body.now) (K.taken output.old) (K.taken output.new) }
    ensures faults { CountsFaults result (K.faults output.old) (K.faults output.new) }
{
    write_all(output, &frame_head(body.len() as u64))?;
    write_all(output, body)
}

/// Ships each record by its frame, in their order. It takes no memory.
fn write_frames<K: Sink>(output: &mut K, records: &[Bytes]) -> Result<(), Failed>
    ensures writes { Writes result (frames_of records.now)
        (K.taken output.old) (K.taken output.new) }
    ensures faults { CountsFaults result (K.faults output.old) (K.faults output.new) }
{
    for record in records {
        write_frame(output, record.as_slice())?;
    }
    Ok(())
}

/// Opens the store that is to be shipped.
/// The records of a store's active journal, and the disks as an opening leaves them.
fn stored_records<D: Disk>(
    alloc: Global,
    disks: Disks<D>,
) -> Result<(List<Bytes>, Disks<D>), NotOpened<D>>
    ensures records { IfOk result (λ read. AreStored (D.content disks.first)
        (D.content disks.second) read.0.items) }
    ensures cause { IfErr result (λ refused.
        HasPodCause (D.content disks.first) (D.content disks.second)
        (D.faults disks.first) (D.faults refused.disks.first)
        (D.faults disks.second) (D.faults refused.disks.second) refused.fault) }
    ensures disks { IfOk result (λ read. OpensDisks D.image D.moment D.left_since D.faults
        disks.first disks.second read.1.first read.1.second) }
    ensures refused { IfErr result (λ refused. OpensDisks D.image D.moment D.left_since D.faults
        disks.first disks.second refused.disks.first refused.disks.second) }
{
    match Keeper::open_records(alloc, disks) {
        Ok((keeper, records)) => {
            let disks = keeper.close();
            Ok((records, disks))
        }
        Err(refused) => Err(refused),
    }
}

/// Ships a store, which it opens, by the frame of each record of its active journal: first the
/// snapshot with which the journal begins, and then its entries in their order. A follower that
/// takes them has the pod of the store, and takes what is shipped later from there on.
///
/// The ends are those of [`check`](podctl_commands::check). Where a write fails, what was written is
/// a prefix of the frames.
pub fn ship<D: Disk, K: Sink, E: Sink>(
    alloc: Global,
    disks: Disks<D>,
    output: &mut K,
    errors: &mut E,
) -> Ended<D>
    // What was written, by the end.
    ensures ships { Ships (D.content disks.first) (D.content disks.second)
        (K.taken output.old) (K.taken output.new) result.end }
    ensures told { ReportsDamage result.end (E.taken errors.old) (E.taken errors.new)
        (E.faults errors.old) (E.faults errors.new) }

    // The disks are given back, as an opening leaves them.
    ensures disks { OpensDisks D.image D.moment D.left_since D.faults disks.first disks.second
        result.disks.first result.disks.second }

    // It ends by a fault only where a count increased.
    ensures counted { EndFaultsCounted D.faults disks result.disks (K.faults output.old)
        (K.faults output.new) (E.faults errors.old) (E.faults errors.new) result.end }
{
    match stored_records(alloc, disks) {
        Ok((records, disks)) => {
            let written = write_frames(output, records.as_slice());
            Ended {
                end: written_end(written),
                disks,
            }
        }
        Err(refused) => refuse(refused, errors),
    }
}
