//! Checking a store.
ghost use Rattle.std.specs.Prelude.{◌≤◌, length, IsErrOf};
ghost use Rattle.pod_io.specs.Writing.{Writes};
ghost use Rattle.pod_base.specs.Counts.{CountIncreased};
ghost use Rattle.pod_io.specs.Counts.{CountsFaults};
ghost use Rattle.pod_keeper.specs.OpenedPods.{OpensDisks};
ghost use Rattle.podctl_commands.specs.CountedEnds.{EndFaultsCounted};
ghost use Rattle.podctl_commands.specs.Prints.{Prints, ReportsDamage};
ghost use Rattle.podctl_commands.specs.Texts.{check_text, counts_line};

use crate::store_end::{Ended, StoreEnd};
use crate::store_printing::{PrintFault, entries_in, finish, refuse};
use pod_base::Bytes;
use pod_disk::{Disk, Disks};
use pod_io::{Failed, Sink, write_all, write_number};
use pod_keeper::Keeper;
use pod_rows::PodState;
use std::alloc::Global;

/// Writes the three counts that `podctl check` prints.
fn write_counts<K: Sink>(output: &mut K, rows: u64, entries: u64, next: u64) -> Result<(), Failed>
    ensures writes { Writes result (counts_line rows entries next)
        (K.taken output.old) (K.taken output.new) }
    ensures faults { CountsFaults result (K.faults output.old) (K.faults output.new) }
{
    write_number(output, b"rows=", rows)?;
    write_number(output, b" entries=", entries)?;
    write_number(output, b" next=", next)?;
    write_all(output, b"\n")
}

/// Prints the counts that `podctl check` has of a store whose entries are in these records.
fn print_counts<D: Disk, K: Sink>(
    keeper: &Keeper<D>,
    entries: &[Bytes],
    output: &mut K,
) -> Result<(), PrintFault>
    ensures writes { Writes result
        (counts_line (length keeper.now.pod.rows) (length entries.now) keeper.now.next)
        (K.taken output.old) (K.taken output.new) }
    ensures failed { IsErrOf result PrintFault.WriteFault
        → CountIncreased (K.faults output.old) (K.faults output.new) }
    ensures counts { K.faults output.old ≤ K.faults output.new }
{
    let rows = keeper.version().count() as u64;
    match write_counts(output, rows, entries.len() as u64, keeper.seq()) {
        Ok(()) => Ok(()),
        Err(Failed) => Err(PrintFault::WriteFault),
    }
}

/// Checks a store, which it opens, and prints `rows=R entries=E next=N`: how many rows its pod has,
/// how many entries its active journal has, and the number of the next change. Opening decodes
/// every record, so a store with this line is undamaged.
///
/// `Damaged` comes exactly where the store is damaged, and is printed to the error sink, as
/// `damaged first 16`; a failure of that line changes nothing. `Empty` comes exactly where both
/// disks are empty, `DiskFault` only where a disk's count of faults increased, and `WriteFault`
/// only where the output's increased. Nothing else is printed.
pub fn check<D: Disk, K: Sink, E: Sink>(
    alloc: Global,
    disks: Disks<D>,
    output: &mut K,
    errors: &mut E,
) -> Ended<D>
    // What was printed, by the end.
    ensures printed { Prints check_text (D.content disks.first) (D.content disks.second)
        (K.taken output.old) (K.taken output.new) result.end }
    ensures told { ReportsDamage result.end (E.taken errors.old) (E.taken errors.new)
        (E.faults errors.old) (E.faults errors.new) }

    // The disks are given back, as an opening leaves them.
    ensures disks { OpensDisks D.image D.moment D.left_since D.faults disks.first disks.second
        result.disks.first result.disks.second }

    // It ends by a fault only where a count increased.
    ensures counted { EndFaultsCounted D.faults disks result.disks (K.faults output.old)
        (K.faults output.new) (E.faults errors.old) (E.faults errors.new) result.end }
{
    match Keeper::open_records(alloc, disks) {
        Ok((keeper, records)) => {
            let printed = print_counts(&keeper, entries_in(records.as_slice()), output);
            finish(keeper, printed)
        }
        Err(refused) => refuse(refused, errors),
    }
}
