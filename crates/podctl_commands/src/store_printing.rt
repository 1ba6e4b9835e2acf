//! What the commands that print of a store share: their ends, and the entries among its records.
ghost use Rattle.std.specs.Prelude.{◌≡◌, ◌≤◌, ◌∷◌, List as ListOf, ℕ};
ghost use Rattle.podctl_commands.specs.Ends.{refused_end};
ghost use Rattle.podctl_commands.specs.Prints.{ReportsDamage};
ghost use Rattle.podctl_commands.specs.Records.{printed_end};
ghost use Rattle.podctl_commands.specs.declared.store_printing.PrintFault.TheVariants as faults;

use crate::store_end::{Ended, StoreEnd};
use journal_log::{OpenFault, report_refusal};
use pod_base::{Bytes, NoMemory};
use pod_disk::Disk;
use pod_io::{Failed, Sink};
use pod_keeper::{Keeper, NotOpened};

/// Why not all was printed.
#[derive(Clone, Copy, Debug, PartialEq, Eq)]
pub enum PrintFault {
    /// A write failed.
    WriteFault,
    NoMemory,
}

impl From<Failed> for PrintFault {
    ghost from_gives = { λ _ fault. fault ≡ faults.WriteFault };

    fn from(_failed: Failed) -> PrintFault {
        PrintFault::WriteFault
    }
}

impl From<NoMemory> for PrintFault {
    ghost from_gives = { λ _ fault. fault ≡ faults.NoMemory };

    fn from(_error: NoMemory) -> PrintFault {
        PrintFault::NoMemory
    }
}

/// The records of the entries to print among those of a store's journal, of which the first is the
/// snapshot.
pub(crate) fn entries_in(records: &[Bytes]) -> &[Bytes]
    ensures { (snapshot : ListOf ℕ) (entries : ListOf (ListOf ℕ))
        → records.now ≡ snapshot ∷ entries → result.now ≡ entries }
{
    match records.split_first() {
        Some((_snapshot, entries)) => entries,
        None => records,
    }
}

/// Ends the printing of a store by how it was printed.
fn end_of_printing(printed: Result<(), PrintFault>) -> StoreEnd
    ensures { result ≡ printed_end printed }
{
    match printed {
        Ok(()) => StoreEnd::Done,
        Err(PrintFault::WriteFault) => StoreEnd::WriteFault,
        Err(PrintFault::NoMemory) => StoreEnd::NoMemory,
    }
}

/// Ends the printing of a store, which it closes.
pub(crate) fn finish<D: Disk>(keeper: Keeper<D>, printed: Result<(), PrintFault>) -> Ended<D>
    ensures end { result.end ≡ printed_end printed }
    ensures first { result.disks.first ≡ keeper.first }
    ensures second { result.disks.second ≡ keeper.second }
{
    Ended {
        end: end_of_printing(printed),
        disks: keeper.close(),
    }
}

/// Ends the printing of a store that wasn't opened.
fn refused_end(fault: OpenFault) -> StoreEnd
    ensures { result ≡ refused_end fault }
{
    match fault {
        OpenFault::Empty => StoreEnd::Empty,
        OpenFault::Damaged { side, at } => StoreEnd::Damaged { side, at },
        OpenFault::DiskFault => StoreEnd::DiskFault,
        OpenFault::NoMemory => StoreEnd::NoMemory,
    }
}

/// Ends the printing of a store that wasn't opened, with its line where it is damaged.
fn report_fault<E: Sink>(errors: &mut E, fault: OpenFault) -> StoreEnd
    ensures end { result ≡ refused_end fault }
    ensures told { ReportsDamage result (E.taken errors.old) (E.taken errors.new)
        (E.faults errors.old) (E.faults errors.new) }
    ensures error_faults { E.faults errors.old ≤ E.faults errors.new }
{
    report_refusal(errors, fault);
    refused_end(fault)
}

/// Refuses to print of a store that wasn't opened, with its line where it is damaged.
pub(crate) fn refuse<D: Disk, E: Sink>(refused: NotOpened<D>, errors: &mut E) -> Ended<D>
    ensures end { result.end ≡ refused_end refused.fault }
    ensures first { result.disks.first ≡ refused.disks.first }
    ensures second { result.disks.second ≡ refused.disks.second }
    ensures told { ReportsDamage result.end (E.taken errors.old) (E.taken errors.new)
        (E.faults errors.old) (E.faults errors.new) }
    ensures error_faults { E.faults errors.old ≤ E.faults errors.new }
{
    let NotOpened { fault, disks } = refused;
    Ended {
        end: report_fault(errors, fault),
        disks,
    }
}
