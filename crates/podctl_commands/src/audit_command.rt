//! Printing the changes of a store.
ghost use Rattle.std.specs.Prelude.{◌≡◌, ◌≤◌, ◌∷◌, List as ListOf, ℕ, IsErrOf, IsTrue};
ghost use Rattle.std.specs.Prelude.{IfOk, false};
ghost use Rattle.audit_trail.specs.Lines.{entry_line};
ghost use Rattle.pod_io.specs.Writing.{Writes};
ghost use Rattle.pod_base.specs.Counts.{CountIncreased};
ghost use Rattle.pod_command.specs.declared.entry.Entry.{Entry as EntryValue};
ghost use Rattle.pod_keeper.specs.OpenedPods.{OpensDisks};
ghost use Rattle.pod_records.specs.Readings.{IsEntryOf};
ghost use Rattle.podctl_commands.specs.CountedEnds.{EndFaultsCounted};
ghost use Rattle.podctl_commands.specs.Prints.{Prints, ReportsDamage};
ghost use Rattle.podctl_commands.specs.Records.{HasLine, HaveLines, IsRecordOf};
ghost use Rattle.podctl_commands.specs.Texts.{audit_text};

use crate::store_end::{Ended, StoreEnd};
use crate::store_printing::{PrintFault, entries_in, finish, refuse};
use audit_trail::entry_line;
use pod_base::{Bytes, Mem, NoMemory};
use pod_command::Entry;
use pod_disk::{Disk, Disks};
use pod_io::{Sink, write_all};
use pod_keeper::Keeper;
use std::alloc::Global;
use stored_forms::{ReadBack, decode_entry, decode_entry_1};

/// The first byte of an entry in the format that is only read.
const OLD_FORMAT: u8 = 1;

/// Whether a record that `podctl audit` prints is an entry in the format that is only read.
fn is_old(body: &[u8]) -> bool
    ensures yes { IsTrue result → (rest : ListOf ℕ) × (body.now ≡ 1 ∷ rest) }
    ensures no { result ≡ false → (rest : ListOf ℕ) → body.now ≡ 1 ∷ rest → ⊥ }
{
    match body.first() {
        Some(byte) => *byte == OLD_FORMAT,
        None => false,
    }
}

/// The entry of a record that `podctl audit` prints, which has format 1.
fn old_entry(alloc: Global, body: &[u8]) -> Mem<Entry>
    requires { (entry : EntryValue) × IsEntryOf 1 body.now entry }
    ensures { IfOk result (λ found. (entry : EntryValue) → IsEntryOf 1 body.now entry
        → entry_line entry ≡ entry_line found) }
{
    match decode_entry_1(alloc, body) {
        Ok(entry) => Ok(entry),
        Err(ReadBack::NotCanonical) => unreachable!(),
        Err(ReadBack::NoMemory) => Err(NoMemory),
    }
}

/// The entry of a record that `podctl audit` prints, which has format 2.
fn new_entry(alloc: Global, body: &[u8]) -> Mem<Entry>
    requires { (entry : EntryValue) × IsEntryOf 2 body.now entry }
    ensures { IfOk result (λ found. (entry : EntryValue) → IsEntryOf 2 body.now entry
        → entry_line entry ≡ entry_line found) }
{
    match decode_entry(alloc, body) {
        Ok(entry) => Ok(entry),
        Err(ReadBack::NotCanonical) => unreachable!(),
        Err(ReadBack::NoMemory) => Err(NoMemory),
    }
}

/// The entry of a record that `podctl audit` prints.
fn entry_of(alloc: Global, body: &[u8]) -> Mem<Entry>
    requires { (entry : EntryValue) × IsRecordOf body.now entry }
    ensures { IfOk result (λ found. (entry : EntryValue) → IsRecordOf body.now entry
        → entry_line entry ≡ entry_line found) }
{
    if is_old(body) {
        old_entry(alloc, body)
    } else {
        new_entry(alloc, body)
    }
}

/// Prints the line that `podctl audit` has of a record's entry.
fn print_entry<K: Sink>(alloc: Global, body: &[u8], output: &mut K) -> Result<(), PrintFault>
    requires { (line : ListOf ℕ) × HasLine body.now line }
    ensures writes { (line : ListOf ℕ) → HasLine body.now line
        → Writes result line (K.taken output.old) (K.taken output.new) }
    ensures failed { IsErrOf result PrintFault.WriteFault
        → CountIncreased (K.faults output.old) (K.faults output.new) }
    ensures counts { K.faults output.old ≤ K.faults output.new }
{
    let entry = entry_of(alloc, body)?;
    let line = entry_line(alloc, &entry)?;
    write_all(output, line.as_slice())?;
    Ok(())
}

/// Prints the line that `podctl audit` has of each record's entry.
fn print_entries<K: Sink>(
    alloc: Global,
    records: &[Bytes],
    output: &mut K,
) -> Result<(), PrintFault>
    requires { (text : ListOf ℕ) × HaveLines records.now text }
    ensures writes { (text : ListOf ℕ) → HaveLines records.now text
        → Writes result text (K.taken output.old) (K.taken output.new) }
    ensures failed { IsErrOf result PrintFault.WriteFault
        → CountIncreased (K.faults output.old) (K.faults output.new) }
    ensures counts { K.faults output.old ≤ K.faults output.new }
{
    for record in records {
        print_entry(alloc, record.as_slice(), output)?;
    }
    Ok(())
}

/// Audits a store, which it opens, by a line for each entry of its active journal, in their order:
/// what changed the pod since the snapshot that the journal begins with, by whom, and by which
/// rules.
///
/// The ends are those of [`check`](crate::check). Where a write fails or memory runs out, what was
/// printed is a prefix of the lines.
pub fn audit<D: Disk, K: Sink, E: Sink>(
    alloc: Global,
    disks: Disks<D>,
    output: &mut K,
    errors: &mut E,
) -> Ended<D>
    // What was printed, by the end.
    ensures printed { Prints audit_text (D.content disks.first) (D.content disks.second)
        (K.taken output.old) (K.taken output.new) result.end }
    ensures told { ReportsDamage result.end (E.taken errors.old) (E.taken errors.new)
        (E.faults errors.old) (E.faults errors.new) }

    // The disks are given back, as an opening leaves them.
    ensures disks { OpensDisks D.image D.moment D.left_since D.faults disks.first disks.second
        result.disks.first result.disks.second }

    // It ends by a fault only where a count increased.
    ensures counted { EndFaultsCounted D.faults disks result.disks (K.faults output.old)
        (K.faults output.new) (E.faults errors.old) (E.faults errors.new) result.end }
{
    match Keeper::open_records(alloc, disks) {
        Ok((keeper, records)) => {
            let printed = print_entries(alloc, entries_in(records.as_slice()), output);
            finish(keeper, printed)
        }
        Err(refused) => refuse(refused, errors),
    }
}
