//! Lines that report why nothing was served.
ghost use Rattle.std.specs.Prelude.{◌≡◌, ◌≤◌};
ghost use Rattle.pod_io.specs.Writing.{number_line};
ghost use Rattle.journal_log.specs.Refusals.{TellsRefusal, open_status};
ghost use Rattle.pod_pipe.specs.StoreRuns.{TellsLine, fault_line};
ghost use Rattle.pod_pipe.specs.Tables.{table_status};

use crate::Status;
use crate::token_file::TableFault;
use journal_log::{OpenFault, open_status, report_refusal};
use pod_io::{Sink, write_number_line};

/// Writes the refusal line of a run whose store isn't opened, and returns the status.
pub fn refuse<E: Sink>(fault: OpenFault, errors: &mut E) -> Status
    ensures status { result.0 ≡ open_status fault }
    ensures told { TellsRefusal fault (E.taken errors.old) (E.taken errors.new)
        (E.faults errors.old) (E.faults errors.new) }
    ensures no_fewer { E.faults errors.old ≤ E.faults errors.new }
{
    report_refusal(errors, fault);
    Status(open_status(fault))
}

/// Writes the line of a refusal, which is a word and a number, and returns the status. A failed
/// write changes nothing.
fn write_reason<E: Sink>(word: &[u8], number: u64, status: u8, errors: &mut E) -> Status
    ensures told { TellsLine (number_line word.now number) status result.0 (E.taken errors.old)
        (E.taken errors.new) (E.faults errors.old) (E.faults errors.new) }
    ensures no_fewer { E.faults errors.old ≤ E.faults errors.new }
{
    match write_number_line(errors, word, number) {
        Ok(()) => Status(status),
        Err(_failed) => Status(status),
    }
}

/// Writes the refusal line of a run without a token table.
pub fn refuse_table<E: Sink>(fault: TableFault, errors: &mut E) -> Status
    ensures told { TellsLine (fault_line fault) (table_status fault) result.0 (E.taken errors.old)
        (E.taken errors.new) (E.faults errors.old) (E.faults errors.new) }
    ensures no_fewer { E.faults errors.old ≤ E.faults errors.new }
{
    match fault {
        TableFault::Line { line } => write_reason(b"tokens line ", line, 9, errors),
        TableFault::ReadFault => Status(3),
        TableFault::NoMemory => Status(7),
        TableFault::ReadLimit => Status(14),
    }
}
