//! The last line of a connection, on the error sink.
ghost use Rattle.std.specs.Prelude.{◌≡◌, ◌≤◌, ◌⊎◌};
ghost use Rattle.pod_io.specs.Writing.{number_line};
ghost use Rattle.pod_base.specs.Counts.{CountIncreased};
ghost use Rattle.pod_pipe.specs.Statuses.{ComesOf, LineHasNumber, ReportsEnd, end_line, status_of};

use crate::status::PipeEnd;
use pod_io::{Sink, write_all, write_number_line};

/// Writes the end line, a word and a number, of an input that ended inside a message or had a
/// malformed one. A failed write changes nothing.
fn write_number<E: Sink>(end: PipeEnd, word: &[u8], number: u64, errors: &mut E) -> PipeEnd
    requires line { number_line word.now number ≡ end_line end }
    requires number { LineHasNumber end }
    ensures end { result ≡ end }
    ensures told { ReportsEnd result (E.taken errors.old) (E.taken errors.new) (E.faults errors.old)
        (E.faults errors.new) }
    ensures no_fewer { E.faults errors.old ≤ E.faults errors.new }
{
    match write_number_line(errors, word, number) {
        Ok(()) => end,
        Err(_failed) => end,
    }
}

/// Writes this end line of status 0, the only one whose failure is a write fault.
fn write_done<E: Sink>(end: PipeEnd, line: &[u8], errors: &mut E) -> PipeEnd
    requires line { line.now ≡ end_line end }
    requires done { status_of end ≡ 0 }
    ensures end { (result ≡ end) ⊎ (result ≡ PipeEnd.WriteFault) }
    ensures told { ReportsEnd result (E.taken errors.old) (E.taken errors.new) (E.faults errors.old)
        (E.faults errors.new) }
    ensures no_fewer { E.faults errors.old ≤ E.faults errors.new }
    ensures failed { result ≡ PipeEnd.WriteFault
        → CountIncreased (E.faults errors.old) (E.faults errors.new) }
{
    match write_all(errors, line) {
        Ok(()) => end,
        Err(_failed) => PipeEnd::WriteFault,
    }
}

/// Writes the end line of a connection, which reports how it ended, unless a fault, out of memory
/// or the limit on reads ended it. It takes no memory.
pub fn write_end_line<E: Sink>(end: PipeEnd, errors: &mut E) -> PipeEnd
    ensures end { ComesOf end result }
    ensures told { ReportsEnd result (E.taken errors.old) (E.taken errors.new) (E.faults errors.old)
        (E.faults errors.new) }
    ensures no_fewer { E.faults errors.old ≤ E.faults errors.new }
    ensures failed { result ≡ PipeEnd.WriteFault → (end ≡ PipeEnd.WriteFault)
        ⊎ CountIncreased (E.faults errors.old) (E.faults errors.new) }
{
    match end {
        PipeEnd::Peer => write_done(end, b"end: peer\n", errors),
        PipeEnd::Closed => write_done(end, b"end: closed\n", errors),
        PipeEnd::Limit => write_done(end, b"end: limit\n", errors),
        PipeEnd::Upgraded => write_done(end, b"end: upgraded\n", errors),
        PipeEnd::Cut { rest } => write_number(end, b"end: cut ", rest as u64, errors),
        PipeEnd::Bad { status } => write_number(end, b"end: bad ", u64::from(status), errors),
        PipeEnd::WriteFault => PipeEnd::WriteFault,
        PipeEnd::ReadFault => PipeEnd::ReadFault,
        PipeEnd::NoMemory => PipeEnd::NoMemory,
        PipeEnd::ReadLimit => PipeEnd::ReadLimit,
    }
}
