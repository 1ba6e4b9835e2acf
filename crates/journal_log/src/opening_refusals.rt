//! The status and the line of a store that isn't opened.
ghost use Rattle.std.specs.Prelude.{◌≡◌, ◌≤◌};
ghost use Rattle.pod_io.specs.Writing.{AddsOrPart, Writes};
ghost use Rattle.pod_io.specs.Counts.{CountsFaults};
ghost use Rattle.journal_log.specs.Refusals.{TellsRefusal, damage_line, open_status};

use crate::{OpenFault, Side};
use pod_io::{Failed, Sink, write_number_line};

/// The status of a run whose opening of a journal is refused.
pub fn open_status(fault: OpenFault) -> u8
    ensures { result ≡ open_status fault }
{
    match fault {
        OpenFault::Empty => 10,
        OpenFault::Damaged { side: _, at: _ } => 5,
        OpenFault::DiskFault => 6,
        OpenFault::NoMemory => 7,
    }
}

/// Writes the line of a journal's opening that is refused for a damage.
fn write_damage<E: Sink>(errors: &mut E, side: Side, at: u64) -> Result<(), Failed>
    ensures writes { Writes result (damage_line side at) (E.taken errors.old) (E.taken errors.new) }
    ensures faults { CountsFaults result (E.faults errors.old) (E.faults errors.new) }
{
    match side {
        Side::First => write_number_line(errors, b"damaged first ", at),
        Side::Second => write_number_line(errors, b"damaged second ", at),
    }
}

/// Reports that the opening of a journal is refused for a damage. A failed write changes nothing.
fn report_damage<E: Sink>(errors: &mut E, side: Side, at: u64)
    ensures told { AddsOrPart (damage_line side at) (E.taken errors.old) (E.taken errors.new)
        (E.faults errors.old) (E.faults errors.new) }
    ensures no_fewer { E.faults errors.old ≤ E.faults errors.new }
{
    let _told = write_damage(errors, side, at);
}

/// Reports why the opening of a journal is refused: a damage by its line, another fault by none. A
/// failed write changes nothing.
pub fn report_refusal<E: Sink>(errors: &mut E, fault: OpenFault)
    ensures told { TellsRefusal fault (E.taken errors.old) (E.taken errors.new)
        (E.faults errors.old) (E.faults errors.new) }
    ensures no_fewer { E.faults errors.old ≤ E.faults errors.new }
{
    match fault {
        OpenFault::Damaged { side, at } => report_damage(errors, side, at),
        OpenFault::Empty => {}
        OpenFault::DiskFault => {}
        OpenFault::NoMemory => {}
    }
}
