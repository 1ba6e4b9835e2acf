//! Reporting what an agent may do in the pod of a store.
ghost use Rattle.std.specs.Prelude.{◌≡◌, ◌≤◌};
ghost use Rattle.pod_base.specs.Counts.{CountIncreased};
ghost use Rattle.pod_keeper.specs.OpenedPods.{OpensDisks};
ghost use Rattle.podctl_commands.specs.CountedEnds.{EndFaultsCounted};
ghost use Rattle.podctl_commands.specs.Endings.{IsReportedSo};
ghost use Rattle.podctl_commands.specs.Lines.{pod_text, report_text};
ghost use Rattle.podctl_commands.specs.Prints.{Prints, ReportsDamage};

use crate::output_end::written_end;
use crate::report_lines::report_text;
use crate::store_printing::refuse;
use crate::{Ended, StoreEnd};
use pod_base::Agent;
use pod_disk::{Disk, Disks};
use pod_io::{Sink, write_all};
use pod_keeper::Keeper;
use std::alloc::Global;

/// Prints the report of what an agent may do in the pod of a store, and returns how that ended.
fn print_report<D: Disk, K: Sink>(
    alloc: Global,
    keeper: &Keeper<D>,
    agent: &Agent,
    output: &mut K,
) -> StoreEnd
    ensures prints { IsReportedSo (pod_text agent.now keeper.now.pod) (K.taken output.old)
        (K.taken output.new) result }
    ensures write_fault { result ≡ StoreEnd.WriteFault
        → CountIncreased (K.faults output.old) (K.faults output.new) }
    ensures output_faults { K.faults output.old ≤ K.faults output.new }
{
    match report_text(alloc, &**keeper.version(), agent) {
        Ok(text) => written_end(write_all(output, &text)),
        Err(_none) => StoreEnd::NoMemory,
    }
}

/// Opens a store and reports what an agent may do in its pod, by a line for each mode that the
/// agent has on each row that is no access list: the path, the mode, and the rule that grants it,
/// in byte order of the paths and in the order read, write, append, control.
///
/// The ends are those of [`check`](podctl_commands::check). Where a write fails, what was printed is
/// a prefix of the lines; out of memory, nothing was.
pub fn report<D: Disk, K: Sink, E: Sink>(
    alloc: Global,
    disks: Disks<D>,
    agent: &Agent,
    output: &mut K,
    errors: &mut E,
) -> Ended<D>
    // What was printed, by the end.
    ensures printed { Prints (report_text agent.now) (D.content disks.first)
        (D.content disks.second) (K.taken output.old) (K.taken output.new) result.end }
    ensures told { ReportsDamage result.end (E.taken errors.old) (E.taken errors.new)
        (E.faults errors.old) (E.faults errors.new) }

    // The disks are given back, as an opening leaves them.
    ensures disks { OpensDisks D.image D.moment D.left_since D.faults disks.first disks.second
        result.disks.first result.disks.second }

    // It ends by a fault only where a count increased.
    ensures counted { EndFaultsCounted D.faults disks result.disks (K.faults output.old)
        (K.faults output.new) (E.faults errors.old) (E.faults errors.new) result.end }
{
    match Keeper::open_records(alloc, disks) {
        Ok((keeper, _records)) => {
            let end = print_report(alloc, &keeper, agent, output);
            Ended {
                end,
                disks: keeper.close(),
            }
        }
        Err(refused) => refuse(refused, errors),
    }
}
