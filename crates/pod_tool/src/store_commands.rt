//! The commands that make a store in a place, and print of it.
ghost use Rattle.std.specs.Prelude.{◌≡◌, ◌≢◌, IsTrue, IfOk, IsSome};
ghost use Rattle.podctl_commands.specs.Lines.{report_text};
ghost use Rattle.iri_ref.specs.Components.{IsAbsolute};
ghost use Rattle.pod_keeper.specs.OpenedPods.{OpensDisks};
ghost use Rattle.pod_pipe.specs.CountedFaults.{DiskCountIncreased, DiskFaultCounted};
ghost use Rattle.pod_pipe.specs.DiskRuns.{HoldsOfDisks, disks_of};
ghost use Rattle.pod_rows.specs.Base.{is_base};
ghost use Rattle.pod_tool.specs.Stores.{Makes, PrintFaultsCounted, PrintsStore, PrintsUnless};
ghost use Rattle.pod_tool.specs.Stores.{RunsInit, ShipsStore, agent_in};
ghost use Rattle.pod_tool.specs.Texts.{text_of};
ghost use Rattle.podctl_commands.specs.CountedEnds.{EndFaultsCounted};
ghost use Rattle.podctl_commands.specs.Prints.{Prints, ReportsDamage};

use iri_ref::Iri;
use pod_base::{Agent, Mem, Text};
use pod_disk::{Disk, Disks, Place};
use pod_io::{Clock, Sink, Source};
use pod_pipe::{Status, clock_moment};
use podctl_commands::{Ended, StoreEnd, audit, check, init, report, ship};
use std::alloc::Global;

/// What a command prints of a store.
#[derive(Debug, Drop)]
pub enum Printing {
    /// How much it holds.
    Counts,
    /// A line for each entry.
    Entries,
    /// A line for each thing that the agent may do.
    Report(Agent),
}

/// Makes the store of the store command `init` on two disks, at the clock's moment, and returns
/// them.
fn make<D: Disk, C: Clock>(
    alloc: Global,
    base: Iri,
    owner: Text,
    disks: Disks<D>,
    clock: &C,
) -> (Status, Disks<D>)
    requires base { IsTrue (is_base base) }
    requires owner { IsAbsolute owner }
    ensures makes { Makes (disks_of D.content D.image D.moment D.left_since D.faults disks result.1)
        (C.may_give clock.now) base owner result.0.0 }
    ensures no_read { result.0.0 ≢ 3 }
    ensures no_write { result.0.0 ≢ 4 }
    ensures disk_fault { result.0.0 ≡ 6 → DiskCountIncreased D.faults disks result.1 }
{
    let moment = clock_moment(clock);
    let mut disks = disks;
    let end = init(alloc, &mut disks, base, owner, moment);
    (Status(end.status()), disks)
}

/// Runs the store command `init`: makes a store in a place, with the two first rows of a pod of
/// that base and that owner, which have the clock's moment. The disks are put back.
pub(crate) fn init_store<D: Disk, T: Source, C: Clock>(
    alloc: Global,
    base: Iri,
    owner: &Iri,
    place: &mut Place<D, T>,
    clock: &C,
) -> Status
    requires disks { IsSome place.old.disks }
    requires base { IsTrue (is_base base) }
    ensures place { IsSome place.new.disks }
    ensures tokens { place.new.tokens ≡ place.old.tokens }
    ensures runs { HoldsOfDisks D.content D.image D.moment D.left_since D.faults place.old place.new
        (λ disks. RunsInit disks (C.may_give clock.now) base owner.now result.0) }
    ensures no_read { result.0 ≢ 3 }
    ensures no_write { result.0 ≢ 4 }
    ensures disk_fault { DiskFaultCounted D.faults place.old place.new result.0 }
{
    let Ok(owner) = Text::of(alloc, owner.as_str()) else {
        return Status::NO_MEMORY;
    };
    let Some(disks) = place.disks.take() else {
        unreachable!()
    };
    let (status, disks) = make(alloc, base, owner, disks, clock);
    place.disks = Some(disks);
    status
}

/// Runs a store command that prints of the store on two disks, and returns them.
fn print<D: Disk, K: Sink, E: Sink>(
    alloc: Global,
    printing: &Printing,
    disks: Disks<D>,
    output: &mut K,
    errors: &mut E,
) -> Ended<D>
    ensures printed { Prints (text_of printing.now) (D.content disks.first) (D.content disks.second)
        (K.taken output.old) (K.taken output.new) result.end }
    ensures told { ReportsDamage result.end (E.taken errors.old) (E.taken errors.new)
        (E.faults errors.old) (E.faults errors.new) }
    ensures disks { OpensDisks D.image D.moment D.left_since D.faults disks.first disks.second
        result.disks.first result.disks.second }
    ensures counted { EndFaultsCounted D.faults disks result.disks (K.faults output.old)
        (K.faults output.new) (E.faults errors.old) (E.faults errors.new) result.end }
{
    match printing {
        Printing::Counts => check(alloc, disks, output, errors),
        Printing::Entries => audit(alloc, disks, output, errors),
        Printing::Report(agent) => report(alloc, disks, agent, output, errors),
    }
}

/// Runs a store command that prints of the store in a place. The disks are put back.
pub(crate) fn print_store<D: Disk, T: Source, K: Sink, E: Sink>(
    alloc: Global,
    printing: &Printing,
    output: &mut K,
    errors: &mut E,
    place: &mut Place<D, T>,
) -> Status
    requires { IsSome place.old.disks }
    ensures place { IsSome place.new.disks }
    ensures tokens { place.new.tokens ≡ place.old.tokens }
    ensures prints { HoldsOfDisks D.content D.image D.moment D.left_since D.faults place.old
        place.new (λ disks. PrintsStore disks (text_of printing.now) (K.taken output.old)
        (K.taken output.new) (E.taken errors.old) (E.taken errors.new) (E.faults errors.old)
        (E.faults errors.new) result.0) }
    ensures disk_fault { DiskFaultCounted D.faults place.old place.new result.0 }
    ensures counted { PrintFaultsCounted (K.faults output.old) (K.faults output.new)
        (E.faults errors.old) (E.faults errors.new) result.0 }
{
    let Some(disks) = place.disks.take() else {
        unreachable!()
    };
    let Ended { end, disks } = print(alloc, printing, disks, output, errors);
    place.disks = Some(disks);
    Status(end.status())
}

/// The agent of the store command `report`: everyone, where none is named.
fn reported_agent(alloc: Global, agent: Option<Iri>) -> Mem<Agent>
    ensures { IfOk result (λ found. found ≡ agent_in agent) }
{
    match agent {
        Some(agent) => {
            let agent = Text::of(alloc, agent.as_str())?;
            Ok(Agent::Known(agent))
        }
        None => Ok(Agent::Public),
    }
}

/// Runs the store command `report`, which prints what an agent may do in the store in a place. The
/// disks are put back.
pub(crate) fn report_store<D: Disk, T: Source, K: Sink, E: Sink>(
    alloc: Global,
    agent: Option<Iri>,
    output: &mut K,
    errors: &mut E,
    place: &mut Place<D, T>,
) -> Status
    requires { IsSome place.old.disks }
    ensures place { IsSome place.new.disks }
    ensures tokens { place.new.tokens ≡ place.old.tokens }
    ensures prints { HoldsOfDisks D.content D.image D.moment D.left_since D.faults place.old
        place.new (λ disks. PrintsUnless disks (report_text (agent_in agent)) (K.taken output.old)
        (K.taken output.new) (E.taken errors.old) (E.taken errors.new) (E.faults errors.old)
        (E.faults errors.new) result.0) }
    ensures disk_fault { DiskFaultCounted D.faults place.old place.new result.0 }
    ensures counted { PrintFaultsCounted (K.faults output.old) (K.faults output.new)
        (E.faults errors.old) (E.faults errors.new) result.0 }
{
    let Ok(agent) = reported_agent(alloc, agent) else {
        return Status::NO_MEMORY;
    };
    print_store(alloc, &Printing::Report(agent), output, errors, place)
}

/// Runs the store command `ship`, which writes the records of the store in a place as frames. The
/// disks are put back.
pub(crate) fn ship_store<D: Disk, T: Source, K: Sink, E: Sink>(
    alloc: Global,
    output: &mut K,
    errors: &mut E,
    place: &mut Place<D, T>,
) -> Status
    requires { IsSome place.old.disks }
    ensures place { IsSome place.new.disks }
    ensures tokens { place.new.tokens ≡ place.old.tokens }
    ensures ships { HoldsOfDisks D.content D.image D.moment D.left_since D.faults place.old
        place.new (λ disks. ShipsStore disks (K.taken output.old) (K.taken output.new)
        (E.taken errors.old) (E.taken errors.new) (E.faults errors.old) (E.faults errors.new)
        result.0) }
    ensures disk_fault { DiskFaultCounted D.faults place.old place.new result.0 }
    ensures counted { PrintFaultsCounted (K.faults output.old) (K.faults output.new)
        (E.faults errors.old) (E.faults errors.new) result.0 }
{
    let Some(disks) = place.disks.take() else {
        unreachable!()
    };
    let Ended { end, disks } = ship(alloc, disks, output, errors);
    place.disks = Some(disks);
    Status(end.status())
}
