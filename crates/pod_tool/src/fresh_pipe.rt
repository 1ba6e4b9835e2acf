//! `pipe --fresh`: a connection of a new pod in memory.
ghost use Rattle.std.specs.Prelude.{◌≡◌, ◌≢◌, IfOk, None};
ghost use Rattle.pod_rows.specs.FirstPods.{first_pod};
ghost use Rattle.pod_pipe.specs.CountedFaults.{StreamFaultsCounted, no_table};
ghost use Rattle.pod_pipe.specs.Memory.{memory_stands};
ghost use Rattle.pod_pipe.specs.RunStreams.{streams_of};
ghost use Rattle.pod_rows.specs.WellFormed.{WellFormed};
ghost use Rattle.pod_tool.specs.Fresh.{RunsFresh, fresh_base, fresh_history};

use iri_ref::Iri;
use pod_base::{Mem, Moment, NoMemory, Text};
use pod_io::{Clock, Sink, Source};
use pod_pages::Version;
use pod_pipe::{Agents, MemoryPod, PipeEnd, PipeOptions, Status, clock_moment, pipe};
use pod_rows::{StateFault, first_pods_are_well_formed, first_snapshot};
use std::alloc::Global;

/// The base of a pod in memory.
const FRESH_BASE: &str = "http://127.0.0.1:8080/";

/// The base of the new pod in memory of `pipe --fresh`.
fn base(alloc: Global) -> Mem<Iri>
    ensures { IfOk result (λ base. base ≡ fresh_base) }
{
    match Iri::read(alloc, FRESH_BASE) {
        Ok(base) => Ok(base),
        Err(_) => Err(NoMemory),
    }
}

/// The state of a new pod for `pipe --fresh` with that owner, whose rows have that moment.
fn first_state(alloc: Global, owner: &Iri, moment: Moment) -> Mem<Version>
    ensures pod { IfOk result (λ state. state.pod ≡ first_pod fresh_base owner.now moment) }
    ensures next { IfOk result (λ state. state.next ≡ 0) }
    ensures well_formed { IfOk result (λ state. WellFormed state.pod) }
{
    let base = base(alloc)?;
    let snapshot = first_snapshot(alloc, &base, owner, moment)?;
    first_pods_are_well_formed();
    match Version::of(alloc, snapshot) {
        Ok(state) => Ok(state),
        Err(StateFault::NoMemory) => Err(NoMemory),
        Err(StateFault::NotWellFormed) => unreachable!(),
    }
}

/// The new pod in memory of `pipe --fresh` with that owner, whose rows have that moment.
fn fresh_pod(alloc: Global, owner: &Iri, moment: Moment) -> Mem<MemoryPod>
    ensures { IfOk result (λ pod. memory_stands pod (fresh_history owner.now moment.0) None) }
{
    let state = first_state(alloc, owner, moment)?;
    Ok(MemoryPod {
        state,
        last: Moment(0),
        out_of_memory: 0,
    })
}

/// The new pod of `pipe --fresh`, and that every request is its owner's.
pub(crate) fn fresh_start(
    alloc: Global,
    owner: &Iri,
    trail: bool,
    moment: Moment,
) -> Mem<(MemoryPod, PipeOptions)>
    ensures pod { IfOk result
        (λ start. memory_stands start.0 (fresh_history owner.now moment.0) None) }
    ensures owner { IfOk result (λ start. start.1.agents ≡ Agents.Owner owner.now) }
    ensures trail { IfOk result (λ start. start.1.trail ≡ trail) }
{
    let pod = fresh_pod(alloc, owner, moment)?;
    let owner = Text::of(alloc, owner.as_str())?;
    let options = PipeOptions {
        agents: Agents::Owner(owner),
        trail,
    };
    Ok((pod, options))
}

/// Serves the input as one connection of a new pod in memory (`pipe --fresh`) with that owner,
/// whose rows have the clock's moment.
pub(crate) fn pipe_fresh<S: Source, K: Sink, E: Sink, C: Clock>(
    alloc: Global,
    owner: &Iri,
    trail: bool,
    input: &mut S,
    output: &mut K,
    errors: &mut E,
    clock: &C,
) -> Status
    ensures not_invalid { result.0 ≢ 2 }
    ensures runs { RunsFresh (C.may_give clock.now) owner.now trail
        (streams_of S.rest S.faults S.reads S.ends K.taken K.faults E.taken E.faults
        input.old input.new output.old output.new errors.old errors.new) result.0 }
    ensures counted { StreamFaultsCounted no_table
        (streams_of S.rest S.faults S.reads S.ends K.taken K.faults E.taken E.faults
        input.old input.new output.old output.new errors.old errors.new) result.0 }
{
    let moment = clock_moment(clock);
    match fresh_start(alloc, owner, trail, moment) {
        Ok(start) => {
            let (pod, options) = start;
            let piped = pipe(alloc, pod, &options, input, output, errors, clock);
            piped.end.status()
        }
        Err(_none) => PipeEnd::NoMemory.status(),
    }
}
