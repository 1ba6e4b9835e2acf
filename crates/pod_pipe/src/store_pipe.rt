//! [`pipe_store`]: `pipe` over a store.
ghost use Rattle.std.specs.Prelude.{◌≡◌, ◌≢◌, ◌≤◌, Option, Some, false, IfOk, IfErr, IsSome};
ghost use Rattle.pod_command.specs.declared.entry.Entry.{Entry};
ghost use Rattle.pod_core.specs.History.{History};
ghost use Rattle.pod_keeper.specs.KeeperRuns.{StandsWith};
ghost use Rattle.pod_pipe.specs.CountedFaults.{DiskCountIncreased, DiskFaultCounted};
ghost use Rattle.pod_pipe.specs.CountedFaults.{StreamFaultsCounted};
ghost use Rattle.pod_pipe.specs.DiskRuns.{HoldsOfDisks, disks_of};
ghost use Rattle.pod_pipe.specs.RunStreams.{streams_of};
ghost use Rattle.pod_pipe.specs.Streams.{AddsReads};
ghost use Rattle.pod_pipe.specs.StoreRuns.{RunsKeeper, RunsStore};
ghost use Rattle.pod_pipe.specs.Tables.{HasAgentsCause, IsAsked, tokens_of};

use crate::refusal_lines::{refuse, refuse_table};
use crate::stored_pod::StoredPod;
use crate::token_file::{TableFault, read_table};
use crate::{Agents, PipeOptions, Piped, Status, pipe};
use pod_base::{Mem, NoMemory, Text};
use pod_disk::{Disk, Disks, Place};
use pod_io::{Clock, Sink, Source};
use pod_keeper::{Keeper, NotOpened};
use pod_rows::PodState;
use std::alloc::Global;

/// The owner of the pod in the store that a pipe serves.
fn owner_of<D: Disk>(alloc: Global, keeper: &Keeper<D>) -> Mem<Text>
    ensures { IfOk result (λ owner. owner ≡ keeper.now.pod.owner) }
{
    keeper.version().owner().copy(alloc)
}

/// How the requests of a pipe over a store are authenticated: by the token table, or every request
/// is the owner's.
fn agents_of<D: Disk, T: Source>(
    alloc: Global,
    by_tokens: bool,
    keeper: &Keeper<D>,
    tokens: &mut T,
) -> Result<Agents, TableFault>
    ensures asked { IfOk result (λ agents. IsAsked by_tokens keeper.now.pod.owner agents
        (tokens_of T.rest T.faults T.reads T.ends tokens.old tokens.new)) }
    ensures fault { IfErr result (λ fault. HasAgentsCause by_tokens fault
        (tokens_of T.rest T.faults T.reads T.ends tokens.old tokens.new)) }
    ensures reads { AddsReads (T.reads tokens.old) (T.reads tokens.new) }
    ensures no_tokens { by_tokens ≡ false → tokens.new ≡ tokens.old }
    ensures faults { T.faults tokens.old ≤ T.faults tokens.new }
{
    if by_tokens {
        match read_table(alloc, tokens) {
            Ok(table) => Ok(Agents::Table(table)),
            Err(fault) => Err(fault),
        }
    } else {
        match owner_of(alloc, keeper) {
            Ok(owner) => Ok(Agents::Owner(owner)),
            Err(NoMemory) => Err(TableFault::NoMemory),
        }
    }
}

/// Pipes the input, as one connection, to the pod that a store's keeper holds. Returns the keeper.
fn pipe_keeper<D: Disk, T: Source, S: Source, K: Sink, E: Sink, C: Clock>(
    alloc: Global,
    by_tokens: bool,
    trail: bool,
    keeper: Keeper<D>,
    tokens: &mut T,
    input: &mut S,
    output: &mut K,
    errors: &mut E,
    clock: &C,
) -> (Status, Keeper<D>)
    requires { (history : History) × (doubt : Option Entry)
        × StandsWith D.image keeper history doubt }
    ensures runs { RunsKeeper D.image D.moment D.left_since D.faults (C.may_give clock.now)
        by_tokens trail keeper result.1
        (tokens_of T.rest T.faults T.reads T.ends tokens.old tokens.new)
        (streams_of S.rest S.faults S.reads S.ends K.taken K.faults E.taken E.faults
        input.old input.new output.old output.new errors.old errors.new) result.0.0 }
    ensures not_invalid { result.0.0 ≢ 2 }
    ensures no_refusal { result.0.0 ≢ 6 }
    ensures no_tokens { by_tokens ≡ false → tokens.new ≡ tokens.old }
    ensures counted { StreamFaultsCounted
        (tokens_of T.rest T.faults T.reads T.ends tokens.old tokens.new)
        (streams_of S.rest S.faults S.reads S.ends K.taken K.faults E.taken E.faults
        input.old input.new output.old output.new errors.old errors.new) result.0.0 }
{
    match agents_of(alloc, by_tokens, &keeper, tokens) {
        Ok(agents) => {
            let options = PipeOptions { agents, trail };
            let pod = StoredPod {
                keeper,
                out_of_memory: 0,
            };
            let piped = pipe(alloc, pod, &options, input, output, errors, clock);
            let Piped { end, holder } = piped;
            (end.status(), holder.keeper)
        }
        Err(fault) => (refuse_table(fault, errors), keeper),
    }
}

/// Opens a store and pipes the input, as one connection, to its pod. Returns the disks.
fn run_store<D: Disk, T: Source, S: Source, K: Sink, E: Sink, C: Clock>(
    alloc: Global,
    by_tokens: bool,
    trail: bool,
    disks: Disks<D>,
    tokens: &mut T,
    input: &mut S,
    output: &mut K,
    errors: &mut E,
    clock: &C,
) -> (Status, Disks<D>)
    ensures not_invalid { result.0.0 ≢ 2 }
    ensures runs { RunsStore
        (disks_of D.content D.image D.moment D.left_since D.faults disks result.1)
        (C.may_give clock.now) by_tokens trail
        (tokens_of T.rest T.faults T.reads T.ends tokens.old tokens.new)
        (streams_of S.rest S.faults S.reads S.ends K.taken K.faults E.taken E.faults
        input.old input.new output.old output.new errors.old errors.new) result.0.0 }
    ensures no_tokens { by_tokens ≡ false → tokens.new ≡ tokens.old }
    ensures counted { StreamFaultsCounted
        (tokens_of T.rest T.faults T.reads T.ends tokens.old tokens.new)
        (streams_of S.rest S.faults S.reads S.ends K.taken K.faults E.taken E.faults
        input.old input.new output.old output.new errors.old errors.new) result.0.0 }
    ensures disk_fault { result.0.0 ≡ 6 → DiskCountIncreased D.faults disks result.1 }
{
    match Keeper::open(alloc, disks) {
        Ok(keeper) => {
            let (status, keeper) = pipe_keeper(
                alloc, by_tokens, trail, keeper, tokens, input, output, errors, clock,
            );
            (status, keeper.close())
        }
        Err(refused) => {
            let NotOpened { fault, disks } = refused;
            (refuse(fault, errors), disks)
        }
    }
}

/// Opens the store of a place and pipes the input, as one connection, to its pod. The disks are put
/// back.
pub fn pipe_store<D: Disk, T: Source, S: Source, K: Sink, E: Sink, C: Clock>(
    alloc: Global,
    by_tokens: bool,
    trail: bool,
    input: &mut S,
    output: &mut K,
    errors: &mut E,
    place: &mut Place<D, T>,
    clock: &C,
) -> Status
    requires { IsSome place.old.disks }
    ensures place { IsSome place.new.disks }
    ensures not_invalid { result.0 ≢ 2 }
    ensures runs { HoldsOfDisks D.content D.image D.moment D.left_since D.faults place.old place.new
        (λ disks. RunsStore disks (C.may_give clock.now) by_tokens trail
        (tokens_of T.rest T.faults T.reads T.ends place.old.tokens place.new.tokens)
        (streams_of S.rest S.faults S.reads S.ends K.taken K.faults E.taken E.faults
        input.old input.new output.old output.new errors.old errors.new) result.0) }
    ensures no_tokens { by_tokens ≡ false → place.new.tokens ≡ place.old.tokens }
    ensures counted { StreamFaultsCounted
        (tokens_of T.rest T.faults T.reads T.ends place.old.tokens place.new.tokens)
        (streams_of S.rest S.faults S.reads S.ends K.taken K.faults E.taken E.faults
        input.old input.new output.old output.new errors.old errors.new) result.0 }
    ensures disk_fault { DiskFaultCounted D.faults place.old place.new result.0 }
{
    let Some(disks) = place.disks.take() else {
        unreachable!()
    };
    let tokens = &mut place.tokens;
    let (status, disks) = run_store(
        alloc, by_tokens, trail, disks, tokens, input, output, errors, clock,
    );
    place.disks = Some(disks);
    status
}
