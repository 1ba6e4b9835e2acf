//! The command `podctl`.
ghost use Rattle.std.specs.Prelude.{◌≡◌, ◌≢◌, ◌↔◌, None, Some, IfSome, IsSome, map};
ghost use Rattle.std.specs.String.{string_bytes};
ghost use Rattle.pod_pipe.specs.CountedFaults.{DiskFaultCounted, StreamFaultsCounted};
ghost use Rattle.pod_pipe.specs.DiskRuns.{HoldsOfDisks};
ghost use Rattle.pod_pipe.specs.RunStreams.{streams_of};
ghost use Rattle.pod_pipe.specs.Tables.{tokens_of};
ghost use Rattle.pod_tool.specs.Runs.{LeavesUnneeded, Runs};
ghost use Rattle.program_words.specs.Readings.{IsSound, reading};

use crate::follow_command::follow_streams;
use crate::fresh_pipe::pipe_fresh;
use crate::load_command::load;
use crate::store_commands::{Printing, init_store, print_store, report_store, ship_store};
use pod_disk::{Disk, Place};
use pod_io::{Clock, Sink, Source};
use pod_pipe::{PipeEnd, Status, pipe_store};
use program_words::{Asking, Command, read};
use std::alloc::Global;

/// Runs `podctl pipe`, which serves the input as one connection: of a new pod in memory, or of the
/// pod of the store.
fn pipe_asked<S: Source, K: Sink, E: Sink, D: Disk, T: Source, C: Clock>(
    alloc: Global,
    asking: Asking,
    trail: bool,
    input: &mut S,
    output: &mut K,
    errors: &mut E,
    place: &mut Place<D, T>,
    clock: &C,
) -> Status
    requires { IsSome place.old.disks }
    ensures place { IsSome place.new.disks }
    ensures not_invalid { result.0 ≢ 2 }
    ensures runs { HoldsOfDisks D.content D.image D.moment D.left_since D.faults place.old place.new
        (λ disks. Runs disks (C.may_give clock.now) (Command.Pipe asking trail)
        (tokens_of T.rest T.faults T.reads T.ends place.old.tokens place.new.tokens)
        (streams_of S.rest S.faults S.reads S.ends K.taken K.faults E.taken E.faults
        input.old input.new output.old output.new errors.old errors.new) result.0) }
    ensures unneeded { LeavesUnneeded (Some (Command.Pipe asking trail)) place.old place.new
        input.old input.new output.old output.new errors.old errors.new }
    ensures counted { StreamFaultsCounted
        (tokens_of T.rest T.faults T.reads T.ends place.old.tokens place.new.tokens)
        (streams_of S.rest S.faults S.reads S.ends K.taken K.faults E.taken E.faults
        input.old input.new output.old output.new errors.old errors.new) result.0 }
    ensures disk_fault { DiskFaultCounted D.faults place.old place.new result.0 }
{
    match asking {
        Asking::Fresh(owner) => pipe_fresh(alloc, &owner, trail, input, output, errors, clock),
        Asking::ByTokens => { pipe_store(alloc, true, trail, input, output, errors, place, clock) }
        Asking::Owner => pipe_store(alloc, false, trail, input, output, errors, place, clock),
    }
}

/// Carries out a command of `podctl`.
fn run<S: Source, K: Sink, E: Sink, D: Disk, T: Source, C: Clock>(
    alloc: Global,
    command: Command,
    input: &mut S,
    output: &mut K,
    errors: &mut E,
    place: &mut Place<D, T>,
    clock: &C,
) -> Status
    requires disks { IsSome place.old.disks }
    requires sound { IsSound command }
    ensures place { IsSome place.new.disks }
    ensures not_invalid { result.0 ≢ 2 }
    ensures runs { HoldsOfDisks D.content D.image D.moment D.left_since D.faults place.old place.new
        (λ disks. Runs disks (C.may_give clock.now) command
        (tokens_of T.rest T.faults T.reads T.ends place.old.tokens place.new.tokens)
        (streams_of S.rest S.faults S.reads S.ends K.taken K.faults E.taken E.faults
        input.old input.new output.old output.new errors.old errors.new) result.0) }
    ensures unneeded { LeavesUnneeded (Some command) place.old place.new input.old input.new
        output.old output.new errors.old errors.new }
    ensures counted { StreamFaultsCounted
        (tokens_of T.rest T.faults T.reads T.ends place.old.tokens place.new.tokens)
        (streams_of S.rest S.faults S.reads S.ends K.taken K.faults E.taken E.faults
        input.old input.new output.old output.new errors.old errors.new) result.0 }
    ensures disk_fault { DiskFaultCounted D.faults place.old place.new result.0 }
{
    match command {
        Command::Init { base, owner } => init_store(alloc, base, &owner, place, clock),
        Command::Pipe { asking, trail } => {
            pipe_asked(alloc, asking, trail, input, output, errors, place, clock)
        }
        Command::Check => print_store(alloc, &Printing::Counts, output, errors, place),
        Command::Audit => print_store(alloc, &Printing::Entries, output, errors, place),
        Command::Load(requests) => load(alloc, requests, output),
        Command::Report { agent } => report_store(alloc, agent, output, errors, place),
        Command::Ship => ship_store(alloc, output, errors, place),
        Command::Follow => follow_streams(alloc, input, output, errors),
    }
}

/// Runs `podctl` with the words after its name, over three streams, the place of a store, and a
/// clock. [`program_words::read`] parses the words:
///
/// - `init` makes a store on the two empty disks of the place;
/// - `pipe` serves the input as one connection of the store's pod, agents by the token table of the
///   place; with `--owner` each request is the owner's; with `--fresh` the pod is a new one in
///   memory, of the base `http://127.0.0.1:8080/`, and each request is its owner's;
/// - `check` prints how much the store holds, and `audit` a line for each entry of its journal;
/// - `load` runs requests of the load generator on a new pod in memory, and prints a line of them;
/// - `report` prints a line for each mode that everyone, or with `--agent` an agent, has on each row
///   of the store's pod that is no access list;
/// - `ship` writes the records of the store's active journal as frames;
/// - `follow` reads frames, keeps the pod that they give, and writes the response to each read.
///
/// The status is 0 where the work was done; 2 exactly where the arguments are invalid; 3 where a
/// read of the input or of the token table failed; 4 where a write failed; 5 where the store is
/// damaged; 6 where a call of a disk failed outside the commit of a request; 7 out of memory; 9
/// where the token table has a faulty line; 10 where `init` finds a disk that isn't empty, or
/// another command two empty disks; 12 where the input ended inside a message; 13 where a message
/// was malformed; 14 after 2^40 reads; and 15 where a frame was refused, isn't whole, or is missing.
pub fn run_podctl<S: Source, K: Sink, E: Sink, D: Disk, T: Source, C: Clock>(
    alloc: Global,
    words: &[String],
    input: &mut S,
    output: &mut K,
    errors: &mut E,
    place: &mut Place<D, T>,
    clock: &mut C,
) -> Status
    // The disks are in their place, and are put back.
    requires { IsSome place.old.disks }
    ensures place { IsSome place.new.disks }

    // What the run of each command does.
    ensures runs { IfSome (reading (map string_bytes words.now)) (λ command.
        HoldsOfDisks D.content D.image D.moment D.left_since D.faults place.old place.new
        (λ disks. Runs disks (C.may_give clock.old) command
        (tokens_of T.rest T.faults T.reads T.ends place.old.tokens place.new.tokens)
        (streams_of S.rest S.faults S.reads S.ends K.taken K.faults E.taken E.faults
        input.old input.new output.old output.new errors.old errors.new) result.0)) }

    // With invalid arguments nothing is done. What a command doesn't need stays as it was.
    ensures words { (result.0 ≡ 2) ↔ (reading (map string_bytes words.now) ≡ None) }
    ensures unneeded { LeavesUnneeded (reading (map string_bytes words.now)) place.old place.new
        input.old input.new output.old output.new errors.old errors.new }

    // A fault is returned only where a count increased.
    ensures counted { StreamFaultsCounted
        (tokens_of T.rest T.faults T.reads T.ends place.old.tokens place.new.tokens)
        (streams_of S.rest S.faults S.reads S.ends K.taken K.faults E.taken E.faults
        input.old input.new output.old output.new errors.old errors.new) result.0 }
    ensures disk_fault { DiskFaultCounted D.faults place.old place.new result.0 }
{
    match read(alloc, words) {
        Ok(Some(command)) => run(alloc, command, input, output, errors, place, clock),
        Ok(None) => Status::INVALID_ARGUMENTS,
        Err(_none) => PipeEnd::NoMemory.status(),
    }
}
