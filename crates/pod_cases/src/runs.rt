//! Runs of `podctl` in memory. What the streams and disks of a run are is known here alone: what it
//! left are bytes.
ghost use Rattle.std.specs.Prelude.{IfOk, IsSome};

use crate::stores::Store;
use pod_base::{Mem, NoMemory};
use pod_disk::{Call, Disk, Disks, MemDisk, NotedCall, Place};
use pod_io::{Clock, MemSink, MemSource, SetClock, Sink, Source};
use pod_tool::{Status, run_podctl};
use std::alloc::Global;

/// What the clock gives.
pub(crate) const SECONDS: u64 = 784_111_777;

/// How many bytes a read gives and a write takes at most, and the call that fails: the one of that
/// number, from 1, of the object `first`, `second`, `input`, `tokens`, `output` or `errors`.
#[derive(Clone, Copy)]
pub(crate) struct Streams<'a> {
    pub(crate) read: usize,
    pub(crate) write: usize,
    pub(crate) object: &'a str,
    pub(crate) call: u64,
}

/// Streams of large pieces, of which no call fails.
pub(crate) const WHOLE: Streams<'static> = Streams {
    read: 100_000,
    write: 100_000,
    object: "",
    call: 0,
};

/// What a run left: its status, what its sinks took, the store, and the calls of the disk that has a
/// fault, or else of the first, a letter each.
#[derive(Drop)]
pub(crate) struct Run {
    pub(crate) status: u8,
    pub(crate) output: Vec<u8>,
    pub(crate) errors: Vec<u8>,
    pub(crate) calls: String,
    pub(crate) store: Store,
}

/// What a run is over.
#[derive(Drop)]
struct World {
    input: MemSource,
    output: MemSink,
    errors: MemSink,
    place: Place<MemDisk, MemSource>,
}

impl Streams<'_> {
    /// The numbers of the calls of an object that fail.
    fn failing(&self, alloc: Global, object: &str) -> Mem<Vec<u64>> {
        let mut numbers = Vec::new(alloc);
        if self.object == object {
            numbers.push(self.call)?;
        }
        Ok(numbers)
    }

    fn source(&self, alloc: Global, bytes: &[u8], object: &str) -> Mem<MemSource> {
        let failing = self.failing(alloc, object)?;
        Ok(MemSource::new(bytes.to_vec(alloc)?, self.read.max(1), failing))
    }

    fn sink(&self, alloc: Global, object: &str) -> Mem<MemSink> {
        let failing = self.failing(alloc, object)?;
        Ok(MemSink::new(alloc, self.write.max(1), failing))
    }

    fn disk(&self, alloc: Global, bytes: &[u8], object: &str) -> Mem<MemDisk> {
        let failing = self.failing(alloc, object)?;
        MemDisk::new(alloc, bytes.to_vec(alloc)?, failing)
    }

    /// The place of a store and a token table.
    fn place(&self, alloc: Global, store: &Store, tokens: &[u8]) -> Mem<Place<MemDisk, MemSource>>
        ensures { IfOk result (λ place. IsSome place.disks) }
    {
        let first = self.disk(alloc, &store.first, "first")?;
        let second = self.disk(alloc, &store.second, "second")?;
        Ok(Place {
            disks: Some(Disks { first, second }),
            tokens: self.source(alloc, tokens, "tokens")?,
        })
    }

    fn world(&self, alloc: Global, store: &Store, tokens: &[u8], input: &[u8]) -> Mem<World>
        ensures { IfOk result (λ world. IsSome world.place.disks) }
    {
        Ok(World {
            input: self.source(alloc, input, "input")?,
            output: self.sink(alloc, "output")?,
            errors: self.sink(alloc, "errors")?,
            place: self.place(alloc, store, tokens)?,
        })
    }
}

/// Runs `podctl`. It is generic and says nothing of what the run does, so that the clauses of
/// `run_podctl` stay as they are.
fn call<S: Source, K: Sink, E: Sink, D: Disk, T: Source, C: Clock>(
    alloc: Global,
    words: &[String],
    input: &mut S,
    output: &mut K,
    errors: &mut E,
    place: &mut Place<D, T>,
    clock: &mut C,
) -> u8
    requires { IsSome place.old.disks }
{
    let Status(status) = run_podctl(alloc, words, input, output, errors, place, clock);
    status
}

/// The letter of a call.
fn letter(noted: &NotedCall) -> char {
    match noted.call {
        Call::Length => 'l',
        Call::Read { .. } => 'r',
        Call::Write { .. } => 'w',
        Call::Cut { .. } => 'c',
        Call::Sync => 's',
    }
}

/// Calls of a disk, a letter each.
fn letters(alloc: Global, calls: &[NotedCall]) -> Mem<String> {
    let mut letters = String::new(alloc);
    for noted in calls {
        letters.push(letter(noted))?;
    }
    Ok(letters)
}

/// What a run with that status left, of which the calls of the disk of a side are shown.
fn left(alloc: Global, status: u8, world: &World, side: &str) -> Mem<Run> {
    match &world.place.disks {
        Some(Disks { first, second }) => Ok(Run {
            status,
            output: world.output.taken().to_vec(alloc)?,
            errors: world.errors.taken().to_vec(alloc)?,
            calls: letters(
                alloc,
                if side == "second" {
                    second.noted()
                } else {
                    first.noted()
                },
            )?,
            store: Store {
                first: first.bytes().to_vec(alloc)?,
                second: second.bytes().to_vec(alloc)?,
            },
        }),
        None => Err(NoMemory),
    }
}

/// The words of a text, which are separated by spaces.
fn words_of(alloc: Global, text: &str) -> Mem<Vec<String>> {
    let mut words = Vec::new(alloc);
    for word in text.split(' ') {
        words.push(String::from_str(alloc, word)?)?;
    }
    Ok(words)
}

/// Runs `podctl` with these words over a store, a token table and an input.
pub(crate) fn run_with(
    alloc: Global,
    words: &str,
    store: &Store,
    tokens: &[u8],
    input: &[u8],
    streams: Streams<'_>,
) -> Mem<Run> {
    let words = words_of(alloc, words)?;
    let mut world = streams.world(alloc, store, tokens, input)?;
    let mut clock = SetClock { seconds: SECONDS };
    let status = call(
        alloc,
        &words,
        &mut world.input,
        &mut world.output,
        &mut world.errors,
        &mut world.place,
        &mut clock,
    );
    left(alloc, status, &world, streams.object)
}

/// The status of `podctl` with these words over two empty disks, an empty token table, and streams
/// that aren't in memory.
pub(crate) fn status_over<S: Source, K: Sink>(
    alloc: Global,
    words: &str,
    input: &mut S,
    output: &mut K,
) -> Mem<u8> {
    let words = words_of(alloc, words)?;
    let mut place = WHOLE.place(alloc, &Store::empty(alloc), b"")?;
    let mut errors = WHOLE.sink(alloc, "errors")?;
    let mut clock = SetClock { seconds: SECONDS };
    Ok(call(
        alloc,
        &words,
        input,
        output,
        &mut errors,
        &mut place,
        &mut clock,
    ))
}

/// Serves an input as one connection of the pod of a store, each request the owner's.
pub(crate) fn serve(alloc: Global, store: &Store, input: &[u8], streams: Streams<'_>) -> Mem<Run> {
    run_with(alloc, "pipe --owner", store, b"", input, streams)
}

impl Run {
    /// Its status and its responses.
    pub(crate) fn text(&self, alloc: Global) -> Mem<String> {
        let mut text = format!(in alloc; "{}", self.status)?;
        crate::responses::push_responses(alloc, &mut text, &self.output)?;
        Ok(text)
    }

    /// The number of the bytes after the last complete message, where the line on the error sink
    /// says so and the status is 12.
    pub(crate) fn cut_length(&self) -> Option<usize> {
        let line = str::from_utf8(&self.errors).ok()?;
        let rest = line
            .strip_prefix("end: cut ")?
            .strip_suffix("\n")?
            .parse::<usize>()
            .ok()?;
        if self.status == 12 { Some(rest) } else { None }
    }
}
