//! `load`: a run of the load generator on a new pod in memory.
ghost use Rattle.std.specs.Prelude.{◌≡◌, ◌≤◌, ◌==◌, IfOk, IsTrue};
ghost use Rattle.std.specs.String.{string_bytes};
ghost use Rattle.load_generator.specs.Streams as spec;
ghost use Rattle.pod_base.specs.Counts.{CountIncreased};
ghost use Rattle.pod_pipe.specs.Statuses.{IsTold};
ghost use Rattle.pod_tool.specs.Loads.{IsLoadLine, IsLoaded, PrintsLoad};

use crate::fresh_pipe::fresh_start;
use load_generator::{LOAD_MOMENT, owner, stream, summary_line};
use pod_base::{Mem, Moment, NoMemory};
use pod_io::{MemSink, MemSource, SetClock, Sink, write_all};
use pod_pipe::{PipeEnd, Piped, Status, pipe};
use pod_rows::PodState;
use std::alloc::Global;

/// The most bytes that one read of the stream returns.
const PIECE: usize = 65_536;

/// What a run wrote, and how many rows the pod has after it.
#[derive(Drop)]
pub struct Loaded {
    pub output: MemSink,
    pub rows: usize,
}

/// Whether all events of the command `load` were served on a connection that ended so.
fn is_served(end: PipeEnd) -> bool
    ensures { IsTrue result → IsTold end }
{
    match end {
        PipeEnd::ReadFault => false,
        PipeEnd::WriteFault => false,
        PipeEnd::NoMemory => false,
        PipeEnd::ReadLimit => false,
        _ => true,
    }
}

/// Serves the stream of the command `load`, of so many requests, as a connection of a new pod. It
/// is out of memory also where one of the requests was.
fn serve(alloc: Global, bytes: Vec<u8>, requests: u16) -> Mem<Loaded>
    requires { bytes.items ≡ spec.stream requests }
    ensures { IfOk result (λ loaded. IsLoaded requests loaded.output.taken loaded.rows) }
{
    let owner = owner(alloc)?;
    let (pod, options) = fresh_start(alloc, &owner, false, Moment(LOAD_MOMENT))?;
    let mut input = MemSource::new(bytes, PIECE, Vec::new(alloc));
    let mut output = MemSink::new(alloc, PIECE, Vec::new(alloc));
    let mut errors = MemSink::new(alloc, PIECE, Vec::new(alloc));
    let clock = SetClock {
        seconds: LOAD_MOMENT,
    };
    let piped = pipe(
        alloc,
        pod,
        &options,
        &mut input,
        &mut output,
        &mut errors,
        &clock,
    );
    if piped.holder.out_of_memory != 0 || !is_served(piped.end) {
        return Err(NoMemory);
    }
    let rows = piped.holder.state.count();
    Ok(Loaded { output, rows })
}

/// The line of the command `load` of so many requests.
fn load_line(alloc: Global, requests: u16) -> Mem<String>
    ensures { IfOk result (λ line. IsLoadLine requests (string_bytes line)) }
{
    let bytes = stream(alloc, requests)?;
    let bytes_in = bytes.len();
    let Loaded { output, rows } = serve(alloc, bytes, requests)?;
    summary_line(alloc, requests, bytes_in, output.taken(), rows)
}

/// Runs the command `load`: the requests of the load generator on a new pod in memory, and prints
/// its line. Out of memory, nothing is printed.
pub(crate) fn load<K: Sink>(alloc: Global, requests: u16, output: &mut K) -> Status
    ensures prints { PrintsLoad requests (K.taken output.old) (K.taken output.new) result.0 }
    ensures write_fault { result.0 ≡ 4
        → CountIncreased (K.faults output.old) (K.faults output.new) }
    ensures output_faults { K.faults output.old ≤ K.faults output.new }
{
    let Ok(line) = load_line(alloc, requests) else {
        return PipeEnd::NoMemory.status();
    };
    match write_all(output, line.as_bytes()) {
        Ok(()) => PipeEnd::Peer.status(),
        Err(_failed) => PipeEnd::WriteFault.status(),
    }
}
