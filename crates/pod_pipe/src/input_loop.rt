//! Serves an input as one connection.
ghost use Rattle.std.specs.Prelude.{◌≡◌, ◌≢◌, ◌==◌, ◌≤◌, ◌⊎◌, Option, if◌then◌else◌};
ghost use Rattle.pod_base.specs.Counts.{CountIncreased};
ghost use Rattle.pod_command.specs.declared.entry.Entry.{Entry};
ghost use Rattle.pod_core.specs.History.{History};
ghost use Rattle.conn_talk.specs.Agents.{asking_of};
ghost use Rattle.pod_pipe.specs.Held.{end_of_talk};
ghost use Rattle.pod_pipe.specs.Served.{Leaves};
ghost use Rattle.pod_pipe.specs.Statuses.{Pipes};
ghost use Rattle.pod_pipe.specs.Streams.{CountsInput};

use crate::held_answers::Held;
use crate::holder::PodHolder;
use crate::options::PipeOptions;
use crate::status::PipeEnd;
use conn_talk::{Connection, TalkEnd};
use history_laws::sessions_are_isolated;
use http_conn::Conn;
use pod_io::{Clock, Sink, Source};
use std::alloc::Global;

/// The most bytes that one read requests.
const PIECE_LIMIT: usize = 65_536;

/// The most reads of one input.
const READ_LIMIT: u64 = 1 << 40;

/// The number of the one connection.
const CONNECTION: u64 = 1;

/// Ends the loop over an input whose connection's events ended so: each of its requests had a
/// place.
fn pipe_end(end: TalkEnd) -> PipeEnd
    requires { end ≢ TalkEnd.NoPlace }
    ensures { result ≡ end_of_talk end }
{
    match end {
        TalkEnd::Closed => PipeEnd::Closed,
        TalkEnd::Limit => PipeEnd::Limit,
        TalkEnd::Upgraded => PipeEnd::Upgraded,
        TalkEnd::Bad { status } => PipeEnd::Bad { status },
        TalkEnd::WriteFault => PipeEnd::WriteFault,
        TalkEnd::NoMemory => PipeEnd::NoMemory,
        TalkEnd::NoPlace => unreachable!(),
    }
}

/// Ends the loop over an input that ended after so many bytes of an unfinished message.
fn at_end(rest: usize) -> PipeEnd
    ensures { result ≡ (if rest == 0 then PipeEnd.Peer else PipeEnd.Cut rest) }
{
    if rest == 0 {
        PipeEnd::Peer
    } else {
        PipeEnd::Cut { rest }
    }
}

/// Serves an input as connection 1, in a loop of reads. Each piece is answered before the next one
/// is read.
pub(crate) fn serve<H: PodHolder, S: Source, K: Sink, E: Sink, C: Clock>(
    alloc: Global,
    held: &mut Held<H>,
    options: &PipeOptions,
    input: &mut S,
    output: &mut K,
    errors: &mut E,
    clock: &C,
) -> PipeEnd
    requires { (history : History) × (doubt : Option Entry)
        × H.stands held.old.holder history doubt }
    ensures pipes { (history : History) (doubt : Option Entry)
        → H.stands held.old.holder history doubt
        → Pipes (C.may_give clock.now) (asking_of options.now.agents) options.now.trail history
        (Leaves H.stands H.takes (C.may_give clock.now) H.faults history doubt held.old.holder
        held.new.holder) result
        (S.rest input.old) (S.rest input.new) (K.taken output.old) (K.taken output.new)
        (E.taken errors.old) (E.taken errors.new) }
    ensures counts { CountsInput result (S.reads input.old) (S.reads input.new)
        (S.ends input.old) (S.ends input.new) }
    ensures input_faults { S.faults input.old ≤ S.faults input.new }
    ensures output_faults { K.faults output.old ≤ K.faults output.new }
    ensures error_faults { E.faults errors.old ≤ E.faults errors.new }
    ensures read_fault { result ≡ PipeEnd.ReadFault
        → CountIncreased (S.faults input.old) (S.faults input.new) }
    ensures write_fault { result ≡ PipeEnd.WriteFault
        → CountIncreased (K.faults output.old) (K.faults output.new)
        ⊎ CountIncreased (E.faults errors.old) (E.faults errors.new) }
{
    sessions_are_isolated(clock);
    let mut connection = Connection {
        conn: CONNECTION,
        number: 0,
    };
    let mut conn = Conn::new(alloc);
    let mut piece = [0u8; PIECE_LIMIT];
    'reads: for _ in 0..READ_LIMIT {
        let Ok(count) = input.read(&mut piece) else {
            return PipeEnd::ReadFault;
        };
        if count == 0 {
            return at_end(conn.rest());
        }
        let Ok(heard) = conn.feed(alloc, &piece[..count]) else {
            return PipeEnd::NoMemory;
        };
        match connection.answer_events(
            alloc,
            held,
            heard.as_slice(),
            &options.agents,
            options.trail,
            output,
            errors,
            clock,
        ) {
            Ok(()) => {}
            Err(end) => return pipe_end(end),
        }
    }
    PipeEnd::ReadLimit
}
