//! [`pipe`]: one connection over two streams, with its last line.
ghost use Rattle.std.specs.Prelude.{Option};
ghost use Rattle.pod_command.specs.declared.entry.Entry.{Entry};
ghost use Rattle.pod_core.specs.History.{History};
ghost use Rattle.conn_talk.specs.Agents.{asking_of};
ghost use Rattle.pod_pipe.specs.CountedFaults.{StreamFaultsCounted, no_table};
ghost use Rattle.pod_pipe.specs.RunStreams.{streams_of};
ghost use Rattle.pod_pipe.specs.Served.{Leaves, WritesSession};
ghost use Rattle.pod_pipe.specs.Statuses.{PipesAndTells, status_of};
ghost use Rattle.pod_pipe.specs.Streams.{CountsInput};

use crate::end_line_text::write_end_line;
use crate::held_answers::Held;
use crate::holder::PodHolder;
use crate::input_loop::serve;
use crate::options::PipeOptions;
use crate::status::PipeEnd;
use pod_io::{Clock, Sink, Source};
use std::alloc::Global;

/// How a connection ended, and the holder of its pod.
#[derive(Drop)]
pub struct Piped<H> {
    pub end: PipeEnd,
    pub holder: H,
}

/// Serves the input as connection 1 of the holder's pod, writes the responses to the output and the
/// trail to the error sink, where it is enabled, and reports there by a last line how it ended.
///
/// Each piece is answered before the next one is read. For each history that the holder
/// represented, what was written is the output of a session from its end on, and the holder then
/// represents that history with the entries of the session's items, item by item. Where one agent
/// makes all requests and none of them fails, a run at the same moments over a history that ends
/// alike for the agent writes these bytes.
pub fn pipe<H: PodHolder, S: Source, K: Sink, E: Sink, C: Clock>(
    alloc: Global,
    holder: H,
    options: &PipeOptions,
    input: &mut S,
    output: &mut K,
    errors: &mut E,
    clock: &C,
) -> Piped<H>
    requires { (history : History) × (doubt : Option Entry) × H.stands holder history doubt }

    // For each history that the holder represented, with an entry in doubt or without.
    ensures pipes { (history : History) (doubt : Option Entry) → H.stands holder history doubt
        → PipesAndTells (C.may_give clock.now) (asking_of options.now.agents) options.now.trail
        history (Leaves H.stands H.takes (C.may_give clock.now) H.faults history doubt holder
        result.holder) result.end
        (S.rest input.old) (S.rest input.new) (K.taken output.old) (K.taken output.new)
        (E.taken errors.old) (E.taken errors.new) (E.faults errors.old) (E.faults errors.new) }

    // Whatever the end, what was written is a prefix of the output of a session over what was read.
    ensures session { (history : History) (doubt : Option Entry) → H.stands holder history doubt
        → WritesSession (C.may_give clock.now) (asking_of options.now.agents) options.now.trail
        history (Leaves H.stands H.takes (C.may_give clock.now) H.faults history doubt holder
        result.holder)
        (S.rest input.old) (S.rest input.new) (K.taken output.old) (K.taken output.new) }
    ensures counts { CountsInput result.end (S.reads input.old) (S.reads input.new)
        (S.ends input.old) (S.ends input.new) }

    // It ends by a fault only where a count increased.
    ensures counted { StreamFaultsCounted no_table
        (streams_of S.rest S.faults S.reads S.ends K.taken K.faults E.taken E.faults
        input.old input.new output.old output.new errors.old errors.new)
        (status_of result.end) }
{
    let mut held = Held { holder };
    let end = serve(alloc, &mut held, options, input, output, errors, clock);
    let end = write_end_line(end, errors);
    let Held { holder } = held;
    Piped { end, holder }
}
