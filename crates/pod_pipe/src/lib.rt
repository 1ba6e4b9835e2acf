//! One connection over two streams: what is read is served from a pod, and what is written is the
//! output of a session over a history of it.
//!
//! ```ignore
//! let options = PipeOptions { agents: Agents::Owner(owner), trail: false };
//! let Piped { end, holder } =
//!     pipe(alloc, pod, &options, &mut input, &mut output, &mut errors, &clock);
//! ```
//!
//! [`PodHolder`] is what holds the pod: [`MemoryPod`] in memory, or the keeper of a store. Its
//! ghost member `stands` is the relation between a value and the histories that it represents.
//!
//! Proved of [`pipe`], for each history that the holder represented: what was written is the output
//! of a session of connection 1 over the bytes read, from the end of that history on, and the
//! holder then represents the history with exactly the entries of the session's items (`pipes`);
//! whatever the end, what was written is a prefix of that of a session (`session`); the trail has
//! the lines of the items that were answered, and the last line reports the end; nothing is read
//! after the end of the input (`counts`); and a fault comes only where a count of an object passed
//! in increased (`counted`, and `Leaves` of the returned holder). Where one agent
//! makes all requests, the session is one over each history that ends alike for the agent, and each
//! run of the same events at the same moments over that history writes the same bytes, where no 500
//! and no 503 came in either (`isolated` of `Continues`).
//!
//! It depends on `conn_talk` for one connection, on `pod_core` for answers, histories, sessions and
//! their output, on `history_laws` for what follows of sessions, on `pod_pages` for the pod in
//! memory, on `http_conn` for messages, and on `pod_io` for the last line.
//!
//! ```ignore
//! // agents by the token table of the place
//! let status = pipe_store(
//!     alloc, true, false, &mut input, &mut output, &mut errors, &mut place, &clock);
//! ```
//!
//! [`pipe_store`] serves one connection of the pod on its two disks, for every disk, stream and
//! clock that meets its contract (`runs`): the store is opened, or it isn't and the refusal has its
//! cause and its line; then the token table is read, where requests are authenticated by it, or its
//! fault is reported; then the connection is served as [`pipe`] promises, for each history that the
//! opened keeper represented. The keeper then represents that history with exactly the entries of
//! the session's items, and reached it item by item: at each moment of each of them, each pair of
//! crash images represents the history with the entries of the items before it, or that with the
//! entry in doubt or the one under way. What is in doubt is the entry of an item that was answered
//! by 500, and what ran out of memory changed nothing. The disks are put back (`place`).
#![tactic(auto)]

mod connection;
mod end_line_text;
mod held_answers;
mod holder;
mod input_loop;
mod memory_pod;
mod options;
mod program;
mod refusal_lines;
mod status;
mod store_pipe;
mod stored_pod;
mod token_file;

pub use conn_talk::{Agents, clock_moment};
pub use connection::{Piped, pipe};
pub use holder::{HolderFault, PodHolder};
pub use memory_pod::{MemoryPod, moment_after};
pub use options::PipeOptions;
pub use pod_core::Answer;
pub use program::{given_words, store_in_folder};
pub use refusal_lines::{refuse, refuse_table};
pub use status::{PipeEnd, Status};
pub use store_pipe::pipe_store;
pub use token_file::{TableFault, read_table};
