//! `podctl`: the commands of one pod, over streams, a place and a clock.
//!
//! ```ignore
//! // podctl pipe --owner
//! let status = run_podctl(
//!     alloc, &words, &mut input, &mut output, &mut errors, &mut place, &mut clock);
//! ```
//!
//! Proved of [`run_podctl`], for every stream, disk and clock that meets its contract: what the run
//! of each command does (`runs`, by `Runs` of `specs/Runs.antt`, with a line for each command);
//! status 2 exactly where the arguments are invalid (`words`), and then nothing is done; a fault
//! only where a count of an object passed in increased (`counted`, `disk_fault`); and what a
//! command doesn't need stays as it was (`unneeded`).
//!
//! It depends on `program_words` for the words, on `podctl_commands` for commands over a store and
//! for a follower, on `pod_pipe` for one connection, on `pod_rows` for a pod in memory, and on
//! `load_generator`.
#![tactic(auto)]

mod follow_command;
mod fresh_pipe;
mod load_command;
mod podctl;
mod store_commands;

pub use pod_pipe::Status;
pub use podctl::run_podctl;
