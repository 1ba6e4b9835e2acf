//! The command of the words after the program's name.
//!
//! ```ignore
//! // pipe --fresh https://alice.example/#me --trail
//! match read(alloc, &words)? {
//!     Some(Command::Pipe { asking: Asking::Fresh(owner), trail: true }) => ..,
//!     None => ..,   // the words have no reading
//!     ..
//! }
//! ```
//!
//! Proved: [`read`] returns the command of the definition `reading` (`reading`), which may be
//! carried out (`sound`), and is out of memory only where the words have a reading
//! (`out_of_memory`). The law [`laws::readings_are_written`] says what that definition means: words
//! have a reading exactly where they are a subcommand and then uses of its options and its operand,
//! each at most once, in any order; and the reading is the command that these name.
//!
//! It depends on `pod_rows` for the form of a base, on `token_table` and `iri_ref` for agents, and
//! on `pod_base`.
//!
//! [`read_settings`] does the same for the words after `podd`, the port and the number of workers:
//! it returns the settings of the definition `reading` of `specs/PoddReadings.antt`, and none where
//! the words are invalid; the numbers are within their limits (`port`, `workers`).
#![tactic(auto)]

mod command;
pub mod laws;
mod numeric_word;
mod podctl_options;
mod podctl_reader;
mod podd_options;
mod podd_reader;
mod subcommand;

pub use command::{Asking, Command};
pub use numeric_word::{DIGITS_LIMIT, LOAD_LIMIT, number_up_to};
pub use podctl_options::{Mode, is_dashed};
pub use podctl_reader::read;
pub use podd_reader::{
    DEFAULT_PORT, DEFAULT_WORKERS, PORT_LIMIT, Settings, WORKERS_LIMIT, read_settings,
};
pub use subcommand::{Flag, Parameter, Subcommand, split_value};
