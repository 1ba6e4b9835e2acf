//! A journal on two disks, which is made short again by a checkpoint: a new journal with one
//! snapshot on the other disk. No moment of a checkpoint is one at which a crash loses a record
//! that was acknowledged.
//!
//! Contracts say so of every pair of crash images, one of each disk, at each moment inside each
//! call.
//!
//! ```ignore
//! write(&mut pair, &mut disks, &snapshot, &record)?;   // a snapshot where a checkpoint is due
//! ```
//!
//! [`Pair`] has the single steps. [`write`] adds one more record, after the gate in doubt is closed
//! and after a checkpoint where one is due. Proved of it, of [`repair`], [`checkpoint`] and
//! [`make_ready`]: which records the active journal has afterwards, and what is in doubt after a
//! fault (`written`, `fault`); and for which records every pair of crash images stands at each
//! moment (`pairs`). None takes memory.
#![tactic(auto)]

mod append_record;
mod before_append;
mod checkpoints;
mod disk_choice;
mod laws;
mod on_side;
mod opening;
mod pair;

pub use append_record::write;
pub use before_append::{checkpoint, make_ready, repair};
pub use laws::{store_damaged_once, store_empty_only, store_stands_once, store_stands_or_damaged};
pub use pair::{Pair, SIZE_LIMIT};
