//! A pod in pages that versions share.
//!
//! ```text
//! let version = Version::of(alloc, snapshot)?;       // refused where it isn't well-formed
//! let next = version.after(alloc, &entry)?;          // shares what the entry doesn't change
//! let found = next.find_counted(&path, &mut steps);  // a row and its access list, in one search
//! let changed = next.effects();                      // of the last 256 entries
//! ```
//!
//! Contracts see a version as its pod, the number of its next change, and the effects that it
//! keeps; they say nothing of pages. Proved: `of` refuses exactly the snapshots that aren't
//! well-formed (`refused`, `well_formed`); a version has all that a [`pod_rows::PodState`] has;
//! `after` is the version after an entry (`Version::after_entry`), and so is [`Replay::after`],
//! which changes in place what nobody looks at; [`Version::advance`] makes a version the next one,
//! without effects, and leaves it as it was where it fails (`version`, `kept`); `find_counted`
//! finds the row and the access list that governs it, and compares the path at most 16 times more
//! than the number of rows has binary digits (`cost`); a copy is equal (`Version::share`). [`laws`]
//! says what a version is after a history. No clause says which memory is shared.
//!
//! The crate stands on `row_pages`, `access_index`, `pod_rows`, `slug_naming`, `acl_rules`,
//! `pod_command`, `rdf_graph`, `pod_path`, `iri_ref` and `pod_base`.
#![tactic(auto)]

mod edits_in_pages;
mod entry_effects;
mod first_child;
mod item_paths;
pub mod laws;
mod limits;
mod list_numbers;
mod list_table;
mod mark_all_rows;
mod marks_after_change;
mod marks_of_paths;
mod replay;
mod row_marks;
mod single_put;
mod version;

pub use entry_effects::{Effect, EffectKind};
pub use limits::EFFECTS_ENTRIES_LIMIT;
pub use replay::Replay;
pub use row_pages::{Keyed, Sought, Steps};
pub use version::Version;
