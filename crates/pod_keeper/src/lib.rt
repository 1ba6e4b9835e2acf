//! The keeper: the one writer of a pod, over the two disks of its store.
//!
//! ```ignore
//! Keeper::init(alloc, &mut disks, base, owner, moment)?;      // a new store, on two empty disks
//! let mut keeper = Keeper::open(alloc, disks)?;               // each entry is applied once
//! let answer = keeper.commit(alloc, &request, &asked, stamp)?;  // on the disks before it returns
//! let version = keeper.version();
//! ```
//!
//! A commit is two calls, for callers that do something between them: [`Keeper::plan`] answers the
//! change and takes all memory, and [`Keeper::write_planned`] writes the planned entry and takes none.
//!
//! `specs/Kept.antt` defines which histories a keeper represents (`IsKept`), `specs/Commits.antt`
//! what its calls do to them, and `specs/Plans.antt` what is planned. Proved, for every disk: a
//! committed change has the reply at the end of the history, and its entry is the next one
//! (`done`); after a fault or out of memory the history is the same (`fault`, `memory`); a commit
//! is a run of the events of a world, as `specs/CommitEvents.antt` lists them (`world_done`,
//! `world_fault`); at each moment of each call every pair of crash images represents the history,
//! or it with the one entry under way or in doubt (`pairs`), and so between calls
//! ([`Keeper::crash_images_stand`]) and at each moment of a run of requests
//! ([`moments_are_of_steps`], over `specs/KeeperRuns.antt`). A plan has one reply for all histories
//! that the keeper represents (`IsPlan`).
//!
//! It depends on `pod_core` for replies, on `pod_pages` for versions, on `pod_records` and
//! `first_rows` for what records hold, and on `journal_pair` for the disks.
//!
//! Three laws go on from what the clauses of a keeper say of a crash: whatever the moment was, the
//! records that the next opening takes hold the history that the images represent, or that with the
//! one entry ([`openings_give_what_stands`]). [`opens_after`] and [`opens_after_a_crash`] are of
//! openings that crashes cut short, one after the other, however many there are: at each moment of
//! each of them the images represent just that, and an opening that returns a keeper gives it. The
//! first is of a keeper that was closed or stopped between two calls, the second of one that stopped
//! inside a call.
#![tactic(auto)]

mod checkpoint;
mod commit;
mod crash_openings;
mod fault;
mod keeper;
mod laws;
mod new_store;
mod opening;
mod plan;
mod planned_write;

pub use crash_openings::{openings_give_what_stands, opens_after, opens_after_a_crash};
pub use fault::{CommitFault, NotOpened};
pub use keeper::Keeper;
pub use laws::moments_are_of_steps;
pub use plan::{Plan, Planned};
pub use pod_pages::Version;
