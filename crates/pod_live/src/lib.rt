//! One keeper under a lock and its published versions, shared by many sessions.
//!
//! ```text
//! let (live, mut sessions) = Live::<N, D>::new(rt, alloc, keeper, names, 4, &mut places)?;
//! let response = live.change(rt, alloc, &mut session, &request, &asked, stamp)?;  // takes the lock
//! let response = answer_read(alloc, &mut session, &request, &asked, stamp)?;      // waits for nobody
//! let keeper = live.close(rt, seats);                                             // of all sessions
//! ```
//!
//! The entries that are made since the store was opened are one list, which only grows, and what a
//! session has seen of it only grows, too. Proved, whatever the threads do: a change has the reply
//! at the end of one such list, which begins with what its session had seen, and its entry follows
//! it in what the session has then seen (`changed`); a request that is no change has the reply at
//! the end of what its session has seen by one look (`read`, `given`); when the sessions are
//! gathered, or the store is closed, all have seen one list, whose length is the sum of their
//! changes (`one_list`); the keeper then represents that list, and each disk fault of a change was
//! counted by a disk (`faults`). The changes that were carried to the disks are steps of the keeper,
//! one after the other, from the one that the store was opened with; at each moment a crash leaves
//! the history with the entries of the changes before, or that with the one in doubt or under way
//! (`TookChanges`, `moments_are_of_changes`).
//!
//! `specs/WorldEvents.antt` says the same as events of a world with many connections: a read is one
//! look at the list that was published then (`look`), and a change takes the lock, is written to the
//! disks and published (`changed`), or fails at one of these steps (`fault_at`).
//!
//! `Names` gives the type parameter `N`, by which these contracts speak of one store. The crate
//! depends on `pod_keeper` for the store, on `published_view` for the readers that don't wait, and
//! on `pod_core` for replies.
#![tactic(auto)]

mod laws;
mod live;
mod locked_store;
mod published_version;
mod read_answers;
mod session;
mod store_names;

pub use laws::moments_are_of_changes;
pub use live::{Live, NotLive, Rounds};
pub use pod_keeper::{CommitFault, Keeper, NotOpened, Version};
pub use published_version::{CommittedEntry, PodTold, Shown};
pub use read_answers::answer_read;
pub use session::{Seat, Session};
pub use store_names::{Changes, Faults, KeeperName, Names, StoreName};
