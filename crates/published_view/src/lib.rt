//! Versions for readers that wait for nobody.
//!
//! A [`Publisher`] makes a version visible, and up to 64 [`Looker`]s read the version that is
//! visible then. A look takes no lock and no memory. Each version stands for a list of numbered
//! items, by the relation [`Told`], and the view has one such list, which only grows: its prefixes
//! are [`Front`]s. Publisher, lookers and fronts of one view share a type parameter under
//! [`ViewName`], by which their contracts speak of that list. [`open_view`] opens a view.
//!
//! ```text
//! let (mut publisher, mut lookers) =
//!     open_view::<V, N, R>(rt, alloc, NewList::new(), first, 4, &mut places)?;
//! publisher.prepare(next);
//! publisher.publish(rt, &item);
//! let mut looker = lookers.pop()?;
//! looker.learn(publisher.tell());
//! let version = looker.look()?;
//! ```
//!
//! Proved: a look returns the version that stands for the list that was published when it entered
//! (`version`, `given`), all lists that one looker reads are prefixes of the next (`later`,
//! `told`), and a publication shows what was prepared (`version`, `list`). The readers go through
//! `left_right`, whose two copies hold a version with its list each ([`VersionWithList`]); the list
//! itself is kept by `logbook`, in the proofs alone.
#![tactic(auto)]

mod fault;
mod list_prefix;
mod list_rule;
mod look_counter;
mod looker;
mod publisher;
mod refused_openings;
mod represented_list;
mod version_with_list;
mod view_name;
mod view_opening;

pub use fault::ViewFault;
pub use list_prefix::{Front, NewList};
pub use looker::Looker;
pub use publisher::Publisher;
pub use refused_openings::Places;
pub use represented_list::Told;
pub use version_with_list::{KeptTwice, VersionWithList};
pub use view_name::ViewName;
pub use view_opening::{READERS_LIMIT, open_view};
