//! Rows in byte order of their paths, in pages that versions share.
//!
//! ```text
//! let rows = Rows::of(alloc, items.as_slice())?;     // items in byte order of their paths
//! let next = rows.put(alloc, &item)?;                // shares all pages but one
//! let found = rows.find(b"/a/b");                    // in the old version as before
//! let below = next.below(alloc, b"/a/")?;            // reads no page outside of `/a/`
//! ```
//!
//! A version has books of at most [`PAGE_LIMIT`] pages, and a page has at most [`PAGE_LIMIT`]
//! items. A change copies the books' handles, one book's handles of pages, and one page's handles
//! of rows; no row is copied. A page or book that becomes too large is halved, and an empty one is
//! dropped; small ones aren't joined. [`Rows::into_with`] puts an item into a version that nobody
//! needs any more, and changes in place the books and pages that no other version shares;
//! [`Rows::set`] does so where it replaces an item, and leaves the rows as they were where it fails.
//!
//! Contracts see a version as the list of its items, each a row with the access list that governs
//! it. Proved: the items are in strict byte order of their paths ([`Rows::are_in_order`]); a search
//! finds exactly the item at a path (`found`), and reads at most 15 keys more than the number of
//! items has binary digits, each for one comparison (`cost`); putting an item gives the items before
//! it, the item and those after it, and a removal all others ([`Rows::put`], [`Rows::into_with`],
//! [`Rows::set`], [`Rows::without`]); the items below a text are those whose paths begin with it, in
//! order ([`Rows::below`]), and those directly below it have after it a slash at most at their end
//! ([`Rows::direct_below`]); the first item from a text on is the first that isn't before it
//! ([`Rows::first_from`]). No clause says which memory is shared.
//!
//! The counted search, [`Rows::find_counted`], is generic in the path that it looks for, of which it
//! knows [`Sought`] alone: it learns nothing of the path but by a comparison that adds a step to the
//! count of its ledger, and it has no way to a second count. The functions of which it consists are
//! generic in what they search too, and have no way to the key of a row or a page but by [`Keyed`],
//! whose reader adds the step. So its `cost` bounds the keys that it reads and the comparisons that
//! it makes: one that reads or compares more often, or counts less, doesn't meet its contract.
//!
//! The crate stands on `pod_command`, `pod_path`, `rdf_graph`, `iri_ref` and `pod_base`.
#![tactic(auto)]

mod item;
mod keyed;
mod limits;
mod page_node;
mod part;
mod part_list;
mod prefix_listing;
mod rows;
mod search_steps;
mod sought_path;

pub use item::Item;
pub use keyed::Keyed;
pub use limits::PAGE_LIMIT;
pub use rows::Rows;
pub use search_steps::Steps;
pub use sought_path::Sought;
