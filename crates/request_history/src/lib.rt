//! The world of many connections and one keeper as a value: it takes events, one after the other.
//!
//! ```ignore
//! let mut world = World::new(alloc, first_snapshot(alloc, &base, &owner, moment)?, 2)?;
//! world.step(alloc, &Event::Arrive { conn: 0, piece })?;
//! world.step(alloc, &Event::Look { conn: 0, place: 0, moment })?;   // the response of a GET
//! let written = world.output(0);
//! ```
//!
//! [`World::step`] is the relation of `pod_core` (`WorldStep` of `pod_core/specs/World.antt`) as a
//! function. Proved: after Ok the world is one to which that relation leads by the event (`steps`);
//! [`StepFault::NotNow`] comes only where the relation leads to no world (`not_now`); after both
//! refusals the world is as before (`unchanged`). A new world is the first one of its history
//! (`World::new`, `first`), and a journal can hold its pod (`recordable`); each entry whose record a
//! step writes has a stored form (`storable`). [`laws`] says that so all that `world_laws` says of
//! events holds of the events that a world took, and that each image with which it may stop stands
//! for its history, or for that with one entry more, whatever the entries are.
//!
//! The crate reads no clock, no wire and no disk. It depends on `http_conn` for the events of the
//! input, on `pod_core` for replies and definitions, on `http_out` for bytes, on `pod_pages` for the
//! versions of a pod, which share their pages, and on `world_laws` for the laws.
#![tactic(auto)]

mod answer_bytes;
mod any_clock;
mod connection_input;
mod event;
pub mod laws;
mod lock_holder;
mod lock_holder_steps;
mod next_change;
mod next_read;
mod parts_and_events;
mod recorded_entry;
mod world;
mod world_connection;
mod world_journal;
mod world_keeper;

pub use event::{Event, StepFault};
pub use world::World;
