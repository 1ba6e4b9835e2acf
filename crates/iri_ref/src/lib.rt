//! Absolute IRIs, and references resolved against them (RFC 3986, section 5.2).
//!
//! ```text
//! let base = Iri::read(alloc, "http://a.example/b/c?q")?;
//! let iri = resolve(alloc, &base, "../d#e")?;   // http://a.example/d#e
//! let same = iri_of_reference(alloc, &base, "http://b.example/x/../y")?; // as it is written
//! let term = base.appended(alloc, "#me")?;      // http://a.example/b/c?q#me
//! let copy = term.copy(alloc)?;                 // shares the memory of term
//! ```
//!
//! `resolve` returns the one text that the standard defines (clauses `resolved`, `only`).
//! `iri_of_reference` is for references in documents: one with a scheme stays as it is written, and
//! a relative one is resolved (`iri`). The faults are exact (`bad_reference`), and so are those of
//! `Iri::read` and `Iri::appended`. `laws` says that each text has its components in exactly one
//! way, and that a reference stands for one IRI.
#![tactic(auto)]

mod characters;
mod components;
mod dot_segments;
mod iri;
pub mod laws;
mod target_components;

pub use dot_segments::is_dot_segment;
pub use iri::{Iri, IriFault, iri_of_reference, resolve};
