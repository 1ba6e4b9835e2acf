//! N3 Patch (Solid Protocol, section 5.3.1): the patch that a text parses to.
//!
//! ```text
//! match read(alloc, &base, b"_:p a <http://www.w3.org/ns/solid/terms#InsertDeletePatch> .") {
//!     Ok(patch) => .., // conditions, deletions and insertions
//!     Err(N3Fault::Constraint(rule)) => .., // the first rule that the document breaks
//!     Err(fault) => ..,
//! }
//! ```
//!
//! Proved: [`read`] returns the patch that the text parses to (`PatchSpells` of `specs/Spells.antt`,
//! clause `spells`), else the first fault of syntax, else the first broken rule, and `TooLarge`
//! last (clause `fault`, `IsN3Fault` of `specs/Faults.antt`). [`judge`] does the same over triples
//! (clauses `patch`, `fault`; `specs/Parts.antt`, `specs/Rules.antt`, `specs/Size.antt`). Each part
//! is a set, in the order of the first occurrences of its patterns. Where the text parses to a
//! patch and no bracket is too deep, the result is that patch, or out of memory (clause `only`).
//! The result of both meets what `graph_patch::instantiate` requires (clause `bound`). [`laws`] has
//! what follows from the definitions.
//!
//! A document whose triples count more than [`KEPT_BYTES_LIMIT`] is answered out of memory.
//!
//! It depends on `turtle_reader`, which reads the lexemes of a document, hands out its triples and
//! names its unnamed nodes, and on `rdf_graph` for terms and patches.
#![tactic(auto)]

mod collected_triples;
mod fault;
mod free_variables;
mod judging;
pub mod laws;
mod pattern_ref;
mod patterns;
mod reading;
mod rules;
mod size;
mod triples;
mod vocabulary;

pub use fault::{CONDITIONS_LIMIT, Judgement, N3Fault, PatchRule};
pub use judging::judge;
pub use reading::read;
pub use size::KEPT_BYTES_LIMIT;
pub use triples::{PatchNode, PatchTriple};
pub use vocabulary::{Part, SOLID_DELETES, SOLID_INSERT_DELETE_PATCH, SOLID_INSERTS, SOLID_WHERE};
