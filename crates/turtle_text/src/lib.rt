//! Reads documents of Turtle (RDF 1.1 Turtle) as graphs.
//!
//! ```text
//! let base = Iri::read(alloc, "http://e.example/")?;
//! match read(alloc, &base, b"<a> <b> [], ( 1 ) .") {
//!     Ok(graph) => ..,
//!     Err(TurtleFault::Bad { at, kind }) => ..,
//! }
//! ```
//!
//! Proved of [`read`]: it returns the graph that the bytes spell (clause `spells`, by `Spells` of
//! `specs/Spells.antt`), and they then have no fault (`sound`); else the first fault over all kinds
//! (`fault`, by `IsFirstFault` of `specs/Faults.antt`). Where the bytes spell a graph, no bracket
//! is too deep and the triples aren't too large, that graph is the answer, or out of memory
//! (`only`). By [`laws`] a text spells one graph, by one list of lexemes and one tree, and has one
//! first fault, at the least position of all its faults.
//!
//! It reads the tokens once, by the walk of `turtle_reader`, and once more for the labels where the
//! document has an unnamed node. Triples share the memory of their terms.
//!
//! ```text
//! let text = write(alloc, &graph)?;        // <http://e.example/a> <http://e.example/b> "c" .
//! let size = len(&graph);                  // text.len(), without writing it
//! ```
//!
//! [`write()`] returns `graph_text` of `rdf_graph`, a line for each triple, in byte order (clause
//! `text`), into memory of its length, which is [`len()`] (clause `length`); [`term_len`] is that of
//! a term's text.
#![tactic(auto)]

mod document_reading;
mod document_triples;
mod graph_text;
mod graph_text_len;
pub mod laws;

pub use document_reading::read;
pub use graph_text::write;
pub use graph_text_len::{len, term_len};
pub use turtle_terms::{Scope, TurtleFault, TurtleKind, term};
