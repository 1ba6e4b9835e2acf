//! Expanded JSON-LD (JSON-LD 1.1, section 9): read into graphs, and written from them.
//!
//! ```text
//! let bytes = br#"[{"@id":"/a","http://e.example/p":[{"@value":"x"}]}]"#;
//! let graph = read(alloc, &base, bytes)?;
//! let text = write(alloc, &graph)?;    // an array with a node object for each subject
//! ```
//!
//! The profile is that of `docs/rules/json-ld.md`: no contexts, no named graphs, whole numbers.
//! Proved: `Expands` (`specs/Expands.antt`) says by the cases of a JSON value which graph it stands
//! for, and [`read`] returns that graph (clause `graph`). Each fault has a clause that says exactly
//! when it comes (`not_json`, `out_of_profile`, `too_large`). [`laws`] says that a value stands for
//! one graph at most, and that each subject of a graph has one node object.
//!
//! [`write()`] returns `document_text` (`specs/Document.antt`), the compact text of an array with a
//! node object for each subject (clause `text`), and [`read`] reads that text as the graph for every
//! base (clause `reads_back`), where each label is one of Turtle, each language tag is in lower
//! case, and the triples are within the limit. The length of the text is known before it is
//! written, so it takes one block of memory.
//!
//! JSON is read by `serde_json`, and written by `json`, a token at a time; labels and tags are those of `turtle_lex`, references those of
//! `iri_ref`.
#![tactic(auto)]

mod document_reading;
mod document_walk;
mod document_writing;
mod fault;
mod key_order;
pub mod laws;
mod node_names;
mod node_writing;
mod term_prefetch;
mod token_writing;
mod used_labels;
mod value_count;
mod value_literals;
mod value_walk;
mod value_writing;
mod vocabulary_iris;
mod walk_scope;
mod walk_state;
mod written_len;

pub use document_reading::read;
pub use document_writing::write;
pub use fault::JsonLdFault;
pub use value_count::VALUES_LIMIT;
pub use walk_state::MADE_LIMIT;
