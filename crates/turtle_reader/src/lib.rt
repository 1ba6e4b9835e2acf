//! Reads the lexemes of Turtle, N3 patches and SPARQL updates, and hands out their triples.
//!
//! ```text
//! impl Language for Triples { .. }                    // keeps each triple, and judges the size
//! let mut triples = Triples::new(alloc);
//! match walk(alloc, &base, bytes, &mut triples) {
//!     Ok(()) => .., // all triples were kept, in order of production
//!     Err(fault) => .., // the first fault of the bytes
//! }
//! ```
//!
//! Proved: the base and the prefixes in force change with the directives before a lexeme
//! (`specs/Contexts.antt`), and under them a lexeme means a term, a tag, a variable or nothing, or
//! has the fault `Prefix` or `BadIri` (`IsMeaning` of `specs/Meanings.antt`). [`Reader::step`]
//! reads a lexeme exactly where it has no fault (clause `read`), else it returns the fault of the
//! least rank there (`refused`, by `IsFaultAfter` of `specs/Faults.antt`). [`walk`] reads a whole
//! text in a [`Language`]: its start symbol says how the bytes are cut into lexemes (`IsLexed` of
//! `specs/Texts.antt`). It hands out what the nodes of each triple refer to, in order of production
//! (`text`, by `KeepsText` of `specs/Languages.antt`), of bytes without a fault (`no_fault`), else it
//! returns the first fault (`fault`, by `IsFirstFault` of `specs/FirstFaults.antt`). [`laws`] has
//! what the proofs of the languages above cite.
//!
//! A reader keeps the meanings of the lexemes to which a later production may refer, a few for each
//! open bracket. Terms share the memory of the lexemes that mean them, and all that one reader makes
//! have at most [`TERM_BYTES_LIMIT`] bytes. Past that, and past [`STATEMENT_LIMIT`], it is out of
//! memory. The crate stands on `turtle_grammar` for productions and on `turtle_terms` for the terms
//! of tokens.
//!
//! [`Labels`] are the labels of the unnamed nodes of a document: `[`, ANON and the cells of
//! collections. The k-th unnamed node, from 0, gets the k-th of `g0`, `g1`, .. that is no label of
//! the document (clause `label`, by `IsUnnamed` of `specs/Unnamed.antt`); [`LazyLabels`] read the
//! document's tokens at the first unnamed node. [`label_laws`] has what proofs of readers cite: a
//! node has one label, and labels of different nodes differ from each other and from those of the
//! document.
#![tactic(auto)]

mod budget;
mod context;
mod issued_labels;
mod kept_meanings;
pub mod label_laws;
mod label_numbers;
mod labels;
mod language;
pub mod laws;
mod lazy_labels;
mod lexeme;
mod lexing;
mod meaning;
mod progress;
mod reader;
mod referent;
mod text_walk;

pub use budget::{STATEMENT_LIMIT, TERM_BYTES_LIMIT};
pub use context::{Context, Directive};
pub use labels::Labels;
pub use language::Language;
pub use lazy_labels::LazyLabels;
pub use lexeme::Lexeme;
pub use meaning::Meaning;
pub use reader::Reader;
pub use referent::{Referent, ResolvedTriple};
pub use text_walk::walk;
