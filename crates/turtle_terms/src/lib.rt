//! The terms that the tokens of Turtle mean (RDF 1.1 Turtle, section 6.3).
//!
//! ```text
//! let mut scope = Scope::new(alloc);
//! scope.declare(alloc, "ex", Iri::read(alloc, "http://e.example/")?)?;
//! let bytes = b"ex:a\\-b";
//! if let Some(token) = next_token(bytes, 0)? {
//!     let term = term(alloc, &base, &scope, bytes, &token)?;   // <http://e.example/a-b>
//! }
//! ```
//!
//! Proved: a token's value is a function of its text (`specs/Values.antt`), decoded in one pass
//! from left to right, and its meaning under a base and the declared prefixes is that of
//! `specs/Meaning.antt`: [`term`] returns it, or the fault that it has (clauses `term`, `fault`,
//! `only`, `only_fault`). A later declaration of a prefix replaces an earlier one
//! ([`Scope::declare`], clause `declared`). [`laws`] has what the proofs of readers and writers
//! cite.
//!
//! A [`Vocabulary`] has the IRIs of RDF and XML Schema that a document means without writing them;
//! its [`Vocabulary::term`] shares them, and those that were read last ([`RecentIris`]). The crate depends on `turtle_lex` for tokens, on `iri_ref`
//! for resolution, and on `rdf_graph` for terms.
#![tactic(auto)]

mod escapes;
mod fault;
mod iris;
pub mod laws;
mod recent_iris;
mod scope;
mod term_of;
mod token_text;
mod vocabulary;

pub use fault::{TurtleFault, TurtleKind};
pub use iris::is_iri_kind;
pub use recent_iris::RecentIris;
pub use scope::Scope;
pub use term_of::term;
pub use token_text::{label, language, lexical_form, prefix, variable};
pub use vocabulary::{Vocabulary, Word};
