//! The grammar of three languages over tokens: Turtle (RDF 1.1 Turtle, section 6.5), N3 Patch, and
//! SPARQL updates of `INSERT DATA` and `DELETE DATA`. It knows no prefix and no term: what a list
//! of symbols produces names its tokens by index.
//!
//! ```text
//! let mut machine = Machine::new(alloc, Start::Document);
//! for token in tokens {
//!     machine.step(Symbol::Token(token.kind))?;
//!     for production in machine.produced() { .. }
//! }
//! if machine.is_complete() { .. }
//! ```
//!
//! Proved: a list of symbols is derived where a syntax tree has them as its symbols and produces
//! what the tree does (`Derives` of `specs/Derivations.antt`). [`Machine`] reads symbols one by one:
//! it refuses the first with which nothing goes on or that opens a bracket too many (clauses `read`,
//! `refused`), returns what each produces, says whether all so far is derived (`complete`,
//! `unfinished`) and what a last String would add (`waits`, `string`), and which tokens can still be
//! named (`names`). Its memory is its stack, at most a few goals for each open bracket, and what the
//! last symbol produced. The grammar is unambiguous: no two trees have the same symbols
//! ([`laws::one_tree`]). [`laws`] has what proofs of readers cite.
//!
//! It depends on `turtle_lex` for the kinds of tokens and on `pod_base` for `NoMemory`.
#![tactic(auto)]

mod engine;
mod fault;
mod goal;
pub mod laws;
mod machine;
mod named;
mod objects;
mod production;
mod statements;
mod symbol;

pub use fault::{DEPTH_LIMIT, Refusal};
pub use machine::Machine;
pub use production::{Node, Production, SymbolicTriple, Within};
pub use symbol::{Start, Symbol};
