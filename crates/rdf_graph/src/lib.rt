//! Terms and triples of RDF, and graphs as sets of triples with one text.
//!
//! ```text
//! let mut graph = Graph::of(triples);              // each triple once, in the order of the lines
//! let added = graph.insert(alloc, triple)?;        // false where the graph has it
//! for triple in graph.walk(Some(&s), None, None) { .. }
//! let next = changed(alloc, &graph, &change)?;     // without the removed ones, with the added ones
//! ```
//!
//! A graph in a contract is the list of its triples, which `IsGraph` (`specs/Graph.antt`) says are
//! triples of RDF in strict order of their lines. Proved: [`Graph::of`], `insert` and `remove` keep
//! that and have exactly the triples that they say; `contains`, `matching` and [`Walk`] find all
//! that a graph has; [`changed`] is the set of `IsChanged`; a term, a triple and a graph are
//! written as their texts, byte by byte ([`Written`], [`Line`]), which are in the order that `Ord`
//! compares them by; encoded sizes are those of the stored forms, saturated. [`order_law`],
//! [`subject_law`], [`set_law`] and [`change_law`] say what follows: graphs with the same triples
//! are equal, and so are those with the same text.
//!
//! What a patch means is `graph_patch`. The crate stands on `pod_base` and `iri_ref`.
#![tactic(auto)]

mod change;
mod graph;
mod iri_lookup;
mod laws;
mod line_order;
mod matching;
mod size;
mod term;
mod term_order;
mod text_append;
mod triple;
mod triple_line;
mod triple_order;
mod triple_ref;
mod triple_walk;
pub mod vocabulary;

pub use change::{Change, changed};
pub use graph::Graph;
pub use laws::{change_law, order_law, set_law, subject_law};
pub use matching::{has_terms, subject_range};
pub use size::{TRIPLES_LIMIT, saturating_sum, size_of};
pub use term::{Term, Written, copy_iri};
pub use triple::Triple;
pub use triple_line::Line;
pub use triple_order::cmp_triples;
pub use triple_ref::{TripleRef, are_rdf_parts, copy_parts, size_of_parts};
pub use triple_walk::Walk;
