//! What the lines of a case program have in common: [`run`] reads a case from each line and prints it
//! with its answer, and the words of its fields stand for the same methods, IRIs, paths, terms and
//! graphs in each program.
//!
//! Terms are written in two ways. A word of a pod (`pod_term`) is short for an IRI of the pod, of a
//! person or of a vocabulary. A marked word (`marked_term`) begins with a mark that says which kind
//! of term it is.
#![tactic(auto)]

mod addresses;
mod lines;
mod marked;
mod methods;
mod pods;
mod triples;

pub use addresses::{iri_of, iri_or_bad, path_or_root};
pub use lines::{bytes, push_hex, run, shown, shown_whole, text};
pub use marked::{marked_graph, marked_term};
pub use methods::{first_word, known, method_of, number_of, numbers_of};
pub use pods::{add_words, pod_graph, pod_iri, pod_term};
pub use triples::{add_triple, triples_text};
