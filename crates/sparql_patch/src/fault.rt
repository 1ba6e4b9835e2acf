//! Why a text is no update of SPARQL data.

use thiserror::Error;

/// Why a text is no update of SPARQL data, in the order in which the faults are told.
#[derive(Clone, Copy, Debug, PartialEq, Eq, Error)]
pub enum SparqlFault {
    /// The first fault of syntax is at this byte.
    #[error("no update at byte {at}")]
    Syntax { at: usize },
    /// A blank node stands in a formula.
    #[error("a blank node in an update")]
    Blank,
    /// The encoded triples, repeats included, are over `rdf_graph::TRIPLES_LIMIT`.
    #[error("too large")]
    TooLarge,
    #[error("out of memory")]
    NoMemory,
}
