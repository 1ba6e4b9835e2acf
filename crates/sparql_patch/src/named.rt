//! [`Named`]: a triple that an update names.

use rdf_graph::Triple;

/// A triple of an update, and the word before its formula.
#[derive(Debug, Drop)]
pub struct Named {
    pub triple: Triple,
    /// Whether the word is INSERT. Otherwise it is DELETE.
    pub insert: bool,
}
