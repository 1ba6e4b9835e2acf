//! What the steps of a walk over a document depend on.

use crate::used_labels::Labels;
use crate::vocabulary_iris::Words;
use iri_ref::Iri;
use std::alloc::Global;

#[derive(Drop)]
pub(crate) struct Scope<'a> {
    pub(crate) alloc: Global,
    pub(crate) base: &'a Iri,
    /// The labels of the document.
    pub(crate) labels: Labels,
    pub(crate) words: Words,
}
