//! [`RecentIris`]: the IRIs that were read last, whose memory later ones share.

ghost use Rattle.std.specs.Prelude.{◌≡◌, ◌++◌, List, ℕ, Ok, true, IfSome};
ghost use Rattle.turtle_terms.specs.Meaning.{IsReferenceMeaning};

use iri_ref::Iri;
use pod_base::Mem;
use std::alloc::Global;

/// How many places there are.
const PLACES: usize = 64;

/// IRIs that were read, each at the place that its written end has. A later one of the same text is
/// a copy, which takes no memory.
#[derive(Drop)]
pub struct RecentIris {
    places: Vec<Option<Iri>>,
}

/// The place of an IRI of this end.
fn place_of(end: &str) -> usize {
    match end.as_bytes() {
        [first, .., last] => (end.len() ^ *first as usize ^ 5 * *last as usize) % PLACES,
        _ => 0,
    }
}

/// Whether the IRI is the prefix with this at its end.
fn is_joined(iri: &Iri, prefix: &Iri, local: &str) -> bool
    ensures { result ≡ true → iri.now ≡ prefix.now ++ local.now }
{
    let text = iri.as_str();
    if text.len() != prefix.as_str().len().saturating_add(local.len()) {
        return false;
    }
    match text.strip_prefix(prefix.as_str()) {
        Some(rest) => rest == local,
        None => false,
    }
}

/// The same IRI, unless there is no memory for it.
fn copied(alloc: Global, iri: &Iri) -> Option<Iri>
    ensures { IfSome result (λ copy. copy ≡ iri.now) }
{
    match iri.copy(alloc) {
        Ok(copy) => Some(copy),
        Err(_) => None,
    }
}

impl RecentIris {
    /// No places.
    pub(crate) fn none(alloc: Global) -> RecentIris {
        RecentIris {
            places: Vec::new(alloc),
        }
    }

    /// No IRIs yet.
    pub fn new(alloc: Global) -> Mem<RecentIris> {
        let mut places = Vec::with_capacity(alloc, PLACES)?;
        for _place in 0..PLACES {
            places.push(None)?;
        }
        Ok(RecentIris { places })
    }

    /// The IRI at the place of this end.
    fn at(&self, end: &str) -> Option<&Iri> {
        match self.places.as_slice().get(place_of(end)) {
            Some(Some(iri)) => Some(iri),
            _ => None,
        }
    }

    /// The IRI that this reference is, if it was read.
    pub(crate) fn written(&self, alloc: Global, reference: &str) -> Option<Iri>
        ensures { IfSome result (λ iri. (base : List ℕ)
            → IsReferenceMeaning base reference.now (Ok iri)) }
    {
        match self.at(reference) {
            Some(iri) if iri.as_str() == reference => copied(alloc, iri),
            _ => None,
        }
    }

    /// The IRI of the prefix with this at its end, if it was read.
    pub(crate) fn joined(&self, alloc: Global, prefix: &Iri, local: &str) -> Option<Iri>
        ensures { IfSome result (λ iri. iri ≡ prefix.now ++ local.now) }
    {
        match self.at(local) {
            Some(iri) if is_joined(iri, prefix, local) => copied(alloc, iri),
            _ => None,
        }
    }

    /// Notes an IRI that was written with this end.
    pub(crate) fn note(&mut self, alloc: Global, end: &str, iri: &Iri) {
        let place = place_of(end);
        if place < self.places.len() {
            self.places[place] = copied(alloc, iri);
        }
    }
}
