//! IRIs and paths.

use iri_ref::{Iri, IriFault};
use pod_base::{Mem, NoMemory};
use pod_path::Path;
use std::alloc::Global;

/// The IRI that a text is.
pub fn iri_of(alloc: Global, text: &str) -> Mem<Option<Iri>> {
    match Iri::read(alloc, text) {
        Ok(iri) => Ok(Some(iri)),
        Err(IriFault::BadReference) => Ok(None),
        Err(IriFault::NoMemory) => Err(NoMemory),
    }
}

/// The IRI that a text is, or `bad:iri`.
pub fn iri_or_bad(alloc: Global, text: &str) -> Mem<Iri> {
    if let Some(iri) = iri_of(alloc, text)? {
        return Ok(iri);
    }
    match iri_of(alloc, "bad:iri")? {
        Some(iri) => Ok(iri),
        None => Err(NoMemory),
    }
}

/// The path that a text is, or the root.
pub fn path_or_root(alloc: Global, text: &str) -> Mem<Path> {
    if let Some(path) = Path::of_text(alloc, text)? {
        return Ok(path);
    }
    match Path::of_text(alloc, "/")? {
        Some(path) => Ok(path),
        None => Err(NoMemory),
    }
}
