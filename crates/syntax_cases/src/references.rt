//! Cases of `iri_ref`: absolute IRIs, and references resolved against them.

use case_words::{iri_of, known, shown, text};
use iri_ref::{Iri, IriFault};
use pod_base::Mem;
use std::alloc::{AllocError, Global};

/// Shows the copy of an IRI, or the fault.
fn show(alloc: Global, found: Result<Iri, IriFault>) -> Result<String, AllocError> {
    match found {
        Ok(iri) => match iri.copy(alloc) {
            Ok(copy) => shown(alloc, copy.as_str().as_bytes()),
            Err(_) => Err(AllocError),
        },
        Err(IriFault::NoMemory) => Err(AllocError),
        Err(fault) => format!(in alloc; "{fault:?}"),
    }
}

fn read(alloc: Global, field: &str) -> Result<String, AllocError> {
    let text = text(alloc, field)?;
    show(alloc, Iri::read(alloc, text.as_str()))
}

/// The IRI of a field, if it is one.
pub(crate) fn iri(alloc: Global, field: &str) -> Mem<Option<Iri>> {
    let text = text(alloc, field)?;
    iri_of(alloc, text.as_str())
}

/// What a reference resolves to.
fn resolve(alloc: Global, base: &str, reference: &str) -> Result<String, AllocError> {
    let Some(base) = known(iri(alloc, base))? else {
        return String::from_str(alloc, "no base");
    };
    let reference = text(alloc, reference)?;
    show(alloc, iri_ref::resolve(alloc, &base, reference.as_str()))
}

/// The IRI that a reference in a document stands for.
fn stands_for(alloc: Global, base: &str, reference: &str) -> Result<String, AllocError> {
    let Some(base) = known(iri(alloc, base))? else {
        return String::from_str(alloc, "no base");
    };
    let reference = text(alloc, reference)?;
    show(
        alloc,
        iri_ref::iri_of_reference(alloc, &base, reference.as_str()),
    )
}

fn append(alloc: Global, prefix: &str, end: &str) -> Result<String, AllocError> {
    let Some(prefix) = known(iri(alloc, prefix))? else {
        return String::from_str(alloc, "no prefix");
    };
    let end = text(alloc, end)?;
    show(alloc, prefix.appended(alloc, end.as_str()))
}

fn compare(alloc: Global, one: &str, other: &str) -> Result<String, AllocError> {
    match (known(iri(alloc, one))?, known(iri(alloc, other))?) {
        (Some(one), Some(other)) => format!(in alloc; "{:?}", one.cmp(&other)),
        _ => String::from_str(alloc, "no IRI"),
    }
}

/// What `iri_ref` returns for a call and its arguments.
pub(crate) fn answer(alloc: Global, case: &[&str]) -> Result<String, AllocError> {
    match case {
        ["read", only] => read(alloc, only),
        ["resolve", base, reference] => resolve(alloc, base, reference),
        ["iri_of_reference", base, reference] => stands_for(alloc, base, reference),
        ["appended", prefix, end] => append(alloc, prefix, end),
        ["cmp", one, other] => compare(alloc, one, other),
        _ => String::from_str(alloc, "no case"),
    }
}
