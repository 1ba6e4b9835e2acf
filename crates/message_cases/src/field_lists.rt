//! The elements of lists.

use case_words::{bytes, shown};
use field_list::{Elements, Quoting};
use std::alloc::{AllocError, Global};

/// The elements of a value, each in brackets.
fn elements(alloc: Global, quoting: Quoting, value: &str) -> Result<String, AllocError> {
    let value = bytes(alloc, value)?;
    let mut text = String::new(alloc);
    for element in Elements::of(quoting, value.as_slice()) {
        let element = shown(alloc, element)?;
        write!(text, "[{element}]")?;
    }
    Ok(text)
}

pub(crate) fn strings(alloc: Global, value: &str) -> Result<String, AllocError> {
    elements(alloc, Quoting::Strings, value)
}

pub(crate) fn tags(alloc: Global, value: &str) -> Result<String, AllocError> {
    elements(alloc, Quoting::Tags, value)
}
