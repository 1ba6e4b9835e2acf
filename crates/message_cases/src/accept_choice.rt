//! The choice between Turtle and JSON-LD.

use case_words::bytes;
use content_nego::choose;
use std::alloc::{AllocError, Global};

pub(crate) fn chosen(accept: Option<&[u8]>) -> &'static str {
    match choose(accept, "text/turtle", "application/ld+json") {
        Some(0) => "turtle",
        Some(_) => "json-ld",
        None => "none",
    }
}

/// The choice by the value of a field.
pub(crate) fn answer(alloc: Global, value: &str) -> Result<String, AllocError> {
    let value = bytes(alloc, value)?;
    String::from_str(alloc, chosen(Some(value.as_slice())))
}
