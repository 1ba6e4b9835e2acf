//! Cases of the libraries of Turtle.

use crate::{documents, token_meanings, unnamed_labels, written_graphs};
use pod_base::Mem;
use std::alloc::Global;

/// What the libraries return for a call and its arguments.
pub(crate) fn call(alloc: Global, case: &[&str]) -> Mem<String> {
    match case {
        ["term", base, prefixes, text] => token_meanings::term(alloc, base, prefixes, text),
        ["language", text] => token_meanings::language(alloc, text),
        ["variable", text] => token_meanings::variable(alloc, text),
        ["unnamed", numbers, document] => unnamed_labels::labels(alloc, numbers, document),
        ["write", triples] => written_graphs::write(alloc, triples),
        _ => documents::call(alloc, "turtle", case),
    }
}
