//! Cases of representations.
//!
//! | Fields after the pod | Result |
//! |---|---|
//! | `offers`: PATH | the types in which the row is offered |
//! | `chosen`: PATH FIELDS | the type that the fields of a request choose, or `none` |
//! | `represent`: PATH TYPE | the content type, tag, moment and body, `ranges` where it has parts |
//! | `kept`: PATH TYPE | in which types the row's text is kept, before and after it was represented |
//! | `verdict`: PATH METHOD FIELDS | the verdict on the preconditions of a request |
//! | `show`: PATH METHOD FIELDS NAMES | the response to a read, with the fields of these names |
//!
//! A type is `turtle`, `json-ld` or `stored`. FIELDS have `|` between them, and NAMES commas. The
//! agent may read, and nobody else may do anything.

use crate::{kept_texts, representation_words, verdicts};
use case_words::{method_of, path_or_root};
use pod_base::Mem;
use pod_command::Row;
use pod_rows::{PlainRows, PodState};
use std::alloc::Global;

/// What the library returns for a call on a row or on a path without one.
fn result_at<S: PodState>(
    alloc: Global,
    state: &S,
    row: Option<&Row>,
    call: &str,
    words: &[&str],
) -> Mem<String> {
    match (call, row, words) {
        ("verdict", _, [method, fields]) => {
            verdicts::verdict_text(alloc, state, row, method_of(method), fields)
        }
        ("offers", Some(row), []) => representation_words::offers_text(alloc, row),
        ("chosen", Some(row), [fields]) => representation_words::chosen_text(alloc, row, fields),
        ("represent", Some(row), [media]) => representation_words::represented_text(
            alloc, state, row, media,
        ),
        ("kept", Some(row), [media]) => kept_texts::kept_text(alloc, state, row, media),
        ("show", Some(row), [method, fields, names]) => {
            representation_words::response(alloc, state, row, method_of(method), fields, names)
        }
        _ => Ok(String::from_str(alloc, "no case")?),
    }
}

/// What the library returns for a call on a pod.
pub(crate) fn answer(alloc: Global, state: &PlainRows, call: &str, words: &[&str]) -> Mem<String> {
    match words {
        [path, words @ ..] => {
            let path = path_or_root(alloc, path)?;
            result_at(alloc, state, state.find(&path), call, words)
        }
        _ => Ok(String::from_str(alloc, "no case")?),
    }
}
