//! Cases of refusals.

use crate::print::shown;
use case_words::method_of;
use pod_base::{Mem, Response};
use pod_path::Path;
use pod_responses::{not_allowed, refusal, unauthorized, unsatisfiable, unsupported};
use std::alloc::{AllocError, Global};

fn by_path(alloc: Global, name: &str, path: &str) -> Mem<Option<Response>> {
    let Some(path) = Path::of_text(alloc, path)? else {
        return Ok(None);
    };
    match name {
        "" => Ok(Some(not_allowed(alloc, &path)?)),
        _ => Ok(Some(unsupported(alloc, method_of(name), &path)?)),
    }
}

fn by_word(alloc: Global, status: &str, word: &str) -> Mem<Option<Response>> {
    match status.parse::<u16>() {
        Ok(status) => Ok(Some(refusal(alloc, status, word.as_bytes())?)),
        Err(_) => Ok(None),
    }
}

fn unknown(alloc: Global, word: &str) -> Mem<Option<Response>> {
    Ok(Some(unauthorized(alloc, word.as_bytes())?))
}

fn outside(alloc: Global, size: &str) -> Mem<Option<Response>> {
    Ok(Some(unsatisfiable(alloc, size.parse::<u64>().unwrap_or(0))?))
}

pub(crate) fn answer(alloc: Global, fields: &[&str]) -> Result<String, AllocError> {
    match fields {
        ["refusal", status, word] => shown(alloc, by_word(alloc, status, word)),
        ["unauthorized", word] => shown(alloc, unknown(alloc, word)),
        ["not-allowed", path] => shown(alloc, by_path(alloc, "", path)),
        ["unsupported", name, path] => shown(alloc, by_path(alloc, name, path)),
        ["unsatisfiable", size] => shown(alloc, outside(alloc, size)),
        _ => String::from_str(alloc, "no case"),
    }
}
