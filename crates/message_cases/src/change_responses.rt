//! Cases of changes and of OPTIONS.

use crate::print::{place, shown};
use case_words::method_of;
use pod_base::{Mem, Response};
use pod_path::Path;
use pod_responses::{changed, created, is_allowed, options, options_of_server};
use std::alloc::{AllocError, Global};

fn is_taken(alloc: Global, name: &str, path: &str) -> Mem<Option<bool>> {
    match Path::of_text(alloc, path)? {
        Some(path) => Ok(Some(is_allowed(&path, method_of(name)))),
        None => Ok(None),
    }
}

pub(crate) fn allowed(alloc: Global, name: &str, path: &str) -> Result<String, AllocError> {
    match is_taken(alloc, name, path) {
        Ok(Some(true)) => String::from_str(alloc, "yes"),
        Ok(Some(false)) => String::from_str(alloc, "no"),
        Ok(None) => String::from_str(alloc, "no case"),
        Err(_) => Err(AllocError),
    }
}

fn creation(alloc: Global, target: &str, path: &str) -> Mem<Option<Response>> {
    let Some((base, target)) = place(alloc, target)? else {
        return Ok(None);
    };
    match Path::of_text(alloc, path)? {
        Some(path) => Ok(Some(created(alloc, &base, &target, &path)?)),
        None => Ok(None),
    }
}

pub(crate) fn created_at(alloc: Global, target: &str, path: &str) -> Result<String, AllocError> {
    shown(alloc, creation(alloc, target, path))
}

pub(crate) fn other(alloc: Global) -> Result<String, AllocError> {
    shown(alloc, Ok(Some(changed(alloc))))
}

fn options_of(alloc: Global, path: &str) -> Mem<Option<Response>> {
    if path == "*" {
        return Ok(Some(options_of_server(alloc)?));
    }
    match Path::of_text(alloc, path)? {
        Some(path) => Ok(Some(options(alloc, &path)?)),
        None => Ok(None),
    }
}

pub(crate) fn options_at(alloc: Global, path: &str) -> Result<String, AllocError> {
    shown(alloc, options_of(alloc, path))
}
