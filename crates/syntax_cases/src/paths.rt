//! Cases of `pod_path`: paths of resources.

use crate::references::iri;
use case_words::{bytes, known, shown, text};
use pod_base::{Mem, NoMemory};
use pod_path::{Path, PathFault};
use std::alloc::{AllocError, Global};

/// The result of a call that reads a path.
fn show(alloc: Global, found: Result<Path, PathFault>) -> Result<String, AllocError> {
    match found {
        Ok(path) => shown(alloc, path.as_str().as_bytes()),
        Err(PathFault::NoMemory) => Err(AllocError),
        Err(fault) => format!(in alloc; "{fault:?}"),
    }
}

/// The result of a call that may find no path.
fn show_option(alloc: Global, path: Mem<Option<Path>>) -> Result<String, AllocError> {
    match path {
        Ok(Some(path)) => shown(alloc, path.as_str().as_bytes()),
        Ok(None) => String::from_str(alloc, "none"),
        Err(NoMemory) => Err(AllocError),
    }
}

fn path(alloc: Global, field: &str) -> Result<Result<Path, PathFault>, AllocError> {
    let target = bytes(alloc, field)?;
    Ok(Path::read(alloc, target.as_slice()))
}

fn read(alloc: Global, field: &str) -> Result<String, AllocError> {
    show(alloc, path(alloc, field)?)
}

fn copy(alloc: Global, path: &Path) -> Mem<Option<Path>> {
    let copy = path.copy(alloc)?;
    Ok(Some(copy))
}

fn call_on(alloc: Global, name: &str, path: &Path) -> Result<String, AllocError> {
    match name {
        "parent" => show_option(alloc, path.parent(alloc)),
        "twin" => show_option(alloc, path.twin(alloc)),
        "acl" => show_option(alloc, path.acl(alloc)),
        "meta" => show_option(alloc, path.meta(alloc)),
        "subject" => show_option(alloc, path.subject(alloc)),
        "copy" => show_option(alloc, copy(alloc, path)),
        "is_container" => format!(in alloc; "{}", path.is_container()),
        "is_acl" => format!(in alloc; "{}", path.is_acl()),
        "is_meta" => format!(in alloc; "{}", path.is_meta()),
        "is_root" => format!(in alloc; "{}", path.is_root()),
        _ => String::from_str(alloc, "no case"),
    }
}

/// The result of a call on one path.
fn call(alloc: Global, name: &str, field: &str) -> Result<String, AllocError> {
    match path(alloc, field)? {
        Ok(path) => call_on(alloc, name, &path),
        Err(_) => String::from_str(alloc, "no path"),
    }
}

/// The path with the text of a field, of any length.
fn stored(alloc: Global, field: &str) -> Result<Mem<Option<Path>>, AllocError> {
    let text = text(alloc, field)?;
    Ok(Path::of_text(alloc, text.as_str()))
}

fn of_text(alloc: Global, field: &str) -> Result<String, AllocError> {
    show_option(alloc, stored(alloc, field)?)
}

fn is_within_limits(alloc: Global, field: &str) -> Result<String, AllocError> {
    match stored(alloc, field)? {
        Ok(Some(path)) => format!(in alloc; "{}", path.is_within_limits()),
        Ok(None) => String::from_str(alloc, "no path"),
        Err(NoMemory) => Err(AllocError),
    }
}

fn compare(alloc: Global, field: &str, other: &str) -> Result<String, AllocError> {
    match (path(alloc, field)?, path(alloc, other)?) {
        (Ok(path), Ok(other)) => format!(in alloc; "{:?}", path.cmp(&other)),
        _ => String::from_str(alloc, "no path"),
    }
}

fn under(alloc: Global, field: &str, other: &str) -> Result<String, AllocError> {
    let Ok(path) = path(alloc, field)? else {
        return String::from_str(alloc, "no path");
    };
    let Ok(other) = self::path(alloc, other)? else {
        return String::from_str(alloc, "no path");
    };
    format!(in alloc; "{}", path.under(&other))
}

fn child(alloc: Global, field: &str, name: &str, container: bool) -> Result<String, AllocError> {
    let name = text(alloc, name)?;
    match path(alloc, field)? {
        Ok(path) if path.is_container() => {
            show(alloc, path.child(alloc, name.as_str(), container))
        }
        _ => String::from_str(alloc, "no container"),
    }
}

fn uri(alloc: Global, base: &str, field: &str) -> Result<String, AllocError> {
    match (known(iri(alloc, base))?, path(alloc, field)?) {
        (Some(base), Ok(path)) => match path.uri(alloc, &base) {
            Ok(uri) => shown(alloc, uri.as_str().as_bytes()),
            Err(NoMemory) => Err(AllocError),
        },
        _ => String::from_str(alloc, "no base or no path"),
    }
}

fn of_uri(alloc: Global, base: &str, uri: &str) -> Result<String, AllocError> {
    let uri = text(alloc, uri)?;
    match known(iri(alloc, base))? {
        Some(base) => show_option(alloc, Path::of_uri(alloc, &base, uri.as_str())),
        None => String::from_str(alloc, "no base"),
    }
}

/// What `pod_path` returns for a call and its arguments.
pub(crate) fn answer(alloc: Global, case: &[&str]) -> Result<String, AllocError> {
    match case {
        ["read", only] => read(alloc, only),
        ["of_text", only] => of_text(alloc, only),
        ["is_within_limits", only] => is_within_limits(alloc, only),
        ["cmp", field, other] => compare(alloc, field, other),
        ["uri", base, field] => uri(alloc, base, field),
        ["of_uri", base, field] => of_uri(alloc, base, field),
        ["under", field, other] => under(alloc, field, other),
        ["member", field, name] => child(alloc, field, name, false),
        ["container", field, name] => child(alloc, field, name, true),
        [name, only] => call(alloc, name, only),
        _ => String::from_str(alloc, "no case"),
    }
}
