//! Cases of stored forms. A piece of a form is its bytes as hexadecimal digits, and after a space
//! what they are.
//!
//! What is shown is a copy of the value. After it come `=`, for an entry the size of its form in
//! format 2, and `same` where encoding the value gives the bytes again.
ghost use Rattle.pod_command.specs.Encodable.{IsEncodable, IsEncodableSnapshot};

use crate::form_text::{show_entry, show_snapshot};
use case_words::{known, push_hex};
use pod_base::{Bytes, Mem};
use pod_command::{Entry, Snapshot};
use std::alloc::{AllocError, Global};
use stored_forms::{
    ReadBack, decode_entry, decode_entry_1, decode_snapshot, encode_entry, encode_snapshot,
    entry_size,
};

/// The bytes of the pieces.
fn form_of(alloc: Global, pieces: &[&str]) -> Result<Vec<u8>, AllocError> {
    let mut form = Vec::new(alloc);
    for piece in pieces {
        push_hex(&mut form, piece)?;
    }
    Ok(form)
}

/// Whether encoding gave these bytes.
fn verdict(encoded: Mem<Bytes>, form: &[u8]) -> Result<&'static str, AllocError> {
    match encoded {
        Ok(bytes) if bytes.as_slice() == form => Ok("same"),
        Ok(_) => Ok("other bytes"),
        Err(_) => Err(AllocError),
    }
}

/// Why a form was refused.
fn refusal(alloc: Global, fault: ReadBack) -> Result<String, AllocError> {
    match fault {
        ReadBack::NotCanonical => String::from_str(alloc, "refused"),
        ReadBack::NoMemory => Err(AllocError),
    }
}

/// The copy of a snapshot.
fn snapshot_text(alloc: Global, snapshot: &Snapshot) -> Result<String, AllocError> {
    let copy = known(snapshot.copy(alloc))?;
    show_snapshot(alloc, &copy)
}

/// A snapshot that was decoded from a form.
fn decoded(alloc: Global, snapshot: &Snapshot, form: &[u8]) -> Result<String, AllocError>
    requires { IsEncodableSnapshot snapshot.now }
{
    let again = verdict(encode_snapshot(alloc, snapshot), form)?;
    let shown = snapshot_text(alloc, snapshot)?;
    format!(in alloc; "{shown} = {again}")
}

/// The snapshot that a form is.
pub(crate) fn snapshot(alloc: Global, pieces: &[&str]) -> Result<String, AllocError> {
    let form = form_of(alloc, pieces)?;
    match decode_snapshot(alloc, form.as_slice()) {
        Ok(snapshot) => decoded(alloc, &snapshot, form.as_slice()),
        Err(fault) => refusal(alloc, fault),
    }
}

/// An entry that was decoded from a form, as its copy.
fn decoded_entry(alloc: Global, entry: &Entry, form: &[u8]) -> Result<String, AllocError>
    requires { IsEncodable entry.now }
{
    let again = verdict(encode_entry(alloc, entry), form)?;
    let copy = known(entry.copy(alloc))?;
    let shown = show_entry(alloc, &copy)?;
    format!(in alloc; "{shown} = {} {again}", entry_size(entry))
}

/// The entry that a form is.
pub(crate) fn entry(alloc: Global, pieces: &[&str]) -> Result<String, AllocError> {
    let form = form_of(alloc, pieces)?;
    match decode_entry(alloc, form.as_slice()) {
        Ok(entry) => decoded_entry(alloc, &entry, form.as_slice()),
        Err(fault) => refusal(alloc, fault),
    }
}

/// An entry that was decoded from a form of format 1.
fn old_entry(alloc: Global, entry: &Entry) -> Result<String, AllocError> {
    let shown = show_entry(alloc, entry)?;
    format!(in alloc; "{shown} = {}", entry_size(entry))
}

/// The entry that a form of format 1 is.
pub(crate) fn entry_1(alloc: Global, pieces: &[&str]) -> Result<String, AllocError> {
    let form = form_of(alloc, pieces)?;
    match decode_entry_1(alloc, form.as_slice()) {
        Ok(entry) => old_entry(alloc, &entry),
        Err(fault) => refusal(alloc, fault),
    }
}
