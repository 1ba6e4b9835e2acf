//! The key that accepts an upgrade.

use case_words::{bytes, shown};
use pod_base::NoMemory;
use pod_responses::accept_of;
use std::alloc::{AllocError, Global};

pub(crate) fn answer(alloc: Global, key: &str) -> Result<String, AllocError> {
    let key = bytes(alloc, key)?;
    match accept_of(alloc, key.as_slice()) {
        Ok(accept) => shown(alloc, accept.as_slice()),
        Err(NoMemory) => Err(AllocError),
    }
}
