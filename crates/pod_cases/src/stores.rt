//! The two disks of a store, as bytes.

use crate::runs::{WHOLE, run_with};
use pod_base::Mem;
use std::alloc::Global;

/// The words that make a store.
pub(crate) const INIT: &str =
    "init --base http://127.0.0.1:8080/ --owner https://alice.example/#me";

/// The offset of the digit of the format in a journal's head.
const FORMAT_AT: usize = 7;

/// The bytes of the two disks of a store.
#[derive(Drop)]
pub(crate) struct Store {
    pub(crate) first: Vec<u8>,
    pub(crate) second: Vec<u8>,
}

impl Store {
    /// Two empty disks.
    pub(crate) fn empty(alloc: Global) -> Store {
        Store {
            first: Vec::new(alloc),
            second: Vec::new(alloc),
        }
    }

    /// The store of that name: `new`, or `old` in format 1.
    pub(crate) fn named(alloc: Global, name: &str) -> Mem<Store> {
        let mut store = run_with(alloc, INIT, &Store::empty(alloc), b"", b"", WHOLE)?.store;
        if name == "old" {
            if let Some(format) = store.first.get_mut(FORMAT_AT) {
                *format = b'1';
            }
        }
        Ok(store)
    }

    /// The store whose first disk is cut to that length.
    pub(crate) fn cut(&self, alloc: Global, len: usize) -> Mem<Store> {
        let mut first = self.first.to_vec(alloc)?;
        first.truncate(len);
        Ok(Store {
            first,
            second: self.second.to_vec(alloc)?,
        })
    }
}

/// A line without its end.
fn line(alloc: Global, line: &[u8]) -> Mem<String> {
    let text = str::from_utf8(line).unwrap_or("not UTF-8");
    Ok(String::from_str(alloc, text.strip_suffix('\n').unwrap_or(text))?)
}

/// What `check` prints of a store, or its damage.
pub(crate) fn checked(alloc: Global, store: &Store) -> Mem<String> {
    let done = run_with(alloc, "check", store, b"", b"", WHOLE)?;
    if done.output.is_empty() {
        line(alloc, &done.errors)
    } else {
        line(alloc, &done.output)
    }
}
