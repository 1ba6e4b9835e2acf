//! [`StoredBytes`]: bytes with a cell for their digest.
ghost use Rattle.std.specs.Prelude.{◌≡◌, IfOk};
ghost use Rattle.stored_bytes.specs.Digests.{digest_of};

use crate::digest_cell::DigestCell;
use pod_base::{Bytes, Mem, Text};
use std::alloc::Global;
use std::fmt;
use std::marker::Model;

/// Bytes that keep the digest of a content type and of themselves. Contracts see them as a list.
#[derive(Drop)]
pub struct StoredBytes {
    bytes: Bytes,
    cell: DigestCell,
}

impl Model for StoredBytes {
    ghost use Rattle.std.specs.Prelude.{List, ℕ};

    ghost Value = { List ℕ };

    ghost view = { λ stored. stored.bytes };
}

impl StoredBytes {
    /// Stored bytes without a digest yet. It takes no memory.
    pub fn new(alloc: Global, bytes: Bytes) -> StoredBytes
        ensures { result ≡ bytes }
    {
        StoredBytes {
            bytes,
            cell: DigestCell::new(alloc),
        }
    }

    /// The stored bytes without their digest.
    pub fn bytes(&self) -> &Bytes
        ensures { result.now ≡ self.now }
    {
        &self.bytes
    }

    /// The stored bytes as a slice.
    pub fn as_slice(&self) -> &[u8]
        ensures { result.now ≡ self.now }
    {
        self.bytes.as_slice()
    }

    /// Equal stored bytes, which share the block. Their digest is made anew.
    pub fn copy(&self, alloc: Global) -> Mem<StoredBytes>
        ensures { IfOk result (λ copy. copy ≡ self.now) }
    {
        let bytes = self.bytes.copy(alloc)?;
        Ok(StoredBytes::new(alloc, bytes))
    }

    /// The digest of the stored bytes: SHA-256 of the content type, a zero byte and the bytes. It
    /// is kept, where there is memory for it.
    pub fn digest(&self, alloc: Global, ctype: &Text) -> [u8; 32]
        ensures { result ≡ digest_of ctype.now self.now }
    {
        self.cell.digest(alloc, ctype, &self.bytes)
    }
}

impl fmt::Debug for StoredBytes {
    fn fmt<W: fmt::Write>(&self, f: &mut fmt::Formatter<W>) -> fmt::Result {
        write!(f, "StoredBytes({} bytes)", self.bytes.len())
    }
}
