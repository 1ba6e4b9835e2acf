//! [`BytesBuilder`]: bytes that grow piece by piece until they are frozen.
ghost use Rattle.std.specs.Prelude.{◌≡◌, ◌==◌, ◌++◌, [], length, IfOk, IsOk, OnOk, OnErr};

use crate::memory::{Mem, NoMemory};
use crate::shared_bytes::Bytes;
use std::alloc::Global;
use std::marker::Model;

/// Bytes that grow until [`freeze`](BytesBuilder::freeze) makes [`Bytes`] of them. Contracts see
/// them as a list.
#[derive(Debug, Drop)]
pub struct BytesBuilder {
    bytes: Vec<u8>,
}

impl Model for BytesBuilder {
    ghost use Rattle.std.specs.Prelude.{List, ℕ};

    ghost Value = { List ℕ };

    ghost view = { λ b. b.bytes.items };
}

impl BytesBuilder {
    /// A builder without bytes, which grow by `alloc`. It takes no memory.
    pub fn new(alloc: Global) -> BytesBuilder
        ensures { result ≡ [] }
    {
        BytesBuilder {
            bytes: Vec::new(alloc),
        }
    }

    /// Takes memory for that many more bytes at once. The bytes stay as they are.
    pub fn reserve(&mut self, _alloc: Global, more: usize) -> Mem<()>
        ensures { self.new ≡ self.old }
    {
        self.bytes.reserve(more)?;
        Ok(())
    }

    /// Appends a piece. Out of memory, nothing changes.
    pub fn append(&mut self, _alloc: Global, piece: &[u8]) -> Mem<()>
        ensures appended { OnOk result (self.new ≡ self.old ++ piece.now) }
        ensures unchanged { OnErr result (self.new ≡ self.old) }
    {
        self.bytes.extend_from_slice(piece)?;
        Ok(())
    }

    /// How many bytes have been appended.
    pub fn len(&self) -> usize
        ensures { result ≡ length self.now }
    {
        self.bytes.len()
    }

    /// Whether no byte has been appended.
    pub fn is_empty(&self) -> bool
        ensures { result ≡ (length self.now == 0) }
    {
        self.bytes.is_empty()
    }

    /// Lends the bytes.
    pub fn as_slice(&self) -> &[u8]
        ensures { result.now ≡ self.now }
    {
        self.bytes.as_slice()
    }

    /// The bytes, to be shared. It takes memory for the count of owners alone.
    pub fn freeze(self, alloc: Global) -> Mem<Bytes>
        ensures ok { IfOk result (λ bytes. bytes ≡ self) }
        ensures empty { length self ≡ 0 → IsOk result }
    {
        match Bytes::from_vec(alloc, self.bytes) {
            Ok(bytes) => Ok(bytes),
            Err(_bytes) => Err(NoMemory),
        }
    }
}
