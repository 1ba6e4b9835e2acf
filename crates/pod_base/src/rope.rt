//! [`Rope`]: bytes in pieces, of which each shares its block.
ghost use Rattle.std.specs.Prelude.{◌≡◌, ◌+◌, ◌-◌, ◌^◌, ◌<◌, ◌++◌, min, take, drop, length};
ghost use Rattle.std.specs.Prelude.{IfOk, OnOk, OnErr};
ghost use Rattle.std.specs.List.{concat};

use crate::bytes_builder::BytesBuilder;
use crate::memory::{Mem, NoMemory};
use crate::shared_bytes::Bytes;
use std::alloc::Global;
use std::marker::Model;

/// Bytes in pieces. Contracts see them as one list.
///
/// A piece is pushed without being copied, so several parts of one body take no memory but for the
/// list of them. One piece takes none.
#[derive(Debug, Drop)]
pub struct Rope {
    first: Bytes,
    more: Vec<Bytes>,
    size: usize,
}

impl Model for Rope {
    ghost use Rattle.std.specs.Prelude.{◌≡◌, ◌++◌, List, ℕ, length};
    ghost use Rattle.std.specs.List.{concat};

    ghost Value = { List ℕ };

    ghost view = { λ r. r.first ++ concat r.more.items };

    ghost invariant = { λ r. r.size ≡ length (r.first ++ concat r.more.items) };
}

/// Copies the bytes of a rope's piece from an offset on, as far as both slices go: returns how many
/// bytes.
pub fn copy_bytes(text: &[u8], offset: usize, into: &mut [u8]) -> usize
    ensures count { result ≡ min (length text.now - offset) (length into.old) }
    ensures copied { into.new ≡ take result (drop offset text.now) ++ drop result into.old }
    ensures fits { offset + result < 2 ^ 64 }
{
    let rest = &text[offset.min(text.len())..];
    let count = rest.len().min(into.len());
    into[..count].copy_from_slice(&rest[..count]);
    count
}

/// Copies the pieces of a rope one after another from an offset on, and returns how many bytes.
fn copy_pieces(pieces: &[Bytes], offset: usize, into: &mut [u8]) -> usize
    ensures count { result ≡ min (length (concat pieces.now) - offset) (length into.old) }
    ensures copied { into.new ≡ take result (drop offset (concat pieces.now)) ++ drop result into.old }
{
    let mut count = 0;
    let mut skip = offset;
    for piece in pieces {
        count += copy_bytes(piece.as_slice(), skip, &mut into[count..]);
        skip = skip.saturating_sub(piece.len());
    }
    count
}

/// The pieces of a rope in one block: that of the first piece, where no other follows.
fn join_pieces(alloc: Global, first: &Bytes, more: &[Bytes]) -> Mem<Bytes>
    ensures { IfOk result (λ bytes. bytes ≡ first.now ++ concat more.now) }
{
    if more.is_empty() {
        return first.copy(alloc);
    }
    let mut all = BytesBuilder::new(alloc);
    all.append(alloc, first.as_slice())?;
    for piece in more {
        all.append(alloc, piece.as_slice())?;
    }
    all.freeze(alloc)
}

impl Rope {
    /// A rope of one piece. It takes no memory.
    pub fn of(alloc: Global, bytes: Bytes) -> Rope
        ensures { result ≡ bytes }
    {
        let size = bytes.len();
        Rope {
            first: bytes,
            more: Vec::new(alloc),
            size,
        }
    }

    /// Appends a piece, which keeps its block. Out of memory, nothing changes; 2^64 bytes and more
    /// are out of memory.
    pub fn push(&mut self, _alloc: Global, piece: Bytes) -> Mem<()>
        ensures appended { OnOk result (self.new ≡ self.old ++ piece) }
        ensures unchanged { OnErr result (self.new ≡ self.old) }
    {
        match self.size.checked_add(piece.len()) {
            Some(size) => {
                self.more.push(piece)?;
                self.size = size;
                Ok(())
            }
            None => Err(NoMemory),
        }
    }

    /// How many bytes there are.
    pub fn len(&self) -> usize
        ensures { result ≡ length self.now }
    {
        self.size
    }

    /// Copies the bytes from one on, as far as the slice goes: returns how many. The other bytes of
    /// the slice stay.
    pub fn copy_from(&self, offset: usize, into: &mut [u8]) -> usize
        ensures count { result ≡ min (length self.now - offset) (length into.old) }
        ensures copied { into.new ≡ take result (drop offset self.now) ++ drop result into.old }
        ensures fits { offset + result < 2 ^ 64 }
    {
        if offset >= self.size {
            return 0;
        }
        let first = self.first.as_slice();
        let count = copy_bytes(first, offset, into);
        let skip = offset.saturating_sub(first.len());
        count + copy_pieces(self.more.as_slice(), skip, &mut into[count..])
    }

    /// The bytes in one block: that of the piece, where there is one alone.
    pub fn to_bytes(&self, alloc: Global) -> Mem<Bytes>
        ensures { IfOk result (λ bytes. bytes ≡ self.now) }
    {
        join_pieces(alloc, &self.first, self.more.as_slice())
    }
}
