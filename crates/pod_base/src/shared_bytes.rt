//! [`Bytes`]: bytes whose copies and parts share one block of memory.
ghost use Rattle.std.specs.Prelude.{◌≡◌, ◌≤◌, ◌==◌, ◌++◌, [], length, slice_range, IfOk, IfErr};
ghost use Rattle.std.specs.Prelude.{IsOk, OnOk, OnErr, nat_eq, refl, Some};
ghost use Rattle.std.specs.Ordering.{nat_cmp};
ghost use Rattle.std.specs.Hash as fed;
ghost use Rattle.std.specs.Cmp.Lexicographic.{pointwise, slice_cmp, nat_list_eq_equiv};
ghost use Rattle.std.specs.Cmp.Lexicographic.{nat_list_cmp_total, texts_ties, texts_po};
ghost use Rattle.std.specs.Cmp.{partial_equiv_from_equiv};
ghost use Rattle.std.specs.Cmp.Rules.{hashing};
ghost use Rattle.std.proofs.Common.{rules};

use crate::memory::{Mem, NoMemory};
use std::alloc::Global;
use std::cmp::Ordering;
use std::hash::{Hash, Hasher};
use std::marker::Model;

/// Bytes. Contracts see them as a list; comparisons go by it.
///
/// A copy or a part shares the block of the bytes and costs a count, whatever the length. So the
/// smallest part keeps the whole block alive: what is to live longer than the block that it was cut
/// from (a stored body, say) is made by [`Bytes::compact`] or [`Bytes::of`].
#[derive(Debug, Drop)]
pub struct Bytes {
    bytes: bytes::Bytes,
}

impl Model for Bytes {
    ghost use Rattle.std.specs.Prelude.{List, ℕ};

    ghost Value = { List ℕ };

    ghost view = { λ b. b.bytes };
}

impl Bytes {
    /// No bytes. It takes no memory.
    pub fn new() -> Bytes
        ensures { result ≡ [] }
    {
        Bytes {
            bytes: bytes::Bytes::new(),
        }
    }

    /// Bytes of the program itself. It takes no memory.
    pub fn from_static(bytes: &'static [u8]) -> Bytes
        ensures { result ≡ bytes.now }
    {
        Bytes {
            bytes: bytes::Bytes::from_static(bytes),
        }
    }

    /// The same bytes, in a block of their own.
    pub fn of(alloc: Global, bytes: &[u8]) -> Mem<Bytes>
        ensures { IfOk result (λ owned. owned ≡ bytes.now) }
    {
        let bytes = bytes::Bytes::copy_from_slice(alloc, bytes)?;
        Ok(Bytes { bytes })
    }

    /// The bytes of a vector, whose memory they take over.
    ///
    /// It takes memory for the count of owners alone, and none for no bytes.
    ///
    /// # Errors
    ///
    /// The vector's bytes, where it is out of memory.
    pub fn from_vec(_alloc: Global, bytes: Vec<u8>) -> Result<Bytes, Vec<u8>>
        ensures ok { IfOk result (λ owned. owned ≡ bytes.items) }
        ensures back { IfErr result (λ back. back.items ≡ bytes.items) }
        ensures empty { length bytes.items ≡ 0 → IsOk result }
    {
        match bytes::Bytes::from_vec(bytes) {
            Ok(bytes) => Ok(Bytes { bytes }),
            Err(full) => Err(full.value),
        }
    }

    /// The bytes as a vector. The only owner of a block hands it over; any other copies it.
    pub fn into_vec(self, alloc: Global) -> Mem<Vec<u8>>
        ensures { IfOk result (λ vec. vec.items ≡ self) }
    {
        let Bytes { bytes } = self;
        match bytes.try_into_mut() {
            Ok(bytes) => Ok(bytes.into_vec()?),
            Err(bytes) => Ok(Vec::from_slice(alloc, bytes.as_slice())?),
        }
    }

    /// Equal bytes, which share the block. It takes no memory.
    pub fn copy(&self, _alloc: Global) -> Mem<Bytes>
        ensures { IfOk result (λ copy. copy ≡ self.now) }
    {
        let bytes = self.bytes.clone()?;
        Ok(Bytes { bytes })
    }

    /// Equal bytes in a block of their own, which holds nothing else.
    pub fn compact(&self, alloc: Global) -> Mem<Bytes>
        ensures { IfOk result (λ copy. copy ≡ self.now) }
    {
        Bytes::of(alloc, self.as_slice())
    }

    /// The bytes from one position up to another, which share the block. It takes no memory.
    pub fn slice(&self, _alloc: Global, from: usize, to: usize) -> Mem<Bytes>
        requires order { from ≤ to }
        requires within { to ≤ length self.now }
        ensures part { IfOk result (λ part. part ≡ slice_range self.now from to) }
        ensures empty { from ≡ to → IsOk result }
    {
        let bytes = self.bytes.slice(from..to)?;
        Ok(Bytes { bytes })
    }

    /// How many bytes there are.
    pub fn len(&self) -> usize
        ensures { result ≡ length self.now }
    {
        self.bytes.len()
    }

    /// Whether there are no bytes.
    pub fn is_empty(&self) -> bool
        ensures { result ≡ (length self.now == 0) }
    {
        self.bytes.is_empty()
    }

    /// Lends the bytes.
    pub fn as_slice(&self) -> &[u8]
        ensures { result.now ≡ self.now }
    {
        self.bytes.as_slice()
    }

    /// Appends a piece. Out of memory, nothing changes.
    ///
    /// It moves the bytes to a new block. What grows piece by piece is a
    /// [`BytesBuilder`](crate::BytesBuilder).
    pub fn append(&mut self, alloc: Global, piece: &[u8]) -> Mem<()>
        ensures appended { OnOk result (self.new ≡ self.old ++ piece.now) }
        ensures unchanged { OnErr result (self.new ≡ self.old) }
    {
        let mut all = Vec::from_slice(alloc, self.as_slice())?;
        all.extend_from_slice(piece)?;
        match Bytes::from_vec(alloc, all) {
            Ok(all) => {
                *self = all;
                Ok(())
            }
            Err(_bytes) => Err(NoMemory),
        }
    }
}

impl PartialEq for Bytes {
    ghost eq = { pointwise nat_eq };

    ghost laws = { partial_equiv_from_equiv nat_list_eq_equiv };

    fn eq(&self, other: &Self) -> bool {
        self.as_slice() == other.as_slice()
    }
}

impl Eq for Bytes {
    ghost laws = { nat_list_eq_equiv };
}

impl PartialOrd for Bytes {
    ghost partial_cmp = { λ x y. Some (slice_cmp nat_cmp x y) };

    ghost laws = { texts_po };

    fn partial_cmp(&self, other: &Self) -> Option<Ordering> {
        Some(self.cmp(other))
    }
}

impl Ord for Bytes {
    ghost cmp = { slice_cmp nat_cmp };

    ghost total = { nat_list_cmp_total };

    ghost matches_partial_cmp = { λ x y. refl };

    ghost matches_eq = { texts_ties };

    fn cmp(&self, other: &Self) -> Ordering {
        self.as_slice().cmp(other.as_slice())
    }
}

impl Hash for Bytes {
    ghost hash_input = { fed.slice fed.u8 };

    ghost respects_eq = { Prim.search (hashing, rules) };

    fn hash<H: Hasher>(&self, state: &mut H) {
        self.as_slice().hash(state);
    }
}
