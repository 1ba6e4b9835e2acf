//! [`DigestCell`]: a digest that the first reader keeps.
ghost use Rattle.std.specs.Prelude.{◌≡◌, IsTrue};
ghost use Rattle.stored_bytes.specs.Digests.{digest_of};

use crate::digest::digest_of;
use once_cell::race::OnceBox;
use pod_base::{Bytes, Text};
use std::alloc::Global;
use std::marker::Model;

/// A digest, and what it is the digest of.
#[derive(Drop)]
struct Kept {
    ctype: Text,
    bytes: Bytes,
    digest: [u8; 32],
    ghost is_digest: { digest ≡ digest_of ctype bytes },
}

/// A cell for the digest of a content type and of bytes. Contracts see nothing of it.
#[derive(Drop)]
pub(crate) struct DigestCell {
    cell: OnceBox<Kept>,
}

impl Model for DigestCell {
    ghost use Rattle.std.specs.Prelude.{⊤};

    ghost Value = { ⊤ };

    ghost view = { λ _. tt };
}

impl DigestCell {
    /// An empty cell. It takes no memory.
    pub fn new(alloc: Global) -> DigestCell {
        DigestCell {
            cell: OnceBox::new(alloc),
        }
    }

    /// Keeps a digest in the cell, where there is memory and none is kept.
    fn keep(&self, alloc: Global, ctype: &Text, bytes: &Bytes, digest: [u8; 32])
        requires { digest ≡ digest_of ctype.now bytes.now }
    {
        if let Ok(ctype) = ctype.copy(alloc) {
            if let Ok(bytes) = bytes.copy(alloc) {
                let kept = Kept {
                    ctype,
                    bytes,
                    digest,
                };
                if let Ok(kept) = Box::new(alloc, kept) {
                    let _first = self.cell.set(kept);
                }
            }
        }
    }

    /// The digest of this type and these bytes: the one that is kept, if it is theirs.
    pub fn digest(&self, alloc: Global, ctype: &Text, bytes: &Bytes) -> [u8; 32]
        ensures { result ≡ digest_of ctype.now bytes.now }
    {
        if let Some(kept) = self.cell.get() {
            if kept.is_of(ctype, bytes) {
                return kept.digest;
            }
        }
        let digest = digest_of(ctype.as_str(), bytes.as_slice());
        self.keep(alloc, ctype, bytes, digest);
        digest
    }
}

impl Kept {
    /// Whether the kept digest is that of this type and these bytes.
    fn is_of(&self, ctype: &Text, bytes: &Bytes) -> bool
        ensures { IsTrue result → self.now.digest ≡ digest_of ctype.now bytes.now }
    {
        self.ctype.as_str() == ctype.as_str() && self.bytes.as_slice() == bytes.as_slice()
    }
}
