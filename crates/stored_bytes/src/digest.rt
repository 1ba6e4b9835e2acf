//! [`digest_of`]: the digest of a content type and a body.
ghost use Rattle.std.specs.Prelude.{◌≡◌};
ghost use Rattle.stored_bytes.specs.Digests.{digest_of};

use sha2::{Digest, Sha256};

/// SHA-256 of a content type, a zero byte and a body.
pub fn digest_of(ctype: &str, body: &[u8]) -> [u8; 32]
    ensures { result ≡ digest_of ctype.now body.now }
{
    let mut hasher = Sha256::new();
    hasher.update(ctype.as_bytes());
    hasher.update(b"\0".as_slice());
    hasher.update(body);
    hasher.finalize()
}
