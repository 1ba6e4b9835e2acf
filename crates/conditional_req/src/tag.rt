//! [`Tag`]: the entity tag of a representation.

ghost use Rattle.std.specs.Prelude.{◌≡◌, ℕ, List, take};
ghost use Rattle.hex.specs.Hex.{encode_lower};
ghost use Rattle.stored_bytes.specs.Digests as digests;
ghost use Rattle.conditional_req.specs.Tags as spec;

/// How many bytes of the digest a tag has.
pub const TAG_DIGEST_LEN: usize = 16;

/// An entity tag, without its quotes.
#[derive(Clone, Copy, Debug, PartialEq, Eq)]
pub struct Tag(pub [u8; 34]);

/// The hexadecimal digits of a tag: those of the first bytes of a digest.
fn digits_of(digest: &[u8; 32]) -> [u8; 32]
    ensures { result ≡ encode_lower (take 16 digest.now) }
{
    let mut digits = [0u8; 32];
    match hex::encode_to_slice(&digest[..TAG_DIGEST_LEN], &mut digits) {
        Ok(()) => digits,
        Err(_) => unreachable!(),
    }
}

/// The strong entity tag of a representation, by SHA-256 of its content type, a zero byte and its
/// body: the digest's first 16 bytes as 32 lower-case hexadecimal digits, then a dash and the mark.
///
/// The mark says of which kind the representation is (`t`, `j` or `b`).
pub fn tag_of(digest: &[u8; 32], mark: u8) -> Tag
    ensures { (ctype body : List ℕ) → digest.now ≡ digests.digest_of ctype body
        → result.0 ≡ spec.tag_text ctype body mark }
{
    let digits = digits_of(digest);
    let mut tag = [b'-'; 34];
    tag[..32].copy_from_slice(&digits);
    tag[33] = mark;
    Tag(tag)
}
