//! [`is_base`]: the form of a pod's base.
ghost use Rattle.std.specs.Prelude.{◌≡◌};
ghost use Rattle.std.specs.List.{list_all};
ghost use Rattle.pod_rows.specs.Base.{is_base, is_base_of, is_authority_and_slash};
ghost use Rattle.pod_rows.specs.Base.{is_authority_byte};

use crate::limits::BASE_BYTES_LIMIT;

/// Whether the text has the form of a pod's base, which is `http://` or `https://`, an authority
/// and a slash, of at most [`BASE_BYTES_LIMIT`] bytes.
pub fn is_base(base: &str) -> bool
    ensures { result ≡ is_base base.now }
{
    base.len() <= BASE_BYTES_LIMIT && (is_base_of(base, "http://") || is_base_of(base, "https://"))
}

/// Whether the text has the form of a base with this scheme, an authority and a slash.
fn is_base_of(base: &str, scheme: &str) -> bool
    ensures { result ≡ is_base_of base.now scheme.now }
{
    match base.as_bytes().strip_prefix(scheme.as_bytes()) {
        Some(rest) => is_authority_and_slash(rest),
        None => false,
    }
}

/// Whether these bytes of a base are an authority, at least one, and a slash.
fn is_authority_and_slash(text: &[u8]) -> bool
    ensures { result ≡ is_authority_and_slash text.now }
{
    if text.len() < 2 || !text.ends_with(b"/") {
        return false;
    }
    are_authority_bytes(&text[..text.len() - 1])
}

/// Whether the authority of a base may have these bytes.
fn are_authority_bytes(bytes: &[u8]) -> bool
    ensures { result ≡ list_all is_authority_byte bytes.now }
{
    bytes.iter().all(|&byte| is_authority_byte(byte))
}

/// Whether the authority of a base may have this byte.
fn is_authority_byte(byte: u8) -> bool
    ensures { result ≡ is_authority_byte byte }
{
    byte.is_ascii_alphanumeric() || matches!(byte, b'-' | b'.' | b':' | b'[' | b']')
}
