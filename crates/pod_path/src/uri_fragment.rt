//! The path part of a URI under a base.

ghost use Rattle.std.specs.Prelude.{◌≡◌, ◌↔◌, ◌++◌, ◌≤◌, ◌<◌, ◌==◌, List, ℕ, not, IfSome, IfNone};
ghost use Rattle.std.specs.Prelude.{option_copied, length, take};
ghost use Rattle.std.specs.List.{before_first, list_all, position};
ghost use Rattle.iri_ref.specs.Characters.{is_hash};
ghost use Rattle.pod_path.specs.Hierarchy.{IsUriOf};
ghost use Rattle.pod_path.specs.declared.limits.TheConstants.{PATH_BYTES_LIMIT};

use crate::limits::PATH_BYTES_LIMIT;
use crate::path_text::strip_start;

/// Whether the bytes of a URI have no `#`, and so no fragment.
fn lacks_hash(bytes: &[u8]) -> bool
    ensures { result ≡ list_all (λ c. not (is_hash c)) bytes.now }
{
    bytes.iter().all(|&b| b != b'#')
}

/// Where the fragment of a URI begins.
fn find_hash(bytes: &[u8]) -> Option<usize>
    ensures { result ≡ position is_hash bytes.now }
{
    bytes.iter().position(|b| *b == b'#')
}

/// The bytes of a URI before its fragment.
fn strip_fragment(bytes: &[u8]) -> &[u8]
    ensures { result.now ≡ before_first is_hash bytes.now }
{
    match find_hash(bytes) {
        Some(at) => &bytes[..at],
        None => bytes,
    }
}

/// The first `most` bytes of a URI's part, or all where they are fewer.
fn first_bytes(bytes: &[u8], most: usize) -> &[u8]
    ensures { result.now ≡ take most bytes.now }
{
    if bytes.len() > most {
        &bytes[..most]
    } else {
        bytes
    }
}

/// The bytes of a URI before its fragment, where they are fewer than `most`. It looks at no more
/// than these.
fn strip_near_fragment(bytes: &[u8], most: usize) -> Option<&[u8]>
    ensures some { IfSome (option_copied result)
        (λ part. before_first is_hash bytes.entry.now ≡ part) }
    ensures none { IfNone (option_copied result)
        (most ≤ length (before_first is_hash bytes.entry.now)) }
{
    let part = strip_fragment(first_bytes(bytes, most));
    if part.len() < most { Some(part) } else { None }
}

/// The part of a URI between its base and its fragment; none where it is too long for a path. After
/// the base it reads at most [`PATH_BYTES_LIMIT`] bytes.
pub(crate) fn uri_part<'a>(base: &str, uri: &'a str) -> Option<&'a [u8]>
    ensures some { IfSome (option_copied result)
        (λ part. before_first is_hash uri.entry.now ≡ base.now ++ part) }
    ensures none { IfNone (option_copied result) ((path : List ℕ)
        → IsUriOf base.now uri.entry.now path → ⊥) }
{
    if !lacks_hash(base.as_bytes()) {
        return None;
    }
    match strip_start(uri, base) {
        Some(rest) => strip_near_fragment(rest.as_bytes(), PATH_BYTES_LIMIT),
        None => None,
    }
}
