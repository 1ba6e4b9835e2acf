//! The segments of a path: which are normal, reserved or an auxiliary's.

ghost use Rattle.std.specs.Prelude.{◌≡◌, ◌||◌, nat_eq, IfOk, IfErr, Ok, Err, length};
ghost use Rattle.std.specs.List.{ends_with, list_all};
ghost use Rattle.iri_ref.specs.Segments.{segments, is_dot_segment};
ghost use Rattle.pod_path.specs.Characters.{is_unreserved, is_path_character};
ghost use Rattle.pod_path.specs.Norm.{is_empty, is_auxiliary_name, has_reserved_end};
ghost use Rattle.pod_path.specs.Norm.{is_dot_auxiliary, is_reserved_name, are_normal, are_reserved};
ghost use Rattle.pod_path.specs.Norm.{segment_count};

use crate::fault::PathFault;
use iri_ref::is_dot_segment;

/// Whether the text of a segment ends with this one.
pub(crate) fn ends_with(text: &str, end: &str) -> bool
    ensures { result ≡ ends_with nat_eq text.now end.now }
{
    text.ends_with(end)
}

/// Whether a segment of a path is the name of an ACL or of a description.
pub(crate) fn is_auxiliary_name(segment: &str) -> bool
    ensures { result ≡ is_auxiliary_name segment.now }
{
    ends_with(segment, ".acl") || ends_with(segment, ".meta")
}

/// Whether a segment ends as the name of an auxiliary's auxiliary does.
fn has_reserved_end(segment: &str) -> bool
    ensures { result ≡ has_reserved_end segment.now }
{
    ends_with(segment, ".acl.acl")
        || ends_with(segment, ".meta.acl")
        || ends_with(segment, ".acl.meta")
        || ends_with(segment, ".meta.meta")
}

/// Whether a segment is the name of an auxiliary of a dot segment.
fn is_dot_auxiliary(segment: &str) -> bool
    ensures { result ≡ is_dot_auxiliary segment.now }
{
    segment == "..acl" || segment == "...acl" || segment == "..meta" || segment == "...meta"
}

/// Whether a segment is reserved: the name of an auxiliary of what can have none.
fn is_reserved_name(segment: &str) -> bool
    ensures { result ≡ is_reserved_name segment.now }
{
    has_reserved_end(segment) || is_dot_auxiliary(segment)
}

/// Whether a byte is a character of a path's segments, or a slash.
fn is_path_character(b: u8) -> bool
    ensures { result ≡ is_path_character b }
{
    matches!(
        b,
        b'a'..=b'z'
            | b'A'..=b'Z'
            | b'0'..=b'9'
            | b'-'
            | b'.'
            | b'_'
            | b'~'
            | b'!'
            | b'$'
            | b'&'..=b','
            | b';'
            | b'='
            | b':'
            | b'@'
            | b'/'
            | b'%'
    )
}

/// Whether a segment is empty or a dot segment, which no normal path has inside.
fn is_empty_or_dot_segment(segment: &str) -> bool
    ensures { result ≡ (is_empty segment.now || is_dot_segment segment.now) }
{
    segment.is_empty() || is_dot_segment(segment)
}

/// Whether one of two things is true of the segments of a path.
fn is_either(a: bool, b: bool) -> bool
    ensures { result ≡ (a || b) }
{
    a || b
}

/// How many segments a path has after its first slash, or why they are part of no path.
pub(crate) fn count_segments(path: &str) -> Result<usize, PathFault>
    ensures { result ≡ segment_count (segments path.now) }
{
    let mut rest = path;
    let mut count = 1;
    let mut reserved = false;
    while let Some((segment, after)) = rest.split_once('/') {
        if is_empty_or_dot_segment(segment) {
            return Err(PathFault::NotNormal);
        }
        reserved = is_either(reserved, is_auxiliary_name(segment));
        count += 1;
        rest = after;
    }
    if is_dot_segment(rest) {
        return Err(PathFault::NotNormal);
    }
    if is_either(reserved, is_reserved_name(rest)) {
        return Err(PathFault::Reserved);
    }
    Ok(count)
}

/// Whether each byte is a character of a path's segments, or a slash.
pub(crate) fn are_path_characters(bytes: &[u8]) -> bool
    ensures { result ≡ list_all is_path_character bytes.now }
{
    bytes.iter().all(|&b| is_path_character(b))
}
