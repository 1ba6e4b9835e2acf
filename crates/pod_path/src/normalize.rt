//! The steps by which a target is parsed to its normal path.

ghost use Rattle.std.specs.Prelude.{◌≡◌, true, false, IfSome, IfNone, IfOk, IfErr, Ok, Err, drop};
ghost use Rattle.std.specs.Prelude.{string_bytes};
ghost use Rattle.std.specs.List.{before_first, position};
ghost use Rattle.iri_ref.specs.Characters.{is_question_mark};
ghost use Rattle.pod_path.specs.Norm.{has_path_characters, path_text_of, depth, norm, FailsAs};

use crate::escapes::normalize_escapes;
use crate::fault::PathFault;
use crate::limits::{PATH_BYTES_LIMIT, PATH_SEGMENTS_LIMIT};
use crate::segments::{are_path_characters, count_segments};
use std::alloc::Global;

/// Whether bytes pass step 2 of normalizing a path: they are a slash, and then characters of paths.
fn has_path_characters(bytes: &[u8]) -> bool
    ensures { result ≡ has_path_characters bytes.now }
{
    match bytes {
        [] => false,
        [first, rest @ ..] => *first == b'/' && are_path_characters(rest),
    }
}

/// Step 2 of normalizing a path: the bytes as text, where they are a slash and then characters of
/// paths.
fn into_path_text(bytes: Vec<u8>) -> Option<String>
    ensures some { IfSome result (λ text. string_bytes text ≡ bytes.items) }
    ensures characters { IfSome result (λ _. has_path_characters bytes.items ≡ true) }
    ensures none { IfNone result (has_path_characters bytes.items ≡ false) }
{
    if !has_path_characters(&bytes) {
        return None;
    }
    Some(String::from_utf8(bytes).unwrap())
}

/// The text of a path that is being normalized, after its first slash.
pub(crate) fn strip_first_slash(text: &str) -> &str
    requires { has_path_characters text.now ≡ true }
    ensures { result.now ≡ drop 1 text.now }
{
    &text[1..]
}

/// Steps 1 to 3 of normalizing a path: the text of any length, and how many segments it has.
pub(crate) fn normalize_text(alloc: Global, text: &[u8]) -> Result<(String, usize), PathFault>
    ensures text { IfOk result (λ read. path_text_of text.now ≡ Ok (string_bytes read.0)) }
    ensures depth { IfOk result (λ read. read.1 ≡ depth (string_bytes read.0)) }
    ensures fault { IfErr result (λ fault. FailsAs fault (path_text_of text.now)) }
{
    let bytes = normalize_escapes(alloc, text)?;
    let Some(text) = into_path_text(bytes) else {
        return Err(PathFault::NotNormal);
    };
    let depth = count_segments(strip_first_slash(text.as_str()))?;
    Ok((text, depth))
}

/// Where the query of a target begins, before which it is normalized to a path.
fn find_query(target: &[u8]) -> Option<usize>
    ensures { result ≡ position is_question_mark target.now }
{
    target.iter().position(|b| *b == b'?')
}

/// The target before its query, which is normalized to a path.
fn strip_query(target: &[u8]) -> &[u8]
    ensures { result.now ≡ before_first is_question_mark target.now }
{
    match find_query(target) {
        Some(at) => &target[..at],
        None => target,
    }
}

/// Steps 1 to 5 of normalizing a path: that of a target, without its query.
pub(crate) fn normalize_target(alloc: Global, target: &[u8]) -> Result<String, PathFault>
    ensures path { IfOk result (λ path. norm target.now ≡ Ok (string_bytes path)) }
    ensures fault { IfErr result (λ fault. FailsAs fault (norm target.now)) }
{
    let (text, depth) = normalize_text(alloc, strip_query(target))?;
    if text.len() > PATH_BYTES_LIMIT {
        return Err(PathFault::TooLong);
    }
    if depth > PATH_SEGMENTS_LIMIT {
        return Err(PathFault::TooDeep);
    }
    Ok(text)
}
