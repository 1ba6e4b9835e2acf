//! The verdict on a request's preconditions (RFC 9110, section 13.2.2).

ghost use Rattle.std.specs.Prelude.{◌≡◌, ◌&&◌, ◌||◌, Option, None, Some};
ghost use Rattle.std.specs.Option.{option_copied, option_map};
ghost use Rattle.conditional_req.specs.Verdicts as verdicts;
ghost use Rattle.conditional_req.specs.Verdicts.{validators_of};

use crate::precondition_fields::Conditions;
use crate::tag::Tag;
use crate::tag_list::{are_tags, has_strong_match, has_weak_match, is_any};
use pod_base::{Bytes, Method, Moment, moment_of};

/// The state of the resource that a request names: the tags of the representations that it compares
/// with, and the moment of the last change.
#[derive(Clone, Copy, Debug)]
pub struct Current<'a> {
    /// The tag of the chosen representation for GET and HEAD, those of all offers for other
    /// methods.
    pub tags: &'a [Tag],
    pub modified: Moment,
}

/// What follows from a request's preconditions.
#[derive(Clone, Copy, Debug, PartialEq, Eq)]
pub enum Verdict {
    /// The request is carried out.
    Go,
    /// 304: the client has the representation.
    NotModified,
    /// 412: a precondition failed.
    Failed,
}

/// The tags with which the verdict compares those of a precondition; none without a resource.
fn tags_of<'a>(current: Option<&Current<'a>>) -> &'a [Tag]
    ensures { result.now ≡ verdicts.tags_of
        (option_map validators_of (option_copied current.entry)) }
{
    match current {
        Some(current) => current.tags,
        None => &[],
    }
}

/// Whether the precondition If-Match fails: `*` without a resource, a list without a strongly equal
/// tag, or a malformed value.
fn match_fails(matching: &Option<Bytes>, current: Option<&Current>) -> bool
    ensures { result ≡ verdicts.match_fails matching.now
        (option_map validators_of (option_copied current.entry)) }
{
    match matching {
        Some(value) => {
            let value = value.as_slice();
            if is_any(value) {
                current.is_none()
            } else {
                !(are_tags(value) && has_strong_match(value, tags_of(current)))
            }
        }
        None => false,
    }
}

/// Whether the resource was changed after the date of the precondition If-Unmodified-Since, if
/// there are both.
fn is_later(date: Option<u64>, current: Option<&Current>) -> bool
    ensures { result ≡ verdicts.is_later date
        (option_map validators_of (option_copied current.entry)) }
{
    match current {
        Some(current) => match date {
            Some(date) => moment_of(current.modified.0).0 > date,
            None => false,
        },
        None => false,
    }
}

/// Whether the resource wasn't changed after the date of the precondition If-Modified-Since, if
/// there are both.
fn is_not_later(date: Option<u64>, current: Option<&Current>) -> bool
    ensures { result ≡ verdicts.is_not_later date
        (option_map validators_of (option_copied current.entry)) }
{
    match current {
        Some(current) => match date {
            Some(date) => moment_of(current.modified.0).0 <= date,
            None => false,
        },
        None => false,
    }
}

/// Whether the precondition If-None-Match is `*` or a list of tags.
fn has_none_match(none_matching: &Option<Bytes>) -> bool
    ensures { result ≡ verdicts.has_none_match none_matching.now }
{
    match none_matching {
        Some(value) => is_any(value.as_slice()) || are_tags(value.as_slice()),
        None => false,
    }
}

/// Whether the precondition If-None-Match fails: `*` with a resource, or a list with a weakly equal
/// tag.
fn none_match_fails(none_matching: &Option<Bytes>, current: Option<&Current>) -> bool
    ensures { result ≡ verdicts.none_match_fails none_matching.now
        (option_map validators_of (option_copied current.entry)) }
{
    match none_matching {
        Some(value) => {
            let value = value.as_slice();
            if is_any(value) {
                current.is_some()
            } else {
                are_tags(value) && has_weak_match(value, tags_of(current))
            }
        }
        None => false,
    }
}

/// Whether a method only reads, so that the precondition If-Modified-Since counts.
fn is_reading(method: Method) -> bool
    ensures { result ≡ verdicts.is_reading method }
{
    match method {
        Method::Get | Method::Head => true,
        Method::Options
        | Method::Post
        | Method::Put
        | Method::Patch
        | Method::Delete
        | Method::Other => false,
    }
}

/// Whether the verdict is `Failed` by steps 1 and 2: If-Match, and without it If-Unmodified-Since.
fn is_refused(conditions: &Conditions, current: Option<&Current>) -> bool
    ensures { result ≡ verdicts.is_refused conditions.now
        (option_map validators_of (option_copied current.entry)) }
{
    if conditions.matching.is_some() {
        match_fails(&conditions.matching, current)
    } else {
        is_later(conditions.unmodified_since, current)
    }
}

/// Whether the verdict is that the client knows the resource, by steps 3 and 4: If-None-Match, and
/// without it If-Modified-Since for GET and HEAD.
fn is_known(conditions: &Conditions, method: Method, current: Option<&Current>) -> bool
    ensures { result ≡ verdicts.is_known conditions.now method
        (option_map validators_of (option_copied current.entry)) }
{
    if has_none_match(&conditions.none_matching) {
        none_match_fails(&conditions.none_matching, current)
    } else {
        is_reading(method) && is_not_later(conditions.modified_since, current)
    }
}

/// The verdict on a request's preconditions, where `current` is the resource's state, if it exists.
///
/// In this order: If-Match, or without it If-Unmodified-Since; then If-None-Match, or without it
/// If-Modified-Since. OPTIONS has no preconditions. A date that can't be read is ignored, and so is
/// a malformed If-None-Match; a malformed If-Match fails.
pub fn judge(conditions: &Conditions, method: Method, current: Option<&Current>) -> Verdict
    ensures { result ≡ verdicts.verdict conditions.now method
        (option_map validators_of (option_copied current.entry)) }
{
    if method == Method::Options {
        return Verdict::Go;
    }
    if is_refused(conditions, current) {
        return Verdict::Failed;
    }
    if !is_known(conditions, method, current) {
        return Verdict::Go;
    }
    if is_reading(method) {
        Verdict::NotModified
    } else {
        Verdict::Failed
    }
}
