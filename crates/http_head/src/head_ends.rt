//! Where the head of a request ends (RFC 9112, sections 2.1 and 2.2).

ghost use Rattle.std.specs.Prelude.{◌≡◌, ◌+◌, ◌-◌, ◌<◌, ◌≤◌, length, take, drop, None, IfSome};
ghost use Rattle.std.specs.Prelude.{IfNone};
ghost use Rattle.std.specs.Option.{option_map};
ghost use Rattle.http_head.specs.HeadEnds.{WholeWithin};
ghost use Rattle.http_head.specs.HeadEnds as ends;

use crate::head_search::HeadSearch;
use memchr::memchr;

/// The most bytes of a head, with the empty lines before it.
pub const HEAD_LIMIT: usize = 16_384;

/// Where a request's head ends (RFC 9112, section 2.1).
#[derive(Clone, Copy, Debug, PartialEq, Eq)]
pub enum HeadEnd {
    /// After that many bytes, with the empty lines before it.
    Whole(usize),
    /// The end has not come yet.
    NotYet,
    /// It is not within the first [`HEAD_LIMIT`] bytes.
    TooLong,
}

/// The length of the line end, LF or CR LF, at the start of a head's bytes; 0 where there is none.
fn line_end_length(bytes: &[u8]) -> usize
    ensures len { result ≤ length bytes.now }
    ensures exact { result ≡ ends.line_end_length bytes.now }
{
    match bytes {
        [b'\n', ..] => 1,
        [b'\r', b'\n', ..] => 2,
        _ => 0,
    }
}

/// The length of the empty lines before a head: each LF and each CR LF up to the first other byte
/// (RFC 9112, section 2.2).
pub fn blank_length(bytes: &[u8]) -> usize
    ensures len { result ≤ length bytes.now }
    ensures exact { result ≡ ends.blank_length bytes.now }
{
    let mut at = 0;
    while at < bytes.len() {
        let end = line_end_length(&bytes[at..]);
        if end == 0 {
            return at;
        }
        at += end;
    }
    at
}

/// The length of the line end that follows an LF at the start of the bytes and ends a head; 0 where
/// there is no such LF.
fn line_end_after_lf(bytes: &[u8]) -> usize
    ensures len { result ≤ length bytes.now - 1 }
    ensures exact { result ≡ ends.line_end_after_lf bytes.now }
{
    match bytes {
        [b'\n', suffix_from @ ..] => line_end_length(suffix_from),
        _ => 0,
    }
}

/// The offset of the first LF in a head's bytes. A head that ends in the bytes ends there or after
/// it.
fn first_line_feed(bytes: &[u8]) -> Option<usize>
    ensures within { IfSome result (λ n. n < length bytes.now) }
    ensures skips { IfSome result (λ n. ends.head_length bytes.now
        ≡ option_map (λ m. m + n) (ends.head_length (drop n bytes.now))) }
    ensures none { IfNone result (ends.head_length bytes.now ≡ None) }
{
    memchr(b'\n', bytes)
}

/// The length of a head: how many bytes there are up to the first LF that a line end follows, with
/// that line end.
pub(crate) fn head_length(bytes: &[u8]) -> Option<usize>
    ensures len { IfSome result (λ n. (0 < n) × (n ≤ length bytes.now)) }
    ensures exact { result ≡ ends.head_length bytes.now }
{
    let mut at = 0;
    while let Some(skipped) = first_line_feed(suffix_from(bytes, at)) {
        at += skipped;
        let end = line_end_after_lf(suffix_from(bytes, at));
        if end > 0 {
            return Some(end + 1 + at);
        }
        at += 1;
    }
    None
}

/// The first bytes of a text whose head's end is sought, at most that many.
pub(crate) fn prefix_of(text: &[u8], most: usize) -> &[u8]
    ensures len { length result.now ≤ length text.now }
    ensures exact { result.now ≡ take most text.now }
{
    if text.len() > most {
        &text[..most]
    } else {
        text
    }
}

/// The bytes from an offset on of a text whose head's end is sought.
pub(crate) fn suffix_from(text: &[u8], at: usize) -> &[u8]
    requires { at ≤ length text.now }
    ensures { result.now ≡ drop at text.now }
{
    &text[at..]
}

/// Where the head at the start of the text ends. Empty lines before it are skipped, and count in
/// [`HEAD_LIMIT`]. It ends with the first LF after them that LF or CR LF follows, that line end
/// included (RFC 9112, sections 2.1 and 2.2).
///
/// A text that comes in pieces is scanned by a [`HeadSearch`].
pub fn head_end(text: &[u8]) -> HeadEnd
    ensures len { WholeWithin result (length text.now) }
    ensures exact { result ≡ ends.head_end text.now }
{
    HeadSearch::new().scan(text)
}
