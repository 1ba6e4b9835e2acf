//! [`HeadSearch`]: the end of a head in a text that comes in pieces.

ghost use Rattle.std.specs.Prelude.{◌≡◌, ◌<◌, ◌≤◌, true, false, length, List, ℕ, [], None, IfSome};
ghost use Rattle.http_head.specs.HeadEnds.{WholeWithin, length_in, head_end};
ghost use Rattle.http_head.specs.HeadScan.{scan_state, begins_line, Passed, HasScanned};
ghost use Rattle.http_head.specs.HeadScan.{ScannedPrefixOf};

use crate::head_ends::{HEAD_LIMIT, HeadEnd, blank_length, head_length, prefix_of, suffix_from};
use std::marker::Model;

/// A search for the end of a head in a text that grows. It keeps how far it has scanned, so that
/// all its scans together pass each byte about once, however small the pieces are.
#[derive(Debug, Drop)]
pub struct HeadSearch {
    at: usize,
    begun: bool,
}

impl Model for HeadSearch {
    ghost use Rattle.http_head.specs.HeadScan.{ScanState, scan_state};

    ghost Value = { ScanState };

    ghost view = { λ s. scan_state s.at s.begun };
}

/// Passes the empty lines before a head in the window of a search: how many bytes are passed then,
/// and whether the request line begins.
fn skip_blank_lines(at: usize, window: &[u8]) -> (usize, bool)
    requires { Passed (scan_state at false) window.now }
    ensures passed { Passed (scan_state result.0 result.1) window.now }
    ensures none { result.1 ≡ false → length_in window.now ≡ None }
{
    let rest = suffix_from(window, at);
    let blank = blank_length(rest);
    let begun = begins_line(suffix_from(rest, blank));
    (at + blank, begun)
}

/// Whether bytes of a search, which begin with no empty line, begin a line of the head, whatever
/// follows.
fn begins_line(bytes: &[u8]) -> bool
    ensures { result ≡ begins_line bytes.now }
{
    match bytes {
        [] => false,
        [only] => *only != b'\r',
        _ => true,
    }
}

/// Passes the bytes in the window of a search that no head's end can include any more: how many
/// bytes are passed then, and how long the head is.
fn skip_header_lines(at: usize, window: &[u8]) -> (usize, Option<usize>)
    requires { Passed (scan_state at true) window.now }
    ensures passed { Passed (scan_state result.0 true) window.now }
    ensures len { IfSome result.1 (λ n. (0 < n) × (n ≤ length window.now)) }
    ensures found { result.1 ≡ length_in window.now }
{
    let rest = suffix_from(window, at);
    match head_length(rest) {
        Some(length) => (at, Some(length + at)),
        None => (at + rest.len().saturating_sub(2), None),
    }
}

impl HeadSearch {
    /// A search that has scanned nothing.
    pub fn new() -> HeadSearch
        ensures { HasScanned result [] }
    {
        HeadSearch {
            at: 0,
            begun: false,
        }
    }

    /// Where the head at the start of the text ends, the same as [`head_end`](crate::head_end). The
    /// search may have scanned any prefix of the text before, and no other bytes.
    pub fn scan(&mut self, text: &[u8]) -> HeadEnd
        requires { ScannedPrefixOf self.old text.now }
        ensures len { WholeWithin result (length text.now) }
        ensures exact { result ≡ head_end text.now }
        ensures scanned { HasScanned self.new text.now }
    {
        match self.length_in(prefix_of(text, HEAD_LIMIT)) {
            Some(length) => HeadEnd::Whole(length),
            None if text.len() >= HEAD_LIMIT => HeadEnd::TooLong,
            None => HeadEnd::NotYet,
        }
    }

    /// How long the head is in the window of the search, with the empty lines before it.
    fn length_in(&mut self, window: &[u8]) -> Option<usize>
        requires { Passed self.old window.now }
        ensures len { IfSome result (λ n. (0 < n) × (n ≤ length window.now)) }
        ensures exact { result ≡ length_in window.now }
        ensures passed { Passed self.new window.now }
    {
        if !self.begun {
            let (at, begun) = skip_blank_lines(self.at, window);
            self.at = at;
            self.begun = begun;
        }
        if !self.begun {
            return None;
        }
        let (at, length) = skip_header_lines(self.at, window);
        self.at = at;
        length
    }
}

impl HeadSearch {
    /// A search that has seen as much.
    pub fn copy(&self) -> HeadSearch
        ensures { result ≡ self.now }
    {
        HeadSearch {
            at: self.at,
            begun: self.begun,
        }
    }
}
