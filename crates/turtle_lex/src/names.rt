//! Names: labels, prefixes and local names.

ghost use Rattle.std.specs.Prelude.{◌≡◌, ◌<◌, ◌≤◌, true, length, take, IfSome};
ghost use Rattle.std.specs.List.{list_all};
ghost use Rattle.std.specs.Option.{option_copied};
ghost use Rattle.turtle_lex.specs.Classes.{is_pn_chars};
ghost use Rattle.turtle_lex.specs.Pattern.{one, many, Matches, MatchesOnly, MatchesLongest};
ghost use Rattle.turtle_lex.specs.Terminals.{plx, label, pn_local, pname_ns};
ghost use Rattle.turtle_lex.specs.declared.names.Parts.TheVariants as Parts;
ghost use Rattle.turtle_lex.specs.Names.{HasNoPrefixBefore, PrefixesEnd, two_digits, colon_or_plx};
ghost use Rattle.turtle_lex.specs.Names.{name_part, IsTail, label_first, local_first, is_name_byte};
ghost use Rattle.turtle_lex.specs.Names.{prefix_and_colon, is_name_end, EndsNames};

use crate::classes::{Class, strip_one};
use crate::escapes::strip_word;

/// The parts of a name after its first, beside dots: PN_CHARS, and in a local name colons and PLX.
#[derive(Clone, Copy, Debug, PartialEq, Eq)]
pub(crate) enum Parts {
    Plain,
    Local,
}

/// What follows the two hexadecimal digits of a name's PERCENT.
fn strip_two_digits(text: &[u8]) -> Option<&[u8]>
    ensures matches { MatchesOnly two_digits text.now (option_copied result) }
    ensures shorter { IfSome result (λ rest. length rest.now < length text.now) }
{
    match strip_one(text, Class::HexDigit) {
        Some(rest) => strip_one(rest, Class::HexDigit),
        None => None,
    }
}

/// What follows a name's PLX.
fn strip_plx(text: &[u8]) -> Option<&[u8]>
    ensures matches { MatchesOnly plx text.now (option_copied result) }
    ensures shorter { IfSome result (λ rest. length rest.now < length text.now) }
{
    match strip_word(text, b"%") {
        Some(digits) => strip_two_digits(digits),
        None => match strip_word(text, b"\\") {
            Some(rest) => strip_one(rest, Class::LocalEscaped),
            None => None,
        },
    }
}

/// What follows a colon or a PLX in a local name.
fn strip_colon_or_plx(text: &[u8]) -> Option<&[u8]>
    ensures matches { MatchesOnly colon_or_plx text.now (option_copied result) }
    ensures shorter { IfSome result (λ rest. length rest.now < length text.now) }
{
    match strip_word(text, b":") {
        Some(rest) => Some(rest),
        None => strip_plx(text),
    }
}

/// What follows a part of a name.
fn strip_name_part(text: &[u8], parts: Parts) -> Option<&[u8]>
    ensures matches { MatchesOnly (name_part parts) text.now (option_copied result) }
    ensures shorter { IfSome result (λ rest. length rest.now < length text.now) }
{
    match strip_one(text, Class::NamePart) {
        Some(rest) => Some(rest),
        None => match parts {
            Parts::Plain => None,
            Parts::Local => strip_colon_or_plx(text),
        },
    }
}

/// Whether the byte is a PN_CHARS by itself.
#[tactic(auto, unfolding(crate::specs::Names::is_name_byte))]
fn is_name_byte(byte: u8) -> bool
    ensures { result ≡ is_name_byte byte }
{
    byte.is_ascii_lowercase() || matches!(byte, b'A'..=b'Z' | b'0'..=b'9' | b'_' | b'-')
}

/// How many bytes at the start are each a PN_CHARS.
fn name_len(text: &[u8]) -> usize
    ensures within { result ≤ length text.now }
    ensures name { list_all is_name_byte (take result text.now) ≡ true }
{
    for index in 0..text.len() {
        if !is_name_byte(text[index]) {
            return index;
        }
    }
    text.len()
}

/// What follows the bytes at the start that are each a PN_CHARS.
fn strip_name_bytes(text: &[u8]) -> &[u8]
    ensures run { Matches (many (one is_pn_chars)) text.now result.now }
    ensures no_longer { length result.now ≤ length text.now }
{
    text.split_at(name_len(text)).1
}

/// Whether the byte is ASCII and goes on with no name: it is no part of one, and no dot.
#[tactic(auto, unfolding(crate::specs::Names::is_name_end))]
fn is_name_end(byte: u8) -> bool
    ensures { result ≡ is_name_end byte }
{
    byte < 0x80 && !is_name_byte(byte) && !matches!(byte, b'.' | b':' | b'%' | b'\\')
}

/// Whether the first byte of the text ends each name.
fn ends_names(text: &[u8]) -> bool
    ensures { result ≡ true → EndsNames text.now }
{
    match text {
        [byte, ..] => is_name_end(*byte),
        [] => false,
    }
}

/// Where a name ends after its first part, and where its parts and dots end.
fn strip_tail(text: &[u8], parts: Parts) -> (&[u8], &[u8])
    ensures name { IsTail (name_part parts) text.now result.0.now result.1.now }
    ensures prefixes { parts ≡ Parts.Plain → PrefixesEnd text.now result.0.now result.1.now }
{
    let mut end = strip_name_bytes(text);
    let mut rest = end;
    loop {
        if ends_names(rest) {
            return (end, rest);
        }
        match strip_name_part(rest, parts) {
            Some(after) => {
                rest = strip_name_bytes(after);
                end = rest;
            }
            None => match strip_word(rest, b".") {
                Some(after) => rest = after,
                None => return (end, rest),
            },
        }
    }
}

/// What follows the first part of a label.
fn strip_label_first(text: &[u8]) -> Option<&[u8]>
    ensures matches { MatchesOnly label_first text.now (option_copied result) }
    ensures shorter { IfSome result (λ rest. length rest.now < length text.now) }
{
    match strip_one(text, Class::NameFirst) {
        Some(rest) => Some(rest),
        None => strip_one(text, Class::Digit),
    }
}

/// What follows the first part of a local name.
fn strip_local_first(text: &[u8]) -> Option<&[u8]>
    ensures matches { MatchesOnly local_first text.now (option_copied result) }
    ensures shorter { IfSome result (λ rest. length rest.now < length text.now) }
{
    match strip_one(text, Class::NameFirst) {
        Some(rest) => Some(rest),
        None => match strip_one(text, Class::Digit) {
            Some(rest) => Some(rest),
            None => strip_colon_or_plx(text),
        },
    }
}

/// What follows the longest label, as after `_:` or `?`.
pub(crate) fn strip_label(text: &[u8]) -> Option<&[u8]>
    ensures { MatchesLongest label text.now (option_copied result) }
{
    match strip_label_first(text) {
        Some(rest) => Some(strip_tail(rest, Parts::Plain).0),
        None => None,
    }
}

/// What follows the longest PN_LOCAL.
pub(crate) fn strip_local(text: &[u8]) -> Option<&[u8]>
    ensures { MatchesLongest pn_local text.now (option_copied result) }
{
    match strip_local_first(text) {
        Some(rest) => Some(strip_tail(rest, Parts::Local).0),
        None => None,
    }
}

/// What follows a name's PN_PREFIX and its colon.
fn strip_prefix(text: &[u8]) -> Option<&[u8]>
    ensures { MatchesOnly prefix_and_colon text.now (option_copied result) }
{
    match strip_one(text, Class::NameBase) {
        Some(rest) => {
            let (end, stop) = strip_tail(rest, Parts::Plain);
            if end.len() == stop.len() {
                strip_word(stop, b":")
            } else {
                None
            }
        }
        None => None,
    }
}

/// What follows a PNAME_NS, which is a name's prefix with its colon.
fn strip_any_pname_ns(text: &[u8]) -> Option<&[u8]>
    ensures { MatchesOnly pname_ns text.now (option_copied result) }
{
    match strip_word(text, b":") {
        Some(rest) => Some(rest),
        None => strip_prefix(text),
    }
}

/// What follows a PNAME_NS, a name's prefix with its colon, where no prefix begins before
/// `no_prefix_before`.
pub(crate) fn strip_pname_ns<'a>(text: &'a [u8], no_prefix_before: &[u8]) -> Option<&'a [u8]>
    requires { HasNoPrefixBefore text.now no_prefix_before.now }
    ensures { MatchesOnly pname_ns text.now (option_copied result) }
{
    if no_prefix_before.len() < text.len() && text[0].is_ascii_alphabetic() {
        return None;
    }
    strip_any_pname_ns(text)
}

/// A suffix of the text before which no name's prefix begins, by the parts and dots at its start.
///
/// In `aaaa` each `a` is a token, since no colon follows. With this suffix known, the text is
/// searched for that colon once, and not again for each token.
pub(crate) fn no_prefix_up_to(text: &[u8]) -> &[u8]
    ensures { HasNoPrefixBefore text.now result.now }
{
    let (end, stop) = strip_tail(text, Parts::Plain);
    if end.len() != stop.len() {
        return stop;
    }
    match strip_word(stop, b":") {
        Some(_) => text,
        None => stop,
    }
}
