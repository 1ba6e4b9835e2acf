//! The token at the start of a text, by the kinds that its first byte may begin.

ghost use mathlib.Core.List.{IsSuffix};
ghost use Rattle.std.specs.Prelude.{◌≡◌, Some, None, IfSome, IfNone, MatchBool};
ghost use Rattle.std.specs.Option.{option_copied};
ghost use Rattle.turtle_lex.specs.declared.token_groups.Group.TheVariants as Group;
ghost use Rattle.turtle_lex.specs.declared.token.TokenKind.TheVariants as TokenKind;
ghost use Rattle.turtle_lex.specs.Pattern.{word, any_case, Matches, MatchesOnly, MatchesLongest};
ghost use Rattle.turtle_lex.specs.Terminals.{lang_tag};
ghost use Rattle.turtle_lex.specs.Names.{HasNoPrefixBefore};
ghost use Rattle.turtle_lex.specs.Groups.{in_group, is_word, IsTokenOfGroup, HasNoTokenOf, kind_of};
ghost use Rattle.turtle_lex.specs.Tokens.{terminal, IsToken, HasNoToken};

use crate::char_runs::{strip_lang_tag, strip_run};
use crate::classes::{Class, Quote};
use crate::delimited::{strip_iri_ref, strip_string};
use crate::escapes::strip_word;
use crate::names::{strip_label, strip_local, strip_pname_ns};
use crate::numbers::{Number, longest_number};
use crate::token::TokenKind;
use crate::token_groups::{Group, Mark, group_of};

/// Scans an IRIREF at the start of a text.
fn iri_token(text: &[u8]) -> Option<(TokenKind, &[u8])>
    ensures found { IfSome result (λ t. IsTokenOfGroup (in_group Group.Iris) t.0 text.now t.1.now) }
    ensures none { IfNone result (HasNoTokenOf (in_group Group.Iris) text.now) }
{
    match strip_iri_ref(text) {
        Some(rest) => Some((TokenKind::IriRef, rest)),
        None => None,
    }
}

/// Scans a String at the start of a text.
fn string_token(text: &[u8]) -> Option<(TokenKind, &[u8])>
    ensures found { IfSome result (λ t.
        IsTokenOfGroup (in_group Group.Strings) t.0 text.now t.1.now) }
    ensures none { IfNone result (HasNoTokenOf (in_group Group.Strings) text.now) }
{
    match strip_string(text, Quote::Double) {
        Some(rest) => Some((TokenKind::Quoted, rest)),
        None => match strip_string(text, Quote::Single) {
            Some(rest) => Some((TokenKind::Quoted, rest)),
            None => None,
        },
    }
}

/// Scans a BLANK_NODE_LABEL at the start of a text.
fn blank_label_token(text: &[u8]) -> Option<(TokenKind, &[u8])>
    ensures found { IfSome result (λ t.
        IsTokenOfGroup (in_group Group.Labels) t.0 text.now t.1.now) }
    ensures none { IfNone result (HasNoTokenOf (in_group Group.Labels) text.now) }
{
    match strip_word(text, b"_:") {
        Some(label) => match strip_label(label) {
            Some(rest) => Some((TokenKind::BlankLabel, rest)),
            None => None,
        },
        None => None,
    }
}

/// Scans a variable at the start of a text.
fn variable_token(text: &[u8]) -> Option<(TokenKind, &[u8])>
    ensures found { IfSome result (λ t.
        IsTokenOfGroup (in_group Group.Variables) t.0 text.now t.1.now) }
    ensures none { IfNone result (HasNoTokenOf (in_group Group.Variables) text.now) }
{
    match strip_word(text, b"?") {
        Some(label) => match strip_label(label) {
            Some(rest) => Some((TokenKind::Variable, rest)),
            None => None,
        },
        None => None,
    }
}

/// Scans `[` or ANON at the start of a text.
fn square_token(text: &[u8]) -> Option<(TokenKind, &[u8])>
    ensures found { IfSome result (λ t.
        IsTokenOfGroup (in_group Group.Squares) t.0 text.now t.1.now) }
    ensures none { IfNone result (HasNoTokenOf (in_group Group.Squares) text.now) }
{
    match strip_word(text, b"[") {
        Some(inside) => match strip_word(strip_run(inside, Class::Blank), b"]") {
            Some(rest) => Some((TokenKind::Anon, rest)),
            None => Some((TokenKind::OpenSquare, inside)),
        },
        None => None,
    }
}

/// The kind of the token that is scanned as a number.
fn kind_of(number: Number) -> TokenKind
    ensures { result ≡ kind_of number }
{
    match number {
        Number::Integer => TokenKind::Integer,
        Number::Decimal => TokenKind::Decimal,
        Number::Double => TokenKind::Double,
    }
}

/// Scans an INTEGER, DECIMAL or DOUBLE at the start of a text.
fn number_token(text: &[u8]) -> Option<(TokenKind, &[u8])>
    ensures found { IfSome result (λ t.
        IsTokenOfGroup (in_group Group.Numbers) t.0 text.now t.1.now) }
    ensures none { IfNone result (HasNoTokenOf (in_group Group.Numbers) text.now) }
{
    match longest_number(text) {
        Some((number, rest)) => Some((kind_of(number), rest)),
        None => None,
    }
}

/// Scans a number or the dot at the start of a text.
fn dot_token(text: &[u8]) -> Option<(TokenKind, &[u8])>
    ensures found { IfSome result (λ t. IsTokenOfGroup (in_group Group.Dots) t.0 text.now t.1.now) }
    ensures none { IfNone result (HasNoTokenOf (in_group Group.Dots) text.now) }
{
    match longest_number(text) {
        Some((number, rest)) => Some((kind_of(number), rest)),
        None => match strip_word(text, b".") {
            Some(rest) => Some((TokenKind::Dot, rest)),
            None => None,
        },
    }
}

/// Scans a mark at the start of a text.
fn mark_token(text: &[u8], mark: Mark) -> Option<(TokenKind, &[u8])>
    ensures found { IfSome result (λ t.
        IsTokenOfGroup (in_group (Group.Marks mark)) t.0 text.now t.1.now) }
    ensures none { IfNone result (HasNoTokenOf (in_group (Group.Marks mark)) text.now) }
{
    match strip_word(text, mark.spelling()) {
        Some(rest) => Some((mark.kind(), rest)),
        None => None,
    }
}

/// Whether the text that is scanned is the word and then the rest.
fn is_word_before(text: &[u8], spelling: &[u8], rest: &[u8]) -> bool
    requires { IsSuffix rest.now text.now }
    ensures { MatchBool result (Matches (word spelling.now) text.now rest.now)
        (Matches (word spelling.now) text.now rest.now → ⊥) }
{
    match strip_word(text, spelling) {
        Some(after) => after.len() == rest.len(),
        None => false,
    }
}

/// The kind of the LANGTAG that was scanned up to the rest.
fn tag_kind(text: &[u8], rest: &[u8]) -> TokenKind
    requires { MatchesLongest lang_tag text.now (Some rest.now) }
    ensures { IsTokenOfGroup (in_group Group.Tags) result text.now rest.now }
{
    if is_word_before(text, b"@prefix", rest) {
        return TokenKind::AtPrefix;
    }
    if is_word_before(text, b"@base", rest) {
        TokenKind::AtBase
    } else {
        TokenKind::LangTag
    }
}

/// Scans a LANGTAG, `@prefix` or `@base` at the start of a text.
fn tag_token(text: &[u8]) -> Option<(TokenKind, &[u8])>
    ensures found { IfSome result (λ t. IsTokenOfGroup (in_group Group.Tags) t.0 text.now t.1.now) }
    ensures none { IfNone result (HasNoTokenOf (in_group Group.Tags) text.now) }
{
    match strip_lang_tag(text) {
        Some(rest) => Some((tag_kind(text, rest), rest)),
        None => None,
    }
}

/// Scans the letters of a fixed word in any case, and returns what follows them.
pub fn strip_any_case<'a>(text: &'a [u8], spelling: &[u8]) -> Option<&'a [u8]>
    ensures { MatchesOnly (any_case spelling.now) text.now (option_copied result) }
{
    if text.len() < spelling.len() {
        return None;
    }
    let (letters, rest) = text.split_at(spelling.len());
    if letters.eq_ignore_ascii_case(spelling) {
        Some(rest)
    } else {
        None
    }
}

/// Scans `PREFIX` or `BASE` in any case, where the text begins with no other fixed word of letters.
fn any_case_token(text: &[u8]) -> Option<(TokenKind, &[u8])>
    requires no_a { MatchesOnly (terminal TokenKind.A) text.now None }
    requires no_true { MatchesOnly (terminal TokenKind.True) text.now None }
    requires no_false { MatchesOnly (terminal TokenKind.False) text.now None }
    ensures found { IfSome result (λ t. IsTokenOfGroup is_word t.0 text.now t.1.now) }
    ensures none { IfNone result (HasNoTokenOf is_word text.now) }
{
    match strip_any_case(text, b"PREFIX") {
        Some(rest) => Some((TokenKind::Prefix, rest)),
        None => match strip_any_case(text, b"BASE") {
            Some(rest) => Some((TokenKind::Base, rest)),
            None => None,
        },
    }
}

/// Scans a fixed word of letters at the start of a text.
fn word_token(text: &[u8]) -> Option<(TokenKind, &[u8])>
    ensures found { IfSome result (λ t. IsTokenOfGroup is_word t.0 text.now t.1.now) }
    ensures none { IfNone result (HasNoTokenOf is_word text.now) }
{
    match strip_word(text, b"a") {
        Some(rest) => Some((TokenKind::A, rest)),
        None => match strip_word(text, b"true") {
            Some(rest) => Some((TokenKind::True, rest)),
            None => match strip_word(text, b"false") {
                Some(rest) => Some((TokenKind::False, rest)),
                None => any_case_token(text),
            },
        },
    }
}

/// Scans a PNAME_NS, PNAME_LN or a fixed word of letters, where no prefix begins before
/// `no_prefix_before`.
fn name_token<'a>(text: &'a [u8], no_prefix_before: &[u8]) -> Option<(TokenKind, &'a [u8])>
    requires { HasNoPrefixBefore text.now no_prefix_before.now }
    ensures found { IfSome result (λ t.
        IsTokenOfGroup (in_group Group.Names) t.0 text.now t.1.now) }
    ensures none { IfNone result (HasNoTokenOf (in_group Group.Names) text.now) }
{
    match strip_pname_ns(text, no_prefix_before) {
        Some(local) => match strip_local(local) {
            Some(rest) => Some((TokenKind::PnameLn, rest)),
            None => Some((TokenKind::PnameNs, local)),
        },
        None => word_token(text),
    }
}

/// Scans the token at the start of a text among the kinds of the group.
fn token_of<'a>(
    text: &'a [u8],
    no_prefix_before: &[u8],
    group: Group,
) -> Option<(TokenKind, &'a [u8])>
    requires { HasNoPrefixBefore text.now no_prefix_before.now }
    ensures found { IfSome result (λ t. IsTokenOfGroup (in_group group) t.0 text.now t.1.now) }
    ensures none { IfNone result (HasNoTokenOf (in_group group) text.now) }
{
    match group {
        Group::Iris => iri_token(text),
        Group::Strings => string_token(text),
        Group::Tags => tag_token(text),
        Group::Labels => blank_label_token(text),
        Group::Variables => variable_token(text),
        Group::Numbers => number_token(text),
        Group::Dots => dot_token(text),
        Group::Squares => square_token(text),
        Group::Names => name_token(text, no_prefix_before),
        Group::Marks(mark) => mark_token(text, mark),
        Group::Nothing => None,
    }
}

/// Scans the token at the start of a text, and returns what follows it, where no prefix begins
/// before `no_prefix_before`.
pub(crate) fn token_at<'a>(text: &'a [u8], no_prefix_before: &[u8]) -> Option<(TokenKind, &'a [u8])>
    requires { HasNoPrefixBefore text.now no_prefix_before.now }
    ensures found { IfSome result (λ t. IsToken t.0 text.now t.1.now) }
    ensures none { IfNone result (HasNoToken text.now) }
{
    if text.is_empty() {
        return None;
    }
    token_of(text, no_prefix_before, group_of(text[0]))
}
