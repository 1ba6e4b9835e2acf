//! Texts of tokens, and the parts of them that their values are made of.

ghost use Rattle.std.specs.Prelude.{◌≡◌, List, ℕ, [], drop, IfOk};
ghost use Rattle.std.specs.List.{after_first};
ghost use Rattle.std.specs.Str.{IsUtf8};
ghost use Rattle.turtle_lex.specs.Tokens.{IsTokenOf, MatchesKind};
ghost use Rattle.turtle_lex.specs.Laws.{text_of as text_of_token};
ghost use Rattle.turtle_lex.specs.declared.token.TokenKind.TheVariants as Kind;
ghost use Rattle.turtle_terms.specs.Escapes.{decoded};
ghost use Rattle.turtle_terms.specs.Values.{without_ends, quote_count, is_colon, prefix_value};
ghost use Rattle.turtle_terms.specs.Values.{string_value, label_value, language_value};
ghost use Rattle.turtle_terms.specs.Values.{variable_value};

use crate::escapes::{decode, has_backslash};
use pod_base::{Mem, Text};
use std::alloc::Global;
use turtle_lex::{Token, TokenKind};

/// The text of a token.
pub(crate) fn text_of<'a>(bytes: &'a [u8], token: &Token) -> &'a str
    requires { IsTokenOf bytes.now token.now }
    ensures text { result.now ≡ text_of_token bytes.now token.now }
    ensures of_kind { MatchesKind token.now.kind result.now [] }
{
    match std::str::from_utf8(&bytes[token.from..token.to]) {
        Ok(text) => text,
        Err(_) => unreachable!(),
    }
}

/// How many quotes begin and end the text of a String.
fn quote_count(text: &[u8]) -> usize
    ensures { result ≡ quote_count text.now }
{
    match text {
        [a, b, c, ..] if *a == *b && *b == *c => 3,
        _ => 1,
    }
}

/// The part of a String's text between its quotes.
fn string_content(text: &str) -> &str
    requires { MatchesKind Kind.Quoted text.now [] }
    ensures content { result.now ≡ without_ends (quote_count text.now) text.now }
    ensures decodes { IsUtf8 (decoded result.now) }
{
    let count = quote_count(text.as_bytes());
    &text[count..text.len() - count]
}

/// The part of an IRIREF's text between its brackets.
pub(crate) fn iri_content(text: &str) -> &str
    requires { MatchesKind Kind.IriRef text.now [] }
    ensures content { result.now ≡ without_ends 1 text.now }
    ensures decodes { IsUtf8 (decoded result.now) }
{
    &text[1..text.len() - 1]
}

/// The parts of a name's text, its prefix and what follows its `:`.
pub(crate) fn split_name(text: &str) -> (&str, &str)
    ensures prefix { result.0.now ≡ prefix_value text.now }
    ensures local { result.1.now ≡ after_first is_colon text.now }
{
    text.split_once(':').unwrap_or((text, ""))
}

/// The value of a part of a token's text that has escapes.
fn decoded_text(alloc: Global, content: &str) -> Mem<Text>
    requires { IsUtf8 (decoded content.now) }
    ensures { IfOk result (λ value. value ≡ decoded content.now) }
{
    if !has_backslash(content) {
        return Text::of(alloc, content);
    }
    let value = decode(alloc, content)?;
    Text::from_string(alloc, value)
}

/// The lexical form in the text of a String: what stands between its quotes, with its escapes
/// decoded.
pub fn lexical_form(alloc: Global, bytes: &[u8], token: &Token) -> Mem<Text>
    requires of_bytes { IsTokenOf bytes.now token.now }
    requires kind { token.now.kind ≡ Kind.Quoted }
    ensures { IfOk result (λ value. value ≡ string_value (text_of_token bytes.now token.now)) }
{
    decoded_text(alloc, string_content(text_of(bytes, token)))
}

/// The label in the text of a BLANK_NODE_LABEL, without `_:`.
pub fn label(alloc: Global, bytes: &[u8], token: &Token) -> Mem<Text>
    requires of_bytes { IsTokenOf bytes.now token.now }
    requires kind { token.now.kind ≡ Kind.BlankLabel }
    ensures { IfOk result (λ value. value ≡ label_value (text_of_token bytes.now token.now)) }
{
    let text = text_of(bytes, token);
    Text::of(alloc, &text[2..])
}

/// The tag in the text of a LANGTAG, without `@` and in lower case.
pub fn language(alloc: Global, bytes: &[u8], token: &Token) -> Mem<Text>
    requires of_bytes { IsTokenOf bytes.now token.now }
    requires kind { token.now.kind ≡ Kind.LangTag }
    ensures { IfOk result (λ value. value ≡ language_value (text_of_token bytes.now token.now)) }
{
    let text = text_of(bytes, token);
    let tag = text[1..].to_ascii_lowercase(alloc)?;
    Text::from_string(alloc, tag)
}

/// The name in the text of a variable, without its `?`.
pub fn variable(alloc: Global, bytes: &[u8], token: &Token) -> Mem<Text>
    requires of_bytes { IsTokenOf bytes.now token.now }
    requires kind { token.now.kind ≡ Kind.Variable }
    ensures { IfOk result (λ name. name ≡ variable_value (text_of_token bytes.now token.now)) }
{
    let text = text_of(bytes, token);
    Text::of(alloc, &text[1..])
}

/// The prefix in the text of a name, without its `:`.
pub fn prefix<'a>(bytes: &'a [u8], token: &Token) -> &'a str
    requires { IsTokenOf bytes.now token.now }
    ensures { result.now ≡ prefix_value (text_of_token bytes.now token.now) }
{
    split_name(text_of(bytes, token)).0
}
