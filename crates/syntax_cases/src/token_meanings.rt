//! Cases of `turtle_terms`: what the first token of a text means under a base and prefixes, which
//! are a field of `name=IRI` pairs with `;` between them.

ghost use Rattle.turtle_lex.specs.Tokens.{IsTokenOf};

use crate::documents::fault_text;
use crate::print;
use case_words::{bytes, iri_of, shown};
use iri_ref::Iri;
use pod_base::Mem;
use std::alloc::Global;
use turtle_lex::{Token, TokenKind, next_token};
use turtle_terms::Scope;

/// Declares the prefix of a pair, where its IRI is one.
fn declare(alloc: Global, scope: &mut Scope, pair: &str) -> Mem<()> {
    if let Some((prefix, text)) = pair.split_once('=') {
        if let Some(iri) = iri_of(alloc, text)? {
            scope.declare(alloc, prefix, iri)?;
        }
    }
    Ok(())
}

/// The scope with the prefixes of a field, declared in their order.
fn scope(alloc: Global, field: &str) -> Mem<Scope> {
    let mut scope = Scope::new(alloc);
    for pair in field.split(';') {
        declare(alloc, &mut scope, pair)?;
    }
    Ok(scope)
}

/// What a token means.
fn meaning(alloc: Global, base: &Iri, scope: &Scope, bytes: &[u8], token: &Token) -> Mem<String>
    requires { IsTokenOf bytes.now token.now }
{
    match turtle_terms::term(alloc, base, scope, bytes, token) {
        Ok(Some(term)) => print::term(alloc, &term),
        Ok(None) => Ok(String::from_str(alloc, "no term")?),
        Err(fault) => fault_text(alloc, fault),
    }
}

/// What the first token of a text means.
fn meaning_in(alloc: Global, base: &Iri, scope: &Scope, bytes: &[u8]) -> Mem<String> {
    match next_token(bytes, 0) {
        Ok(Some(token)) => meaning(alloc, base, scope, bytes, &token),
        _ => Ok(String::from_str(alloc, "no token")?),
    }
}

/// What the first token of a text means under a base and prefixes.
pub(crate) fn term(alloc: Global, base: &str, prefixes: &str, field: &str) -> Mem<String> {
    let text = bytes(alloc, field)?;
    match iri_of(alloc, base)? {
        Some(base) => {
            let scope = scope(alloc, prefixes)?;
            meaning_in(alloc, &base, &scope, text.as_slice())
        }
        None => Ok(String::from_str(alloc, "no base")?),
    }
}

fn tag(alloc: Global, bytes: &[u8], token: &Token) -> Mem<String>
    requires { IsTokenOf bytes.now token.now }
{
    if token.kind != TokenKind::LangTag {
        return Ok(String::from_str(alloc, "no tag")?);
    }
    let tag = turtle_terms::language(alloc, bytes, token)?;
    Ok(shown(alloc, tag.as_str().as_bytes())?)
}

/// The language of the first token of a text.
pub(crate) fn language(alloc: Global, field: &str) -> Mem<String> {
    let text = bytes(alloc, field)?;
    match next_token(text.as_slice(), 0) {
        Ok(Some(token)) => tag(alloc, text.as_slice(), &token),
        _ => Ok(String::from_str(alloc, "no token")?),
    }
}

fn name(alloc: Global, bytes: &[u8], token: &Token) -> Mem<String>
    requires { IsTokenOf bytes.now token.now }
{
    if token.kind != TokenKind::Variable {
        return Ok(String::from_str(alloc, "no variable")?);
    }
    let name = turtle_terms::variable(alloc, bytes, token)?;
    Ok(shown(alloc, name.as_str().as_bytes())?)
}

/// The name of the variable that is the first token of a text.
pub(crate) fn variable(alloc: Global, field: &str) -> Mem<String> {
    let text = bytes(alloc, field)?;
    match next_token(text.as_slice(), 0) {
        Ok(Some(token)) => name(alloc, text.as_slice(), &token),
        _ => Ok(String::from_str(alloc, "no token")?),
    }
}
