//! Cases of `turtle_lex`: whether a text is one token, and the tokens or the fault of a text.

use case_words::bytes;
use std::alloc::{AllocError, Global};
use turtle_lex::{LexFault, Lexer, Token, next_token, tokens};

/// Writes one more token, after a comma.
fn push_token(shown: &mut String, token: Token) -> Result<(), AllocError> {
    if !shown.is_empty() {
        shown.push_str(", ")?;
    }
    write!(shown, "{:?} {}-{}", token.kind, token.from, token.to)
}

/// Shows a fault.
fn show_fault(alloc: Global, fault: LexFault) -> Result<String, AllocError> {
    match fault {
        LexFault::NotText { at } => format!(in alloc; "NotText at {at}"),
        LexFault::BadToken { at } => format!(in alloc; "BadToken at {at}"),
        LexFault::NoMemory => Err(AllocError),
    }
}

/// Whether the whole text is one token of the kind.
fn is_token(alloc: Global, kind: &str, field: &str) -> Result<String, AllocError> {
    let text = bytes(alloc, field)?;
    let name = match next_token(text.as_slice(), 0) {
        Ok(Some(token)) if token.from == 0 && token.to == text.len() => {
            format!(in alloc; "{:?}", token.kind)?
        }
        _ => String::new(alloc),
    };
    format!(in alloc; "{}", name.as_str() == kind)
}

/// The tokens of the text, or its fault.
fn list(alloc: Global, field: &str) -> Result<String, AllocError> {
    let text = bytes(alloc, field)?;
    let list = match tokens(alloc, text.as_slice()) {
        Ok(list) => list,
        Err(fault) => return show_fault(alloc, fault),
    };
    if list.len() == 0 {
        return String::from_str(alloc, "no tokens");
    }
    let mut shown = String::new(alloc);
    for token in list.as_slice() {
        push_token(&mut shown, *token)?;
    }
    Ok(shown)
}

/// How many tokens the text has, or its fault.
fn count(alloc: Global, field: &str) -> Result<String, AllocError> {
    let text = bytes(alloc, field)?;
    match tokens(alloc, text.as_slice()) {
        Ok(list) => format!(in alloc; "{} tokens", list.len()),
        Err(fault) => show_fault(alloc, fault),
    }
}

/// The tokens that a lexer returns, or its fault.
fn lexed(alloc: Global, field: &str) -> Result<String, AllocError> {
    let text = bytes(alloc, field)?;
    let mut lexer = Lexer::new(text.as_slice());
    let mut shown = String::new(alloc);
    for _ in 0..=text.len() {
        match lexer.next_token() {
            Ok(Some(token)) => push_token(&mut shown, token)?,
            Ok(None) => return Ok(shown),
            Err(fault) => return show_fault(alloc, fault),
        }
    }
    Ok(shown)
}

/// What `turtle_lex` returns for a call and its arguments.
pub(crate) fn answer(alloc: Global, case: &[&str]) -> Result<String, AllocError> {
    match case {
        ["is", kind, text] => is_token(alloc, kind, text),
        ["list", text] => list(alloc, text),
        ["count", text] => count(alloc, text),
        ["lexer", text] => lexed(alloc, text),
        _ => String::from_str(alloc, "no case"),
    }
}
