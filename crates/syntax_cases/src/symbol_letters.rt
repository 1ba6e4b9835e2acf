//! Start symbols, and symbols by their letters; blanks are skipped.
//!
//! ```text
//! i IRIREF   n PNAME_LN   p PNAME_NS   l BLANK_NODE_LABEL   e ANON   ? variable   a a
//! s String   @ LANGTAG   ^ ^^   1 INTEGER   2 DECIMAL   3 DOUBLE   t true   f false
//! P @prefix   B @base   Q PREFIX   C BASE   I INSERT   D DELETE   A DATA
//! . ; , [ ] ( ) { } themselves
//! ```

use std::alloc::{AllocError, Global};
use turtle_grammar::{Start, Symbol};
use turtle_lex::TokenKind;

/// The start symbol of a name; any other name is a document's.
pub(crate) fn start(name: &str) -> Start {
    match name {
        "patch" => Start::Patch,
        "update" => Start::Update,
        _ => Start::Document,
    }
}

fn token(letter: u8) -> Option<TokenKind> {
    let kind = match letter {
        b'i' => TokenKind::IriRef,
        b'n' => TokenKind::PnameLn,
        b'p' => TokenKind::PnameNs,
        b'l' => TokenKind::BlankLabel,
        b'e' => TokenKind::Anon,
        b'?' => TokenKind::Variable,
        b'a' => TokenKind::A,
        b's' => TokenKind::Quoted,
        b'@' => TokenKind::LangTag,
        b'^' => TokenKind::Carets,
        b'1' => TokenKind::Integer,
        b'2' => TokenKind::Decimal,
        b'3' => TokenKind::Double,
        b't' => TokenKind::True,
        b'f' => TokenKind::False,
        b'P' => TokenKind::AtPrefix,
        b'B' => TokenKind::AtBase,
        b'Q' => TokenKind::Prefix,
        b'C' => TokenKind::Base,
        _ => return sign(letter),
    };
    Some(kind)
}

fn sign(letter: u8) -> Option<TokenKind> {
    let kind = match letter {
        b'.' => TokenKind::Dot,
        b';' => TokenKind::Semicolon,
        b',' => TokenKind::Comma,
        b'[' => TokenKind::OpenSquare,
        b']' => TokenKind::CloseSquare,
        b'(' => TokenKind::OpenRound,
        b')' => TokenKind::CloseRound,
        b'{' => TokenKind::OpenBrace,
        b'}' => TokenKind::CloseBrace,
        _ => return None,
    };
    Some(kind)
}

fn symbol(letter: u8) -> Option<Symbol> {
    match letter {
        b'I' => Some(Symbol::Insert),
        b'D' => Some(Symbol::Delete),
        b'A' => Some(Symbol::Data),
        _ => token(letter).map(Symbol::Token),
    }
}

/// The symbols of the letters; what is no letter of a symbol is skipped.
pub(crate) fn symbols(alloc: Global, letters: &[u8]) -> Result<Vec<Symbol>, AllocError> {
    let mut symbols = Vec::new(alloc);
    for letter in letters {
        if let Some(symbol) = symbol(*letter) {
            symbols.push(symbol)?;
        }
    }
    Ok(symbols)
}
