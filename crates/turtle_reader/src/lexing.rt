//! The next lexeme of a text: a token of Turtle, or in an update a word INSERT, DELETE or DATA in
//! any case.

ghost use Rattle.std.specs.Prelude.{◌≡◌, ◌<◌, length, drop, IfOk, IfSome, IfNone};
ghost use Rattle.turtle_reader.specs.Lexemes.{IsLexemeOf};
ghost use Rattle.turtle_reader.specs.Texts.{MatchesWord, HasNoWord, IsWordOf, IsWordAnswer};
ghost use Rattle.turtle_reader.specs.Texts.{IsTokenlessAnswer, IsLexed, is_string_symbol};
ghost use Rattle.turtle_reader.specs.Texts.{adds, adds_to_string};

use crate::lexeme::Lexeme;
use turtle_grammar::{Start, Symbol};
use turtle_lex::{LexFault, Lexer, TokenKind, listed_token, strip_any_case};

/// Whether the lexeme of this symbol is a String.
pub(crate) fn is_string(symbol: Symbol) -> bool
    ensures { result ≡ is_string_symbol symbol }
{
    match symbol {
        Symbol::Token(kind) => kind.is_string(),
        _ => false,
    }
}

/// Whether the lexeme of this symbol is a tag, or begins a datatype.
fn adds(symbol: Symbol) -> bool
    ensures { result ≡ adds symbol }
{
    matches!(
        symbol,
        Symbol::Token(TokenKind::LangTag | TokenKind::Carets)
    )
}

/// Whether the next lexeme adds a tag or a datatype to a String.
pub(crate) fn adds_to_string(next: &Result<Option<Lexeme>, LexFault>) -> bool
    ensures { result ≡ adds_to_string next.now }
{
    match next {
        Ok(Some(lexeme)) => adds(lexeme.symbol),
        _ => false,
    }
}

/// The word of an update at the start of a text, and what follows it.
#[tactic(auto, using(crate::proofs::Words::no_word))]
fn first_word(text: &[u8]) -> Option<(Symbol, &[u8])>
    ensures found { IfSome result (λ word. MatchesWord word.0 text.now word.1.now) }
    ensures none { IfNone result (HasNoWord text.now) }
{
    match strip_any_case(text, b"INSERT") {
        Some(rest) => Some((Symbol::Insert, rest)),
        None => match strip_any_case(text, b"DELETE") {
            Some(rest) => Some((Symbol::Delete, rest)),
            None => match strip_any_case(text, b"DATA") {
                Some(rest) => Some((Symbol::Data, rest)),
                None => None,
            },
        },
    }
}

/// The lexeme of an update's word at a position.
fn word_at(bytes: &[u8], at: usize) -> Option<Lexeme>
    requires { at < length bytes.now }
    ensures from { IfSome result (λ word. word.from ≡ at) }
    ensures found { IfSome result (IsWordOf bytes.now) }
    ensures none { IfNone result (HasNoWord (drop at bytes.now)) }
{
    let text = bytes.split_at(at).1;
    match first_word(text) {
        Some((symbol, rest)) => Some(Lexeme {
            symbol,
            from: at,
            to: bytes.len() - rest.len(),
        }),
        None => None,
    }
}

/// The next lexeme at a position where no token begins, an update's word. The lexer goes on after
/// it.
fn next_word<'a>(
    lexer: &mut Lexer<'a>,
    bytes: &'a [u8],
    at: usize,
) -> Result<Option<Lexeme>, LexFault>
    requires within { at < length bytes.now }
    requires bytes { lexer.old.bytes ≡ bytes.now }
    ensures answer { IsWordAnswer bytes.now at result }
    ensures from { IfOk result (λ o. IfSome o (λ word. lexer.new.from ≡ word.to)) }
    ensures bytes { lexer.new.bytes ≡ bytes.now }
{
    match word_at(bytes, at) {
        Some(word) => {
            *lexer = Lexer::at(bytes, word.to);
            Ok(Some(word))
        }
        None => Err(LexFault::BadToken { at }),
    }
}

/// The next lexeme, or its fault, at a position where no token begins. The lexer goes on after a
/// word.
fn next_tokenless<'a>(
    lexer: &mut Lexer<'a>,
    bytes: &'a [u8],
    start: Start,
    at: usize,
) -> Result<Option<Lexeme>, LexFault>
    requires within { at < length bytes.now }
    requires bytes { lexer.old.bytes ≡ bytes.now }
    ensures answer { IsTokenlessAnswer start bytes.now at result }
    ensures from { IfOk result (λ o. IfSome o (λ word. lexer.new.from ≡ word.to)) }
    ensures bytes { lexer.new.bytes ≡ bytes.now }
{
    match start {
        Start::Update => next_word(lexer, bytes, at),
        _ => Err(LexFault::BadToken { at }),
    }
}

/// The next lexeme, after a String or after another lexeme. A word is one where no token begins.
pub(crate) fn next_lexeme<'a>(
    lexer: &mut Lexer<'a>,
    bytes: &'a [u8],
    start: Start,
    after_string: bool,
) -> Result<Option<Lexeme>, LexFault>
    requires { lexer.old.bytes ≡ bytes.now }
    ensures answer { IsLexed start bytes.now lexer.old.from after_string result }
    ensures of_bytes { IfOk result (λ o. IfSome o (IsLexemeOf bytes.now)) }
    ensures from { IfOk result (λ o. IfSome o (λ lexeme. lexer.new.from ≡ lexeme.to)) }
    ensures bytes { lexer.new.bytes ≡ bytes.now }
{
    match lexer.next_token() {
        Ok(Some(token)) => Ok(Some(Lexeme::of(listed_token(after_string, token)))),
        Ok(None) => Ok(None),
        Err(LexFault::BadToken { at }) => next_tokenless(lexer, bytes, start, at),
        Err(LexFault::NotText { at }) => Err(LexFault::NotText { at }),
        Err(LexFault::NoMemory) => Err(LexFault::NoMemory),
    }
}
