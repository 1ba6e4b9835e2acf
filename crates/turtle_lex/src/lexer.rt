//! A lexer that returns one token after another.

ghost use Rattle.turtle_lex.specs.Names.{HasNoPrefixBefore};

use crate::names::no_prefix_up_to;
use crate::token::{LexFault, Token, TokenKind};
use crate::token_search::first_token;
use std::marker::Model;

/// A suffix of the lexer's text before which no prefix begins, where the text begins with a token
/// of this kind and `no_prefix_before` is such a suffix.
fn no_prefix_after_token<'a>(
    text: &'a [u8],
    kind: TokenKind,
    no_prefix_before: &'a [u8],
) -> &'a [u8]
    requires { HasNoPrefixBefore text.now no_prefix_before.now }
    ensures { HasNoPrefixBefore text.now result.now }
{
    match kind {
        TokenKind::A | TokenKind::True | TokenKind::False | TokenKind::Prefix | TokenKind::Base
            if text.len() <= no_prefix_before.len() => no_prefix_up_to(text),
        _ => no_prefix_before,
    }
}

/// Returns the tokens of some bytes one after another.
///
/// It returns what [`next_token`](crate::next_token) returns at its position. It also keeps where
/// the next prefix may begin, so that all its calls together look at each byte a bounded number of
/// times: in `aaaa` each `a` is a token only because no colon follows.
#[derive(Drop)]
pub struct Lexer<'a> {
    bytes: &'a [u8],
    text: &'a [u8],
    no_prefix_before: &'a [u8],
}

impl<'a> Model for Lexer<'a> {
    ghost use Rattle.turtle_lex.specs.LexerState.{LexerState, lexer_code};
    ghost use Rattle.turtle_lex.specs.LexerInvariant.{lexer_view, IsLexer};

    ghost Value = { LexerState };

    ghost coded = { lexer_code };

    ghost view = { lexer_view };

    ghost invariant = { IsLexer };
}

impl<'a> Lexer<'a> {
    ghost use Rattle.std.specs.Prelude.{◌≡◌, ◌≤◌, length, Result, Option, IfOk, IfSome};
    ghost use Rattle.turtle_lex.specs.Tokens.{IsTokenOf, IsAnswer};
    ghost use Rattle.turtle_lex.specs.LexerState.{position_after};
    ghost use Rattle.turtle_lex.specs.declared.token.Token.{Token};
    ghost use Rattle.turtle_lex.specs.declared.token.LexFault.{LexFault};

    /// A lexer of the bytes from `from` on.
    pub fn at(bytes: &'a [u8], from: usize) -> Lexer<'a>
        requires { from ≤ length bytes.now }
        ensures bytes { result.bytes ≡ bytes.now }
        ensures from { result.from ≡ from }
    {
        let text = bytes.split_at(from).1;
        Lexer {
            bytes,
            text,
            no_prefix_before: text,
        }
    }

    /// A lexer of the bytes.
    pub fn new(bytes: &'a [u8]) -> Lexer<'a>
        ensures bytes { result.bytes ≡ bytes.now }
        ensures from { result.from ≡ 0 }
    {
        Lexer::at(bytes, 0)
    }

    /// The next token. `None` and each fault leave the position, so they come again. `@prefix` and
    /// `@base` are the fixed words, also after a String: see [`listed_token`](crate::listed_token).
    pub fn next_token(&mut self) -> Result<Option<Token>, LexFault>
        ensures answer { IsAnswer self.old.bytes self.old.from result }
        ensures of_bytes { IfOk result (λ o. IfSome o (IsTokenOf self.old.bytes)) }
        ensures only { (other : Result (Option Token) LexFault)
            → IsAnswer self.old.bytes self.old.from other → other ≡ result }
        ensures bytes { self.new.bytes ≡ self.old.bytes }
        ensures from { self.new.from ≡ position_after result self.old.from }
    {
        let answer = first_token(self.bytes, self.text, self.no_prefix_before)?;
        if let Some(token) = answer {
            self.no_prefix_before = no_prefix_after_token(
                self.bytes.split_at(token.from).1,
                token.kind,
                self.no_prefix_before,
            );
            self.text = self.bytes.split_at(token.to).1;
        }
        Ok(answer)
    }
}
