//! The first token of a text from a position on.

ghost use mathlib.Core.List.{IsSuffix};
ghost use Rattle.std.specs.Prelude.{◌≡◌, ◌-◌, ◌≤◌, length, Result, Option, IfOk, IfSome};
ghost use Rattle.turtle_lex.specs.Names.{HasNoPrefixBefore};
ghost use Rattle.turtle_lex.specs.Tokens.{IsTokenOf, IsAnswer};
ghost use Rattle.turtle_lex.specs.declared.token.Token.{Token};
ghost use Rattle.turtle_lex.specs.declared.token.LexFault.{LexFault};
ghost use Rattle.turtle_lex.specs.WithoutToken.{IsAnswerWithoutToken};

use crate::blanks_and_comments::strip_gap;
use crate::chars::first_char;
use crate::lexer::Lexer;
use crate::scan::token_at;
use crate::token::{LexFault, Token};

/// The answer of a search for the first token where the rest begins with none.
fn without_token(bytes: &[u8], rest: &[u8]) -> Result<Option<Token>, LexFault>
    requires { IsSuffix rest.now bytes.now }
    ensures { IsAnswerWithoutToken bytes.now rest.now result }
{
    if rest.is_empty() {
        return Ok(None);
    }
    let at = bytes.len() - rest.len();
    match first_char(rest) {
        Some(_) => Err(LexFault::BadToken { at }),
        None => Err(LexFault::NotText { at }),
    }
}

/// Finds the first token of the text, a suffix of the bytes, in which no prefix begins before
/// `no_prefix_before`.
pub(crate) fn first_token(
    bytes: &[u8],
    text: &[u8],
    no_prefix_before: &[u8],
) -> Result<Option<Token>, LexFault>
    requires suffix { IsSuffix text.now bytes.now }
    requires known { HasNoPrefixBefore text.now no_prefix_before.now }
    ensures { IsAnswer bytes.now (length bytes.now - length text.now) result }
{
    match strip_gap(text) {
        Ok(rest) => match token_at(rest, no_prefix_before) {
            Some((kind, after)) => Ok(Some(Token {
                kind,
                from: bytes.len() - rest.len(),
                to: bytes.len() - after.len(),
            })),
            None => without_token(bytes, rest),
        },
        Err(rest) => without_token(bytes, rest),
    }
}

/// Finds the first token of the text from `from` on. Returns `None` exactly where only blanks and
/// comments are left, and a fault exactly where the text from there has no first token. `@prefix`
/// and `@base` are the fixed words here, also after a String: see
/// [`listed_token`](crate::listed_token).
pub fn next_token(bytes: &[u8], from: usize) -> Result<Option<Token>, LexFault>
    requires { from ≤ length bytes.now }
    ensures answer { IsAnswer bytes.now from result }
    ensures of_bytes { IfOk result (λ o. IfSome o (IsTokenOf bytes.now)) }
    ensures only { (other : Result (Option Token) LexFault) → IsAnswer bytes.now from other
        → other ≡ result }
{
    let mut lexer = Lexer::at(bytes, from);
    lexer.next_token()
}
