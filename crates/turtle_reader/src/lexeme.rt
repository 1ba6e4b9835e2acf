//! Symbols of the grammar with their places in a text.

ghost use Rattle.std.specs.Prelude.{◌≡◌};
ghost use Rattle.turtle_reader.specs.Lexemes.{lexeme_of};

use turtle_grammar::Symbol;
use turtle_lex::Token;

/// A token or a word of an update: its symbol, and its bytes in the text, from `from` up to and
/// without `to`.
#[derive(Clone, Copy, Debug, PartialEq, Eq)]
pub struct Lexeme {
    pub symbol: Symbol,
    pub from: usize,
    pub to: usize,
}

impl Lexeme {
    /// The lexeme of a token.
    pub fn of(token: Token) -> Lexeme
        ensures { result ≡ lexeme_of token }
    {
        Lexeme {
            symbol: Symbol::Token(token.kind),
            from: token.from,
            to: token.to,
        }
    }
}
