//! Tokens, and why a text has none.

ghost use Rattle.std.specs.Prelude.{◌≡◌};
ghost use Rattle.turtle_lex.specs.Tokens.{is_string};

use thiserror::Error;

/// A terminal or a fixed word of Turtle, with the braces and variables of patches.
#[derive(Clone, Copy, Debug, PartialEq, Eq)]
pub enum TokenKind {
    IriRef,
    PnameNs,
    PnameLn,
    BlankLabel,
    LangTag,
    Integer,
    Decimal,
    Double,
    /// String.
    Quoted,
    Anon,
    /// `@prefix`.
    AtPrefix,
    /// `@base`.
    AtBase,
    /// `PREFIX` in any case.
    Prefix,
    /// `BASE` in any case.
    Base,
    /// `a`.
    A,
    True,
    False,
    Dot,
    Semicolon,
    Comma,
    /// `^^`.
    Carets,
    OpenSquare,
    CloseSquare,
    OpenRound,
    CloseRound,
    OpenBrace,
    CloseBrace,
    /// `?` and a label.
    Variable,
}

impl TokenKind {
    /// Whether tokens of this kind are Strings: after one `@prefix` and `@base` are language tags.
    pub fn is_string(self) -> bool
        ensures { result ≡ is_string self }
    {
        matches!(self, TokenKind::Quoted)
    }
}

/// A token: its kind, and its bytes in the text, from `from` up to and without `to`.
#[derive(Clone, Copy, Debug, PartialEq, Eq)]
pub struct Token {
    pub kind: TokenKind,
    pub from: usize,
    pub to: usize,
}

/// Why a text has no tokens, with the byte position of the fault. A text may have bytes that are no
/// UTF-8 and bytes that begin no token: the lesser position is that of the fault.
#[derive(Clone, Copy, Debug, PartialEq, Eq, Error)]
pub enum LexFault {
    /// The bytes from `at` on are not UTF-8.
    #[error("no UTF-8 at byte {at}")]
    NotText { at: usize },
    /// No token begins at `at`.
    #[error("no token at byte {at}")]
    BadToken { at: usize },
    #[error("out of memory")]
    NoMemory,
}
