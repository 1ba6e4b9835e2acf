//! The kinds of tokens that a byte may begin.

ghost use Rattle.std.specs.Prelude.{◌≡◌};
ghost use Rattle.turtle_lex.specs.Pattern.{word};
ghost use Rattle.turtle_lex.specs.Tokens.{terminal};
ghost use Rattle.turtle_lex.specs.Groups.{mark_kind, ascii_group, group_of};

use crate::token::TokenKind;

/// A token of punctuation whose first byte begins no other token.
#[derive(Clone, Copy, Debug, PartialEq, Eq)]
pub(crate) enum Mark {
    Carets,
    Semicolon,
    Comma,
    CloseSquare,
    OpenRound,
    CloseRound,
    OpenBrace,
    CloseBrace,
}

impl Mark {
    /// The kind of the token that the mark is.
    pub(crate) fn kind(self) -> TokenKind
        ensures { result ≡ mark_kind self }
    {
        match self {
            Mark::Carets => TokenKind::Carets,
            Mark::Semicolon => TokenKind::Semicolon,
            Mark::Comma => TokenKind::Comma,
            Mark::CloseSquare => TokenKind::CloseSquare,
            Mark::OpenRound => TokenKind::OpenRound,
            Mark::CloseRound => TokenKind::CloseRound,
            Mark::OpenBrace => TokenKind::OpenBrace,
            Mark::CloseBrace => TokenKind::CloseBrace,
        }
    }

    /// The bytes of the mark.
    pub(crate) fn spelling(self) -> &'static [u8]
        ensures { terminal (mark_kind self) ≡ word result.now }
    {
        match self {
            Mark::Carets => b"^^",
            Mark::Semicolon => b";",
            Mark::Comma => b",",
            Mark::CloseSquare => b"]",
            Mark::OpenRound => b"(",
            Mark::CloseRound => b")",
            Mark::OpenBrace => b"{",
            Mark::CloseBrace => b"}",
        }
    }
}

/// Kinds of tokens with the same first bytes.
#[derive(Clone, Copy, Debug, PartialEq, Eq)]
pub(crate) enum Group {
    Iris,
    Strings,
    /// LANGTAG, `@prefix` and `@base`.
    Tags,
    Labels,
    Variables,
    Numbers,
    /// Numbers that begin with a point, and the dot.
    Dots,
    /// `[` and ANON.
    Squares,
    /// PNAME_NS, PNAME_LN and the fixed words of letters.
    Names,
    Marks(Mark),
    Nothing,
}

/// The group of the kinds of tokens that the byte may begin.
pub(crate) fn group_of(byte: u8) -> Group
    ensures { result ≡ group_of byte }
{
    match byte {
        b'<' => Group::Iris,
        b'"' | b'\'' => Group::Strings,
        b'@' => Group::Tags,
        b'_' => Group::Labels,
        b'?' => Group::Variables,
        b'0'..=b'9' | b'+' | b'-' => Group::Numbers,
        b'.' => Group::Dots,
        b'[' => Group::Squares,
        b'A'..=b'Z' | b'a'..=b'z' | b':' | 0x80..=0xFF => Group::Names,
        b'^' => Group::Marks(Mark::Carets),
        b';' => Group::Marks(Mark::Semicolon),
        b',' => Group::Marks(Mark::Comma),
        b']' => Group::Marks(Mark::CloseSquare),
        b'(' => Group::Marks(Mark::OpenRound),
        b')' => Group::Marks(Mark::CloseRound),
        b'{' => Group::Marks(Mark::OpenBrace),
        b'}' => Group::Marks(Mark::CloseBrace),
        _ => Group::Nothing,
    }
}
