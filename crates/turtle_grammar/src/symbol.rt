//! The symbols of the grammar, and its start symbols.

use turtle_lex::TokenKind;

/// A start symbol.
#[derive(Clone, Copy, Debug, PartialEq, Eq)]
pub enum Start {
    /// `turtleDoc` of RDF 1.1 Turtle.
    Document,
    /// A document of N3 Patch: an object may be a formula, and in a formula a variable may be
    /// subject, verb or object.
    Patch,
    /// A SPARQL update of `INSERT DATA` and `DELETE DATA`.
    Update,
}

/// A terminal: a token, or a word that SPARQL updates have beside Turtle's tokens.
#[derive(Clone, Copy, Debug, PartialEq, Eq)]
pub enum Symbol {
    Token(TokenKind),
    Insert,
    Delete,
    Data,
}
