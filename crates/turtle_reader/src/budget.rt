//! How many bytes of terms a reader may still make.

use crate::meaning::Meaning;
use pod_base::{Mem, NoMemory};
use rdf_graph::Term;
use turtle_lex::{Token, TokenKind};

/// The most bytes of terms that reading one text makes, those of directives included. Past it the
/// reader is out of memory. An IRI counts as written in full, between brackets, and any other term,
/// a language tag and a name as the bytes of their token.
pub const TERM_BYTES_LIMIT: usize = 33_554_432;

/// The most lexemes of one statement. Past it the reader is out of memory. A block of an update and
/// a statement with formulas are one statement each.
pub const STATEMENT_LIMIT: usize = 2_097_152;

/// Takes the bytes of a term off those that a reader may still make.
///
/// # Errors
///
/// [`NoMemory`], where fewer are left.
pub(crate) fn spend(left: &mut usize, bytes: usize) -> Mem<()> {
    match left.checked_sub(bytes) {
        Some(rest) => {
            *left = rest;
            Ok(())
        }
        None => Err(NoMemory),
    }
}

/// Whether tokens of the kind mean something that takes memory as they are written.
fn takes_memory(kind: TokenKind) -> bool {
    match kind {
        TokenKind::PnameNs | TokenKind::BlankLabel | TokenKind::Variable => true,
        TokenKind::LangTag | TokenKind::Quoted | TokenKind::Integer => true,
        TokenKind::Decimal | TokenKind::Double | TokenKind::True | TokenKind::False => true,
        _ => false,
    }
}

/// The bytes that a token of this meaning counts.
pub(crate) fn meaning_bytes(token: &Token, meaning: &Meaning) -> usize {
    match meaning {
        Meaning::Term(Term::Iri(iri)) if token.kind != TokenKind::A => {
            iri.as_str().len().saturating_add(2)
        }
        _ if takes_memory(token.kind) => token.to.saturating_sub(token.from),
        _ => 0,
    }
}
