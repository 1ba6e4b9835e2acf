//! The term that a token means.

ghost use Rattle.std.specs.Prelude.{◌≡◌, ◌≢◌, Option, Result, Ok, Err, IfOk, IfErr, IsTrue};
ghost use Rattle.std.specs.Option.{option_map};
ghost use Rattle.rdf_graph.specs.declared.term.Term.{Term};
ghost use Rattle.rdf_graph.specs.declared.term.Term.TheVariants.{Literal as LiteralTerm};
ghost use Rattle.turtle_lex.specs.declared.token.TokenKind.TheVariants as Kind;
ghost use Rattle.turtle_lex.specs.Tokens.{IsTokenOf};
ghost use Rattle.turtle_lex.specs.Laws.{text_of};
ghost use Rattle.turtle_terms.specs.Meaning.{IsTermOf, IsIriOf, is_iri_kind, plain_term};
ghost use Rattle.turtle_terms.specs.Meaning.{datatype_of};
ghost use Rattle.turtle_terms.specs.Values.{string_value};
ghost use Rattle.turtle_terms.specs.declared.vocabulary.Word.TheVariants.{XsdString};
ghost use Rattle.turtle_terms.specs.Vocabulary.{word_text};
ghost use Rattle.turtle_terms.specs.declared.fault.TurtleFault.TheVariants.{NoMemory};

use crate::fault::TurtleFault;
use crate::iris::{iri_of, is_iri_kind};
use crate::recent_iris::RecentIris;
use crate::scope::Scope;
use crate::token_text::{label, lexical_form, text_of};
use crate::vocabulary::{Vocabulary, Word, word_iri};
use iri_ref::Iri;
use pod_base::{Mem, Text};
use rdf_graph::Term;
use std::alloc::Global;
use turtle_lex::{Token, TokenKind};

/// The term that is the literal with the text of a token and a datatype of XML Schema.
fn literal(
    alloc: Global,
    shared: Option<&Vocabulary>,
    bytes: &[u8],
    token: &Token,
    datatype: Word,
) -> Mem<Term>
    requires { IsTokenOf bytes.now token.now }
    ensures { IfOk result (λ term. term
        ≡ LiteralTerm (text_of bytes.now token.now) (word_text datatype)) }
{
    let lexical = Text::of(alloc, text_of(bytes, token))?;
    let datatype = word_iri(alloc, shared, datatype)?;
    Ok(Term::Literal { lexical, datatype })
}

/// The term that a String means, which is a plain string.
fn plain_string(
    alloc: Global,
    shared: Option<&Vocabulary>,
    bytes: &[u8],
    token: &Token,
) -> Mem<Term>
    requires of_bytes { IsTokenOf bytes.now token.now }
    requires kind { token.now.kind ≡ Kind.Quoted }
    ensures { IfOk result (λ term. term ≡ LiteralTerm
        (string_value (text_of bytes.now token.now)) (word_text XsdString)) }
{
    let lexical = lexical_form(alloc, bytes, token)?;
    let datatype = word_iri(alloc, shared, Word::XsdString)?;
    Ok(Term::Literal { lexical, datatype })
}

/// The datatype of the term of a token whose kind is written without one.
fn datatype_of(kind: TokenKind) -> Option<Word>
    ensures { option_map word_text result ≡ datatype_of kind }
{
    match kind {
        TokenKind::Integer => Some(Word::XsdInteger),
        TokenKind::Decimal => Some(Word::XsdDecimal),
        TokenKind::Double => Some(Word::XsdDouble),
        TokenKind::True | TokenKind::False => Some(Word::XsdBoolean),
        _ => None,
    }
}

/// The term of a token that means no IRI, if it means one.
fn plain_term(
    alloc: Global,
    shared: Option<&Vocabulary>,
    bytes: &[u8],
    token: &Token,
) -> Mem<Option<Term>>
    requires { IsTokenOf bytes.now token.now }
    ensures { IfOk result (λ term. term ≡ plain_term token.now.kind (text_of bytes.now token.now)) }
{
    match token.kind {
        TokenKind::BlankLabel => Ok(Some(Term::Blank(label(alloc, bytes, token)?))),
        TokenKind::Quoted => Ok(Some(plain_string(alloc, shared, bytes, token)?)),
        kind => match datatype_of(kind) {
            Some(datatype) => Ok(Some(literal(alloc, shared, bytes, token, datatype)?)),
            None => Ok(None),
        },
    }
}

/// The term that a token means. The IRIs of words are those of a vocabulary, where one is given.
fn meaning(
    alloc: Global,
    shared: Option<&Vocabulary>,
    recent: &mut RecentIris,
    base: &Iri,
    scope: &Scope,
    bytes: &[u8],
    token: &Token,
) -> Result<Option<Term>, TurtleFault>
    requires { IsTokenOf bytes.now token.now }
    ensures term { IfOk result (λ term. IsTermOf base.now scope.now bytes.now token.now (Ok term)) }
    ensures fault { IfErr result (λ fault. fault ≢ NoMemory
        → IsTermOf base.now scope.now bytes.now token.now (Err fault)) }
{
    if !is_iri_kind(token.kind) {
        return Ok(plain_term(alloc, shared, bytes, token)?);
    }
    let iri = iri_of(alloc, shared, recent, base, scope, bytes, token)?;
    Ok(Some(Term::Iri(iri)))
}

/// The term that a token means by itself, under a base and the declared prefixes: that of an
/// IRIREF, a name, a label, `a`, a number, a truth value, and of a String the plain string,
/// whatever follows it. None is the answer exactly for tokens of other kinds.
///
/// # Errors
///
/// `Prefix` or `BadIri` at the start of the token, exactly where its name or its IRIREF has no IRI.
pub fn term(
    alloc: Global,
    base: &Iri,
    scope: &Scope,
    bytes: &[u8],
    token: &Token,
) -> Result<Option<Term>, TurtleFault>
    requires { IsTokenOf bytes.now token.now }
    ensures term { IfOk result (λ term. IsTermOf base.now scope.now bytes.now token.now (Ok term)) }
    ensures fault { IfErr result (λ fault. fault ≢ NoMemory
        → IsTermOf base.now scope.now bytes.now token.now (Err fault)) }
    ensures only { IfOk result (λ term. (other : Result (Option Term) TurtleFault)
        → IsTermOf base.now scope.now bytes.now token.now other → other ≡ Ok term) }
    ensures only_fault { IfErr result (λ fault. fault ≢ NoMemory
        → (other : Result (Option Term) TurtleFault)
        → IsTermOf base.now scope.now bytes.now token.now other → other ≡ Err fault) }
{
    let mut recent = RecentIris::none(alloc);
    meaning(alloc, None, &mut recent, base, scope, bytes, token)
}

impl Vocabulary {
    /// [`term`], where the IRIs of words share the memory of the vocabulary, and names and
    /// references that of those that were read last.
    ///
    /// # Errors
    ///
    /// Those of [`term`].
    pub fn term(
        &self,
        alloc: Global,
        recent: &mut RecentIris,
        base: &Iri,
        scope: &Scope,
        bytes: &[u8],
        token: &Token,
    ) -> Result<Option<Term>, TurtleFault>
        requires { IsTokenOf bytes.now token.now }
        ensures term { IfOk result (λ term. IsTermOf base.now scope.now bytes.now token.now (Ok term)) }
        ensures fault { IfErr result (λ fault. fault ≢ NoMemory
            → IsTermOf base.now scope.now bytes.now token.now (Err fault)) }
    {
        meaning(alloc, Some(self), recent, base, scope, bytes, token)
    }
}
