//! What a lexeme means by itself, under the base and the prefixes in force.

ghost use Rattle.std.specs.Prelude.{◌≡◌, ◌≢◌, Ok, Err, IfOk, IfErr};
ghost use Rattle.turtle_lex.specs.Laws.{text_of};
ghost use Rattle.turtle_lex.specs.Tokens.{IsTokenOf};
ghost use Rattle.turtle_terms.specs.declared.fault.TurtleFault.TheVariants.{NoMemory as NoMemoryFault};
ghost use Rattle.turtle_reader.specs.Meanings.{special_meaning, IsTermMeaning, IsPlainMeaning};

use iri_ref::Iri;
use pod_base::{Mem, NoMemory, Text};
use rdf_graph::Term;
use std::alloc::Global;
use turtle_lex::{Token, TokenKind};
use turtle_terms::{RecentIris, Scope, TurtleFault, Vocabulary, language, variable};

/// What a lexeme means by itself.
#[derive(Debug, Drop)]
pub enum Meaning {
    /// The term of an IRIREF, a name, a label, `a`, a number or a truth value, and the plain string
    /// of a String, whatever follows it.
    Term(Term),
    /// The tag of a LANGTAG, in lower case.
    Language(Text),
    /// The name of a variable, without its `?`.
    Variable(Text),
    /// The prefix that a directive is about to declare, without its `:`.
    Name(Text),
    /// Any other lexeme has no meaning by itself.
    Nothing,
}

/// The meaning of a lexeme that is a language tag or a variable.
fn special(alloc: Global, bytes: &[u8], token: &Token) -> Mem<Option<Meaning>>
    requires { IsTokenOf bytes.now token.now }
    ensures { IfOk result (λ m. m ≡ special_meaning token.now.kind (text_of bytes.now token.now)) }
{
    match token.kind {
        TokenKind::LangTag => Ok(Some(Meaning::Language(language(alloc, bytes, token)?))),
        TokenKind::Variable => Ok(Some(Meaning::Variable(variable(alloc, bytes, token)?))),
        _ => Ok(None),
    }
}

/// The meaning of a lexeme that is a token, but no language tag and no variable.
fn term_meaning(
    alloc: Global,
    vocabulary: &Vocabulary,
    recent: &mut RecentIris,
    base: &Iri,
    scope: &Scope,
    bytes: &[u8],
    token: &Token,
) -> Result<Meaning, TurtleFault>
    requires { IsTokenOf bytes.now token.now }
    ensures meaning { IfOk result (λ m. IsTermMeaning base.now scope.now bytes.now token.now (Ok m)) }
    ensures fault { IfErr result (λ f. f ≢ NoMemoryFault
        → IsTermMeaning base.now scope.now bytes.now token.now (Err f)) }
{
    match vocabulary.term(alloc, recent, base, scope, bytes, token) {
        Ok(Some(term)) => Ok(Meaning::Term(term)),
        Ok(None) => Ok(Meaning::Nothing),
        Err(fault) => Err(fault),
    }
}

/// The meaning of a lexeme that is no prefix about to be declared.
pub(crate) fn plain_meaning(
    alloc: Global,
    vocabulary: &Vocabulary,
    recent: &mut RecentIris,
    base: &Iri,
    scope: &Scope,
    bytes: &[u8],
    token: &Token,
) -> Result<Meaning, TurtleFault>
    requires { IsTokenOf bytes.now token.now }
    ensures meaning { IfOk result (λ m. IsPlainMeaning
        (special_meaning token.now.kind (text_of bytes.now token.now))
        base.now scope.now bytes.now token.now (Ok m)) }
    ensures fault { IfErr result (λ f. f ≢ NoMemoryFault → IsPlainMeaning
        (special_meaning token.now.kind (text_of bytes.now token.now))
        base.now scope.now bytes.now token.now (Err f)) }
{
    match special(alloc, bytes, token) {
        Ok(Some(meaning)) => Ok(meaning),
        Ok(None) => term_meaning(alloc, vocabulary, recent, base, scope, bytes, token),
        Err(NoMemory) => Err(TurtleFault::NoMemory),
    }
}
