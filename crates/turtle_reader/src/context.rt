//! The base and the prefixes in force, and the directive that is about to change them.

ghost use Rattle.std.specs.Prelude.{◌≡◌, ◌≢◌, Ok, Err, IfOk, IfErr, OnOk};
ghost use Rattle.std.specs.Option.{option_copied};
ghost use Rattle.turtle_lex.specs.Tokens.{IsTokenOf};
ghost use Rattle.turtle_terms.specs.declared.fault.TurtleFault.TheVariants.{NoMemory as NoMemoryFault};
ghost use Rattle.turtle_reader.specs.Lexemes.{IsLexemeOf};
ghost use Rattle.turtle_reader.specs.Meanings.{IsMeaning, IsTokenMeaning};
ghost use Rattle.turtle_reader.specs.Contexts.{at_start, opened, named, meant_iri, advanced};

use crate::budget::{meaning_bytes, spend};
use crate::lexeme::Lexeme;
use crate::meaning::{Meaning, plain_meaning};
use iri_ref::Iri;
use pod_base::{Mem, NoMemory, Text};
use rdf_graph::{Term, copy_iri};
use std::alloc::Global;
use turtle_grammar::Symbol;
use turtle_lex::{Token, TokenKind};
use turtle_terms::{RecentIris, Scope, TurtleFault, Vocabulary, prefix};

/// How far a directive has come.
#[derive(Debug, Drop)]
pub enum Directive {
    /// None has begun.
    Nothing,
    /// The name of a prefix comes next.
    Name,
    /// The IRI of this prefix comes next.
    Prefix(Text),
    /// The IRI of the base comes next.
    Base,
}

/// What the tokens from here on are read under.
#[derive(Drop)]
pub struct Context {
    base: Iri,
    scope: Scope,
    directive: Directive,
}

/// The context's directive that a symbol begins.
fn opened(symbol: Symbol) -> Directive
    ensures { result ≡ opened symbol }
{
    match symbol {
        Symbol::Token(TokenKind::AtPrefix | TokenKind::Prefix) => Directive::Name,
        Symbol::Token(TokenKind::AtBase | TokenKind::Base) => Directive::Base,
        _ => Directive::Nothing,
    }
}

/// The context's directive after the name of its prefix.
fn named(alloc: Global, meaning: &Meaning) -> Mem<Directive>
    ensures { IfOk result (λ directive. directive ≡ named meaning.now) }
{
    match meaning {
        Meaning::Name(name) => Ok(Directive::Prefix(name.copy(alloc)?)),
        _ => Ok(Directive::Nothing),
    }
}

/// The IRI that a directive's lexeme means.
fn meant_iri(meaning: &Meaning) -> Option<&Iri>
    ensures { option_copied result ≡ meant_iri meaning.now }
{
    match meaning {
        Meaning::Term(Term::Iri(iri)) => Some(iri),
        _ => None,
    }
}

impl Context {
    /// The context before the first lexeme.
    pub fn new(alloc: Global, base: &Iri) -> Mem<Context>
        ensures { IfOk result (λ context. context ≡ at_start base.now) }
    {
        let base = copy_iri(alloc, base)?;
        Ok(Context {
            base,
            scope: Scope::new(alloc),
            directive: Directive::Nothing,
        })
    }

    /// What a token means here.
    fn token_meaning(
        &self,
        alloc: Global,
        vocabulary: &Vocabulary,
        recent: &mut RecentIris,
        bytes: &[u8],
        token: &Token,
    ) -> Result<Meaning, TurtleFault>
        requires { IsTokenOf bytes.now token.now }
        ensures meaning { IfOk result (λ m. IsTokenMeaning self.now.directive self.now.base
            self.now.scope bytes.now token.now (Ok m)) }
        ensures fault { IfErr result (λ f. f ≢ NoMemoryFault → IsTokenMeaning self.now.directive
            self.now.base self.now.scope bytes.now token.now (Err f)) }
    {
        match &self.directive {
            Directive::Name => {
                let name = Text::of(alloc, prefix(bytes, token))?;
                Ok(Meaning::Name(name))
            }
            _ => plain_meaning(
                alloc,
                vocabulary,
                recent,
                &self.base,
                &self.scope,
                bytes,
                token,
            ),
        }
    }

    /// What a lexeme means in the context. The bytes that it counts are taken off those that are
    /// left.
    ///
    /// # Errors
    ///
    /// `Prefix` and `BadIri` exactly where its IRI is none. `NoMemory` too where fewer are left.
    pub fn meaning(
        &self,
        alloc: Global,
        vocabulary: &Vocabulary,
        recent: &mut RecentIris,
        left: &mut usize,
        bytes: &[u8],
        lexeme: Lexeme,
    ) -> Result<Meaning, TurtleFault>
        requires { IsLexemeOf bytes.now lexeme }
        ensures meaning { IfOk result (λ m. IsMeaning bytes.now self.now lexeme (Ok m)) }
        ensures fault { IfErr result (λ f. f ≢ NoMemoryFault
            → IsMeaning bytes.now self.now lexeme (Err f)) }
    {
        match lexeme.symbol {
            Symbol::Token(kind) => {
                let token = Token {
                    kind,
                    from: lexeme.from,
                    to: lexeme.to,
                };
                match self.token_meaning(alloc, vocabulary, recent, bytes, &token) {
                    Ok(meaning) => {
                        spend(left, meaning_bytes(&token, &meaning))?;
                        Ok(meaning)
                    }
                    Err(fault) => Err(fault),
                }
            }
            _ => Ok(Meaning::Nothing),
        }
    }

    /// Declares a prefix, or nothing where the lexeme after its name means no IRI.
    fn declare(&mut self, alloc: Global, prefix: &str, meaning: &Meaning) -> Mem<()>
        ensures { OnOk result (self.new
            ≡ advanced (Directive.Prefix prefix.now) self.old Symbol.Insert meaning.now) }
    {
        self.directive = Directive::Nothing;
        match meant_iri(meaning) {
            Some(iri) => {
                let iri = copy_iri(alloc, iri)?;
                self.scope.declare(alloc, prefix, iri)
            }
            None => Ok(()),
        }
    }

    /// Replaces the base, or does nothing where the lexeme means no IRI.
    fn rebase(&mut self, alloc: Global, meaning: &Meaning) -> Mem<()>
        ensures { OnOk result (self.new
            ≡ advanced Directive.Base self.old Symbol.Insert meaning.now) }
    {
        self.directive = Directive::Nothing;
        match meant_iri(meaning) {
            Some(iri) => {
                self.base = copy_iri(alloc, iri)?;
                Ok(())
            }
            None => Ok(()),
        }
    }

    /// The context passes a lexeme of this symbol and meaning.
    pub fn advance(&mut self, alloc: Global, symbol: Symbol, meaning: &Meaning) -> Mem<()>
        ensures { OnOk result (self.new
            ≡ advanced self.old.directive self.old symbol meaning.now) }
    {
        match &self.directive {
            Directive::Nothing => {
                self.directive = opened(symbol);
                Ok(())
            }
            Directive::Name => {
                self.directive = named(alloc, meaning)?;
                Ok(())
            }
            Directive::Prefix(prefix) => {
                let prefix = prefix.copy(alloc)?;
                self.declare(alloc, prefix.as_str(), meaning)
            }
            Directive::Base => self.rebase(alloc, meaning),
        }
    }
}
