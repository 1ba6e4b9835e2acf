//! The reader of lexemes.

ghost use Rattle.std.specs.Prelude.{◌≡◌, ◌+◌, [], List, ℕ, IfOk, IfErr, OnOk, IfSome, IsTrue};
ghost use Rattle.std.specs.Bool.{OnTrue, OnFalse};
ghost use Rattle.turtle_terms.specs.declared.fault.TurtleKind.TheVariants as Why;
ghost use Rattle.turtle_terms.specs.declared.fault.TurtleFault.TheVariants.{Bad};

use crate::budget::{STATEMENT_LIMIT, TERM_BYTES_LIMIT};
use crate::context::Context;
use crate::kept_meanings::KeptMeanings;
use crate::lexeme::Lexeme;
use crate::meaning::Meaning;
use crate::referent::{ResolvedTriple, resolved};
use iri_ref::Iri;
use pod_base::{Mem, NoMemory};
use std::alloc::Global;
use turtle_grammar::{Machine, Production, Refusal, Start, Symbol, SymbolicTriple};
use turtle_lex::TokenKind;
use turtle_terms::{RecentIris, TurtleFault, TurtleKind, Vocabulary};

/// Reads the lexemes of a text one by one, from a start symbol and a base on, at most
/// [`STATEMENT_LIMIT`] of one statement, and makes at most [`TERM_BYTES_LIMIT`] bytes of terms.
#[derive(Drop)]
pub struct Reader {
    machine: Machine,
    context: Context,
    vocabulary: Vocabulary,
    recent: RecentIris,
    kept: KeptMeanings,
    /// How many lexemes were read, and how many before the present statement.
    read: usize,
    since: usize,
    /// How many bytes of terms it may still make.
    left: usize,
}

/// The reader's fault of this kind at a position.
pub(crate) fn fault_at(at: usize, kind: TurtleKind) -> TurtleFault
    ensures { result ≡ Bad at kind }
{
    TurtleFault::Bad { at, kind }
}

/// How many lexemes the reader has before the present statement, which may begin after those that
/// were read.
fn statement_start(begins: bool, read: usize, since: usize) -> usize {
    if begins { read } else { since }
}

impl Reader {
    ghost use Rattle.turtle_grammar.specs.Readings.{HasRead, IsDerived, IsUnfinished, Waits};
    ghost use Rattle.turtle_grammar.specs.Readings.{HasString, IsTriple};
    ghost use Rattle.turtle_reader.specs.Contexts.{advanced};
    ghost use Rattle.turtle_reader.specs.Kept.{entries, is_referred_to, with_meaning};
    ghost use Rattle.turtle_reader.specs.Lexemes.{IsLexemeOf};
    ghost use Rattle.turtle_reader.specs.Readings.{IsReading, ReadsOn, IsRefused, Resolves};
    ghost use Rattle.turtle_reader.specs.Readings.{NamesHeld};
    ghost use Rattle.turtle_reader.specs.Readings.{produced_last};

    /// The reader before the first lexeme.
    pub fn new(alloc: Global, start: Start, base: &Iri) -> Mem<Reader>
        ensures { IfOk result (λ reader. (bytes : List ℕ)
            → IsReading start base.now bytes [] [] [] reader) }
    {
        let context = Context::new(alloc, base)?;
        let vocabulary = Vocabulary::new(alloc)?;
        let recent = RecentIris::new(alloc)?;
        Ok(Reader {
            machine: Machine::new(alloc, start),
            context,
            vocabulary,
            recent,
            kept: KeptMeanings::new(alloc),
            read: 0,
            since: 0,
            left: TERM_BYTES_LIMIT,
        })
    }

    /// The reader reads the next lexeme. After a fault the reader has read nothing that is known.
    ///
    /// # Errors
    ///
    /// The fault of the lexeme, at its start: `Grammar` where nothing goes on with it, else
    /// `Prefix` or `BadIri` where its IRI is none, else `Depth` where it opens a bracket too many.
    pub fn step(&mut self, alloc: Global, bytes: &[u8], lexeme: Lexeme) -> Result<(), TurtleFault>
        requires { IsLexemeOf bytes.now lexeme }
        ensures read { OnOk result (ReadsOn bytes.now lexeme self.old self.new) }
        ensures refused { IfErr result (λ fault. IsRefused bytes.now lexeme self.old fault) }
        ensures string { OnOk result (lexeme.symbol ≡ Symbol.Token TokenKind.Quoted
            → HasString self.new.machine) }
    {
        let statement = self.machine.is_complete();
        self.kept.drop_unnamed(&self.machine);
        let meaning = self.context.meaning(
            alloc,
            &self.vocabulary,
            &mut self.recent,
            &mut self.left,
            bytes,
            lexeme,
        );
        match self.machine.step(lexeme.symbol) {
            Ok(()) => match meaning {
                Ok(meaning) => {
                    self.keep(alloc, statement, lexeme.symbol, meaning)?;
                    Ok(())
                }
                Err(fault) => Err(fault),
            },
            Err(Refusal::Grammar) => Err(fault_at(lexeme.from, TurtleKind::Grammar)),
            Err(Refusal::Depth) => match meaning {
                Ok(_) => Err(fault_at(lexeme.from, TurtleKind::Depth)),
                Err(fault) => Err(fault),
            },
            Err(Refusal::NoMemory) => Err(TurtleFault::NoMemory),
        }
    }

    /// The reader passes a lexeme with this meaning, with which a statement may begin.
    fn keep(&mut self, alloc: Global, statement: bool, symbol: Symbol, meaning: Meaning) -> Mem<()>
        ensures context { OnOk result (self.new.context
            ≡ advanced self.old.context.directive self.old.context symbol meaning) }
        ensures kept { OnOk result (entries self.new.kept
            ≡ with_meaning (is_referred_to meaning) self.old.read meaning (entries self.old.kept)) }
        ensures read { OnOk result (self.new.read ≡ self.old.read + 1) }
        ensures machine { OnOk result (self.new.machine ≡ self.old.machine) }
    {
        let index = self.read;
        self.since = statement_start(statement, index, self.since);
        if index.saturating_sub(self.since) >= STATEMENT_LIMIT {
            return Err(NoMemory);
        }
        let Some(read) = index.checked_add(1) else {
            return Err(NoMemory);
        };
        self.context.advance(alloc, symbol, &meaning)?;
        self.kept.keep(index, symbol, meaning)?;
        self.read = read;
        Ok(())
    }

    /// What the last lexeme of the reader produced, in order. A String's triple is produced with
    /// the lexeme after it, which may add a tag or a datatype.
    pub fn produced(&self) -> &[Production]
        ensures { result.now ≡ produced_last self.now }
    {
        self.machine.produced()
    }

    /// The triple of the reader's last lexeme, where it is a String to which nothing is added.
    pub fn waiting(&self) -> Option<SymbolicTriple>
        ensures waits { Waits result self.now.machine }
        ensures string { HasString self.now.machine → IsTriple result }
        ensures held { IfSome result (λ triple. NamesHeld triple self.now) }
    {
        self.machine.waiting()
    }

    /// Whether what the reader has read has a derivation.
    pub fn is_complete(&self) -> bool
        ensures complete { OnTrue result (IsDerived self.now.machine) }
        ensures unfinished { OnFalse result (IsUnfinished self.now.machine) }
    {
        self.machine.is_complete()
    }

    /// What the nodes of a triple refer to that the last lexeme produced, or that waits: the lexemes
    /// that these name are kept. It is out of memory where one has no such meaning by itself, which
    /// none of these is.
    pub fn triple(&self, alloc: Global, triple: &SymbolicTriple) -> Mem<ResolvedTriple>
        ensures { IfOk result (λ resolved. Resolves triple.now self.now resolved) }
    {
        resolved(alloc, &self.vocabulary, &self.kept, triple)
    }
}
