//! The machine that reads symbols one by one.

ghost use Rattle.std.specs.Prelude.{◌≡◌, ◌≤◌, ◌<◌, [], IfOk, IfErr, IfSome, OnOk};
ghost use Rattle.std.specs.Bool.{OnTrue, OnFalse};
ghost use Rattle.turtle_grammar.specs.Derivations.{is_allowed, braces_after, depth_after};
ghost use Rattle.turtle_grammar.specs.declared.fault.TheConstants.{DEPTH_LIMIT};

use crate::engine::Engine;
use crate::fault::{DEPTH_LIMIT, Refusal};
use crate::production::{Production, SymbolicTriple};
use crate::symbol::{Start, Symbol};
use pod_base::{Mem, NoMemory};
use std::alloc::Global;
use turtle_lex::TokenKind;

/// Whether the machine's start symbol allows this symbol where so many braces are open.
fn is_allowed(start: Start, braces: usize, symbol: Symbol) -> bool
    ensures { result ≡ is_allowed start braces symbol }
{
    match symbol {
        Symbol::Token(TokenKind::OpenBrace) => match start {
            Start::Document => false,
            Start::Patch => true,
            Start::Update => braces < 1,
        },
        Symbol::Token(TokenKind::Variable) => matches!(start, Start::Patch) && 0 < braces,
        Symbol::Token(_) => true,
        _ => matches!(start, Start::Update) && braces < 1,
    }
}

/// How many braces are open after the machine has read the symbol.
fn braces_after(braces: usize, symbol: Symbol) -> Mem<usize>
    ensures { IfOk result (λ after. after ≡ braces_after braces symbol) }
{
    match symbol {
        Symbol::Token(TokenKind::OpenBrace) => {
            if braces == usize::MAX {
                return Err(NoMemory);
            }
            Ok(braces + 1)
        }
        Symbol::Token(TokenKind::CloseBrace) => Ok(braces.saturating_sub(1)),
        _ => Ok(braces),
    }
}

/// How many brackets are open after the machine has read the symbol.
fn depth_after(depth: usize, symbol: Symbol) -> usize
    requires { depth ≤ DEPTH_LIMIT }
    ensures { result ≡ depth_after depth symbol }
{
    match symbol {
        Symbol::Token(TokenKind::OpenSquare | TokenKind::OpenRound | TokenKind::OpenBrace) => {
            depth + 1
        }
        Symbol::Token(TokenKind::CloseSquare | TokenKind::CloseRound | TokenKind::CloseBrace) => {
            depth.saturating_sub(1)
        }
        _ => depth,
    }
}

/// Reads symbols one by one, from a start symbol on.
#[derive(Drop)]
pub struct Machine {
    start: Start,
    braces: usize,
    depth: usize,
    engine: Engine,
    ghost low: { depth ≤ DEPTH_LIMIT },
}

impl Machine {
    ghost use Rattle.turtle_grammar.specs.Readings.{HasRead, ReadsOn, IsRefused};
    ghost use Rattle.turtle_grammar.specs.Stacks.{Takes, step_of, cleared};
    ghost use Rattle.turtle_grammar.specs.Readings.{IsDerived, IsUnfinished, Waits, produced_by};
    ghost use Rattle.turtle_grammar.specs.Readings.{Avoids, NamesOn, NamesNothing, WaitingNames};
    ghost use Rattle.turtle_grammar.specs.Readings.{HasString, IsTriple};

    /// The machine before the first symbol. It has no memory yet.
    pub fn new(alloc: Global, start: Start) -> Machine
        ensures { HasRead start [] [] result }
    {
        Machine {
            start,
            braces: 0,
            depth: 0,
            engine: Engine::new(alloc, start),
        }
    }

    /// Reads the next symbol. After a refusal the machine has read nothing that is known.
    pub fn step(&mut self, symbol: Symbol) -> Result<(), Refusal>
        ensures read { OnOk result (ReadsOn symbol self.old self.new) }
        ensures refused { IfErr result (λ refusal. IsRefused refusal symbol self.old) }
        ensures names { OnOk result (NamesOn symbol self.old self.new) }
        ensures string { OnOk result (symbol ≡ Symbol.Token TokenKind.Quoted → HasString self.new) }
    {
        if !is_allowed(self.start, self.braces, symbol) {
            return Err(Refusal::Grammar);
        }
        let depth = depth_after(self.depth, symbol);
        match self.take(symbol) {
            Ok(true) if depth > DEPTH_LIMIT => Err(Refusal::Depth),
            Ok(true) => {
                self.depth = depth;
                Ok(())
            }
            Ok(false) => Err(Refusal::Grammar),
            Err(NoMemory) => Err(Refusal::NoMemory),
        }
    }

    /// The machine's grammar takes the symbol, which is counted if it is a brace.
    fn take(&mut self, symbol: Symbol) -> Mem<bool>
        ensures engine { IfOk result (λ taken.
            Takes (step_of (cleared self.old.engine) symbol) taken self.new.engine) }
        ensures braces { OnOk result (self.new.braces ≡ braces_after self.old.braces symbol) }
        ensures start { OnOk result (self.new.start ≡ self.old.start) }
        ensures depth { OnOk result (self.new.depth ≡ self.old.depth) }
    {
        self.braces = braces_after(self.braces, symbol)?;
        self.engine.step(symbol)
    }

    /// What the last symbol produced, in order. A String's triple is produced with the symbol after
    /// it, which may add a tag or a datatype.
    pub fn produced(&self) -> &[Production]
        ensures { result.now ≡ produced_by self.now }
    {
        self.engine.produced()
    }

    /// The triple of the last symbol, where it is a String to which nothing is added.
    pub fn waiting(&self) -> Option<SymbolicTriple>
        ensures waits { Waits result self.now }
        ensures names { IfSome result (λ triple. WaitingNames triple self.now) }
        ensures string { HasString self.now → IsTriple result }
    {
        self.engine.waiting()
    }

    /// Whether what is unfinished names the token of this index. One that it doesn't name is named by
    /// no later production.
    pub fn names(&self, index: usize) -> bool
        ensures found { OnTrue result (Avoids index self.now → ⊥) }
        ensures none { OnFalse result (Avoids index self.now) }
    {
        self.engine.names(index)
    }

    /// Whether what was read has a derivation. No later production names a token before here.
    pub fn is_complete(&self) -> bool
        ensures complete { OnTrue result (IsDerived self.now) }
        ensures unfinished { OnFalse result (IsUnfinished self.now) }
        ensures names { OnTrue result (NamesNothing self.now) }
    {
        self.engine.is_empty()
    }
}
