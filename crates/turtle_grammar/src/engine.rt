//! The stack of goals, and how the whole machine takes a symbol.

ghost use Rattle.std.specs.Prelude.{◌≡◌, ◌↔◌, ◌+◌, ◌∷◌, [], IfOk, OnOk, IfSome, IfNone, IsTrue};
ghost use Rattle.std.specs.Bool.{OnTrue, OnFalse};

use crate::goal::{Goal, Rest};
use crate::named::is_in_stack;
use crate::production::{Node, Production, SymbolicTriple, Within};
use crate::symbol::Start;
use pod_base::{Mem, NoMemory};
use std::alloc::Global;
use std::marker::Model;

/// The goals, the top last, what comes after them, and the point of the walk. `produced` is what
/// the present step produced.
#[derive(Drop)]
pub struct Engine {
    stack: Vec<Goal>,
    rest: Rest,
    at: usize,
    unnamed: usize,
    within: Within,
    produced: Vec<Production>,
}

impl Model for Engine {
    ghost use Rattle.turtle_grammar.specs.Stacks.{Stage, seen};

    ghost Value = { Stage };

    ghost view = { λ x. seen x.stack.items x.rest x.at x.unnamed x.within x.produced.items };
}

impl Engine {
    ghost use Rattle.turtle_grammar.specs.Names.{IsOther, GoalsName};
    ghost use Rattle.turtle_grammar.specs.Productions.{start_point, passed, counted, fresh, moved};
    ghost use Rattle.turtle_grammar.specs.Productions.{produces, triple_at, says};
    ghost use Rattle.turtle_grammar.specs.Stacks.{Stage, first_rest, wants, at_point, with_rest};
    ghost use Rattle.turtle_grammar.specs.Stacks.{cleared, string_ended, waiting_triple};

    /// The engine before the first symbol.
    pub fn new(alloc: Global, start: Start) -> Engine
        ensures { result ≡ record { goals = []; rest = first_rest start; point = start_point } }
    {
        let rest = match start {
            Start::Update => Rest::Update,
            _ => Rest::Statements,
        };
        Engine {
            stack: Vec::new(alloc),
            rest,
            at: 0,
            unnamed: 0,
            within: Within::Document,
            produced: Vec::new(alloc),
        }
    }

    /// Puts a goal on the engine's stack.
    pub fn want(&mut self, goal: Goal) -> Mem<()>
        ensures { OnOk result (self.new ≡ wants goal self.old) }
    {
        self.stack.push(goal)?;
        Ok(())
    }

    /// The engine passes a token.
    pub fn pass(&mut self) -> Mem<()>
        ensures { OnOk result (self.new ≡ at_point (passed self.old.point) self.old) }
    {
        if self.at == usize::MAX {
            return Err(NoMemory);
        }
        self.at += 1;
        Ok(())
    }

    /// Appends what the engine's present step produces.
    pub fn produce(&mut self, production: Production) -> Mem<()>
        ensures { OnOk result (self.new ≡ at_point (produces production self.old.point) self.old) }
    {
        self.produced.push(production)?;
        Ok(())
    }

    /// The engine produces the triple that ends at this index.
    pub fn say_at(&mut self, end: usize, subject: Node, predicate: Node, object: Node) -> Mem<()>
        ensures { OnOk result (self.new
            ≡ at_point (triple_at end subject predicate object self.old.point) self.old) }
    {
        let within = self.within;
        self.produce(Production::Triple(SymbolicTriple {
            subject,
            predicate,
            object,
            within,
            end,
        }))
    }

    /// The engine produces the triple that ends at the present token.
    pub fn say(&mut self, subject: Node, predicate: Node, object: Node) -> Mem<()>
        ensures { OnOk result (self.new
            ≡ at_point (says subject predicate object self.old.point) self.old) }
    {
        self.say_at(self.at, subject, predicate, object)
    }

    /// The engine's next unnamed node.
    pub fn number(&mut self) -> Mem<Node>
        ensures node { IfOk result (λ node. node ≡ fresh self.old.point) }
        ensures counted { OnOk result (self.new ≡ at_point (counted self.old.point) self.old) }
    {
        let number = self.unnamed;
        if number == usize::MAX {
            return Err(NoMemory);
        }
        self.unnamed = number + 1;
        Ok(Node::Unnamed(number))
    }

    /// The engine's present token.
    pub fn at(&self) -> usize
        ensures { result ≡ self.now.point.at }
    {
        self.at
    }

    /// What a triple at the engine's present token is part of.
    pub fn within(&self) -> Within
        ensures { result ≡ self.now.point.within }
    {
        self.within
    }

    /// Sets what a triple at the engine's present token is part of.
    pub fn go_within(&mut self, within: Within)
        ensures { self.new ≡ at_point (moved within self.old.point) self.old }
    {
        self.within = within;
    }

    /// Sets what comes after the last goal of the engine's stack.
    pub fn set_rest(&mut self, rest: Rest)
        ensures { self.new ≡ with_rest rest self.old }
    {
        self.rest = rest;
    }

    /// What the engine's present step produced.
    pub fn produced(&self) -> &[Production]
        ensures { result.now ≡ self.now.point.produced }
    {
        self.produced.as_slice()
    }

    /// Whether a goal of the engine's stack names the token of this index.
    pub fn names(&self, index: usize) -> bool
        ensures found { OnTrue result (GoalsName (IsOther index) self.now.goals → ⊥) }
        ensures none { OnFalse result (GoalsName (IsOther index) self.now.goals) }
    {
        is_in_stack(index, self.stack.as_slice())
    }

    /// Whether no goal is left on the engine's stack.
    pub fn is_empty(&self) -> bool
        ensures { IsTrue result ↔ (self.now.goals ≡ []) }
    {
        self.stack.is_empty()
    }

    /// What comes after the last goal of the engine's stack.
    pub fn rest(&self) -> Rest
        ensures { result ≡ self.now.rest }
    {
        self.rest
    }

    /// Takes the top goal from the engine's stack.
    pub fn pop(&mut self) -> Option<Goal>
        ensures some { IfSome result (λ goal. self.old ≡ wants goal self.new) }
        ensures none { IfNone result (self.old.goals ≡ []) }
        ensures unchanged { IfNone result (self.new ≡ self.old) }
    {
        self.stack.pop()
    }

    /// The triple of the String for which the engine waits for what follows it, where there is one.
    pub fn waiting(&self) -> Option<SymbolicTriple>
        ensures { result ≡ waiting_triple self.now }
    {
        match self.stack.last() {
            Some(Goal::Suffix(subject, predicate, string)) => Some(SymbolicTriple {
                subject: *subject,
                predicate: *predicate,
                object: Node::Token(*string),
                within: self.within,
                end: *string,
            }),
            _ => None,
        }
    }

    /// The engine produces the triple of a String that waits for what follows it.
    pub fn end_string(&mut self) -> Mem<()>
        ensures { OnOk result (self.new ≡ string_ended self.old) }
    {
        if let Some(triple) = self.waiting() {
            let _ = self.pop();
            self.produce(Production::Triple(triple))?;
        }
        Ok(())
    }

    /// The engine begins a step: nothing is produced by it yet.
    pub fn clear(&mut self)
        ensures { self.new ≡ cleared self.old }
    {
        self.produced.clear();
    }
}
