//! Statements, directives and updates, and one step of the whole machine.

ghost use Rattle.std.specs.Prelude.{◌≡◌, ◌++◌, IfOk, OnOk, Some};
ghost use Rattle.turtle_grammar.specs.Stacks.{adds_to_string};

use crate::engine::Engine;
use crate::goal::{Closer, CollectionUse, FormulaUse, Goal, Rest};
use crate::production::{Node, Production, Within};
use crate::symbol::Symbol;
use pod_base::Mem;
use turtle_lex::TokenKind;

/// Whether the symbol adds something to a String before it, where a step of a statement begins.
fn adds_to_string(symbol: Symbol) -> bool
    ensures { result ≡ adds_to_string symbol }
{
    matches!(
        symbol,
        Symbol::Token(TokenKind::LangTag | TokenKind::Carets)
    )
}

impl Engine {
    ghost use Rattle.turtle_grammar.specs.Productions.{passed};
    ghost use Rattle.turtle_grammar.specs.Stacks.{at_point, wants, Takes, behind, dot_goals};
    ghost use Rattle.turtle_grammar.specs.Stacks.{prefix_name, prefix_iri, base_iri, dot_only};
    ghost use Rattle.turtle_grammar.specs.Stacks.{data_word, brace, begins, statement, update};
    ghost use Rattle.turtle_grammar.specs.Stacks.{after_operation, top, step_of, take_of, cleared};
    ghost use Rattle.turtle_grammar.specs.Stacks.{on_top};

    /// Passes the IRIREF of a directive; a `.` may have to follow.
    fn pass_iri(&mut self, has_dot: bool) -> Mem<bool>
        ensures { IfOk result (λ taken. Takes (Some (record {
          goals = dot_goals has_dot ++ self.old.goals;
          rest = self.old.rest;
          point = passed self.old.point;
        })) taken self.new) }
    {
        self.pass()?;
        if has_dot {
            self.want(Goal::Dot)?;
        }
        Ok(true)
    }

    /// Takes the symbol for the PNAME_NS of a directive.
    fn prefix_name(&mut self, has_dot: bool, symbol: Symbol) -> Mem<bool>
        ensures { IfOk result (λ taken.
            Takes (behind self.old (prefix_name has_dot self.old.point symbol)) taken self.new) }
    {
        match symbol {
            Symbol::Token(TokenKind::PnameNs) => self.pass_to(Goal::PrefixIri(has_dot, self.at())),
            _ => Ok(false),
        }
    }

    /// Takes the symbol for the IRIREF of a directive that declares a prefix.
    fn prefix_iri(&mut self, has_dot: bool, name: usize, symbol: Symbol) -> Mem<bool>
        ensures { IfOk result (λ taken. Takes (behind self.old
            (prefix_iri has_dot name self.old.point symbol)) taken self.new) }
    {
        match symbol {
            Symbol::Token(TokenKind::IriRef) => {
                self.produce(Production::Prefix {
                    name,
                    iri: self.at(),
                })?;
                self.pass_iri(has_dot)
            }
            _ => Ok(false),
        }
    }

    /// Takes the symbol for the IRIREF of a directive that sets the base.
    fn base_iri(&mut self, has_dot: bool, symbol: Symbol) -> Mem<bool>
        ensures { IfOk result (λ taken.
            Takes (behind self.old (base_iri has_dot self.old.point symbol)) taken self.new) }
    {
        match symbol {
            Symbol::Token(TokenKind::IriRef) => {
                self.produce(Production::Base { iri: self.at() })?;
                self.pass_iri(has_dot)
            }
            _ => Ok(false),
        }
    }

    /// Takes the symbol for the `.` of a directive.
    fn dot(&mut self, symbol: Symbol) -> Mem<bool>
        ensures { IfOk result (λ taken.
            Takes (behind self.old (dot_only self.old.point symbol)) taken self.new) }
    {
        match symbol {
            Symbol::Token(TokenKind::Dot) => {
                self.pass()?;
                Ok(true)
            }
            _ => Ok(false),
        }
    }

    /// Takes the symbol for the `DATA` of an update's operation.
    fn data_word(&mut self, within: Within, symbol: Symbol) -> Mem<bool>
        ensures { IfOk result (λ taken.
            Takes (behind self.old (data_word within self.old.point symbol)) taken self.new) }
    {
        match symbol {
            Symbol::Data => self.pass_to(Goal::Brace(within)),
            _ => Ok(false),
        }
    }

    /// Takes the symbol for the `{` of an update's operation.
    fn brace(&mut self, within: Within, symbol: Symbol) -> Mem<bool>
        ensures { IfOk result (λ taken.
            Takes (behind self.old (brace within self.old.point symbol)) taken self.new) }
    {
        match symbol {
            Symbol::Token(TokenKind::OpenBrace) => {
                self.go_within(within);
                self.pass_to(Goal::Formula(FormulaUse::Operation))
            }
            _ => Ok(false),
        }
    }

    /// Takes the symbol for the beginning of a goal of statements, which was taken from the stack.
    fn begin(&mut self, goal: Goal, symbol: Symbol) -> Mem<bool>
        ensures { IfOk result (λ taken.
            Takes (behind self.old (begins goal self.old.point symbol)) taken self.new) }
    {
        match goal {
            Goal::One(subject, predicate) => self.one(subject, predicate, symbol),
            Goal::Suffix(subject, predicate, string) => {
                self.suffix(subject, predicate, string, symbol)
            }
            Goal::Datatype(subject, predicate, string) => {
                self.datatype(subject, predicate, string, symbol)
            }
            Goal::After(subject, predicate, closer) => {
                self.after(subject, predicate, closer, symbol)
            }
            Goal::Again(subject, closer) => self.again(subject, closer, symbol),
            Goal::Predicates(subject, closer) => self.predicates(subject, closer, symbol),
            Goal::Maybe(subject, closer) => self.perhaps(subject, closer, symbol),
            Goal::Formula(used) => self.formula(used, symbol),
            Goal::Collection(CollectionUse::Subject(closer)) => {
                self.subject_collection(closer, symbol)
            }
            Goal::Collection(CollectionUse::Object(subject, predicate)) => {
                self.object_collection(subject, predicate, symbol)
            }
            Goal::Elements(cell, used) => self.elements(cell, used, symbol),
            Goal::PrefixName(has_dot) => self.prefix_name(has_dot, symbol),
            Goal::PrefixIri(has_dot, name) => self.prefix_iri(has_dot, name, symbol),
            Goal::BaseIri(has_dot) => self.base_iri(has_dot, symbol),
            Goal::Dot => self.dot(symbol),
            Goal::Data(within) => self.data_word(within, symbol),
            Goal::Brace(within) => self.brace(within, symbol),
        }
    }

    /// Takes the symbol for a statement or a directive of a document.
    fn statement(&mut self, symbol: Symbol) -> Mem<bool>
        ensures { IfOk result (λ taken.
            Takes (behind self.old (statement self.old.point symbol)) taken self.new) }
    {
        match symbol {
            Symbol::Token(TokenKind::AtPrefix) => self.pass_to(Goal::PrefixName(true)),
            Symbol::Token(TokenKind::AtBase) => self.pass_to(Goal::BaseIri(true)),
            Symbol::Token(TokenKind::Prefix) => self.pass_to(Goal::PrefixName(false)),
            Symbol::Token(TokenKind::Base) => self.pass_to(Goal::BaseIri(false)),
            _ => self.subject(Closer::Statement, symbol),
        }
    }

    /// Takes the symbol for a directive or an operation of an update.
    fn update(&mut self, symbol: Symbol) -> Mem<bool>
        ensures { IfOk result (λ taken.
            Takes (on_top self.old (update self.old.point symbol)) taken self.new) }
    {
        match symbol {
            Symbol::Token(TokenKind::Prefix) => {
                self.set_rest(Rest::Update);
                self.pass_to(Goal::PrefixName(false))
            }
            Symbol::Token(TokenKind::Base) => {
                self.set_rest(Rest::Update);
                self.pass_to(Goal::BaseIri(false))
            }
            Symbol::Insert => {
                self.set_rest(Rest::AfterOperation);
                self.pass_to(Goal::Data(Within::Insert))
            }
            Symbol::Delete => {
                self.set_rest(Rest::AfterOperation);
                self.pass_to(Goal::Data(Within::Delete))
            }
            _ => Ok(false),
        }
    }

    /// Takes the symbol for the `;` after an update's operation.
    fn after_operation(&mut self, symbol: Symbol) -> Mem<bool>
        ensures { IfOk result (λ taken.
            Takes (on_top self.old (after_operation self.old.point symbol)) taken self.new) }
    {
        match symbol {
            Symbol::Token(TokenKind::Semicolon) => {
                self.set_rest(Rest::Update);
                self.pass()?;
                Ok(true)
            }
            _ => Ok(false),
        }
    }

    /// Takes the symbol for the rest of a document's statements or of an update, where no goal is
    /// left.
    fn top(&mut self, symbol: Symbol) -> Mem<bool>
        ensures { IfOk result (λ taken. Takes
            (on_top self.old (top self.old.rest self.old.point symbol)) taken self.new) }
    {
        match self.rest() {
            Rest::Statements => self.statement(symbol),
            Rest::Update => self.update(symbol),
            Rest::AfterOperation => self.after_operation(symbol),
        }
    }

    /// The top goal takes the symbol, or the next statement does.
    fn take(&mut self, symbol: Symbol) -> Mem<bool>
        ensures { IfOk result (λ taken. Takes (take_of self.old symbol) taken self.new) }
    {
        match self.pop() {
            Some(goal) => self.begin(goal, symbol),
            None => self.top(symbol),
        }
    }

    /// Ends the triple of a String that waits, where the symbol of the present statement adds
    /// nothing to it.
    fn settle(&mut self, symbol: Symbol) -> Mem<()>
        ensures { OnOk result (step_of self.old symbol ≡ take_of self.new symbol) }
    {
        if adds_to_string(symbol) {
            return Ok(());
        }
        self.end_string()
    }

    /// One step of the whole machine, from statements to objects. It returns whether the symbol was
    /// taken.
    pub fn step(&mut self, symbol: Symbol) -> Mem<bool>
        ensures { IfOk result (λ taken. Takes (step_of (cleared self.old) symbol) taken self.new) }
    {
        self.clear();
        self.settle(symbol)?;
        self.take(symbol)
    }
}
