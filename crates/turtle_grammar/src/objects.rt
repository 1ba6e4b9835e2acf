//! The goals inside statements: objects, predicates, collections and formulas. Each function takes
//! the symbol, or returns false where its goal can't begin with it.

ghost use Rattle.std.specs.Prelude.{◌≡◌, ◌+◌, ◌∷◌, [], IfOk, OnOk, None};

use crate::engine::Engine;
use crate::goal::{CellUse, Closer, CollectionUse, FormulaUse, Goal};
use crate::production::{Node, Within};
use crate::symbol::Symbol;
use pod_base::Mem;
use turtle_lex::TokenKind;

impl Engine {
    ghost use Rattle.turtle_grammar.specs.Productions.{passed, counted, fresh, says, says_token};
    ghost use Rattle.turtle_grammar.specs.Stacks.{at_point, wants, Takes, behind, one, closes};
    ghost use Rattle.turtle_grammar.specs.Stacks.{objects, verb_or, after, again, predicates};
    ghost use Rattle.turtle_grammar.specs.Stacks.{perhaps, suffix, datatype, collected, elements};
    ghost use Rattle.turtle_grammar.specs.Stacks.{collection, subject_of, formula, formula_closed};
    ghost use Rattle.turtle_grammar.specs.declared.goal.CollectionUse.TheVariants as collection_use;
    ghost use Rattle.turtle_grammar.specs.declared.symbol.Symbol.TheVariants.{Token};
    ghost use Rattle.turtle_lex.specs.declared.token.TokenKind.TheVariants.{OpenBrace};

    /// Produces the triple of an object that ends at the present token, which is passed.
    fn say_and_pass(&mut self, subject: Node, predicate: Node, object: Node) -> Mem<()>
        ensures { OnOk result (self.new
            ≡ at_point (passed (says subject predicate object self.old.point)) self.old) }
    {
        self.say(subject, predicate, object)?;
        self.pass()
    }

    /// Passes the present token, after which this goal inside a statement is wanted.
    pub fn pass_to(&mut self, goal: Goal) -> Mem<bool>
        ensures { IfOk result (λ taken. Takes
            (Some (wants goal (at_point (passed self.old.point) self.old))) taken self.new) }
    {
        self.pass()?;
        self.want(goal)?;
        Ok(true)
    }

    /// Takes the symbol for the goal of one object.
    pub fn one(&mut self, subject: Node, predicate: Node, symbol: Symbol) -> Mem<bool>
        ensures { IfOk result (λ taken.
            Takes (behind self.old (one subject predicate self.old.point symbol)) taken self.new) }
    {
        match symbol {
            Symbol::Token(
                TokenKind::IriRef
                | TokenKind::PnameLn
                | TokenKind::PnameNs
                | TokenKind::BlankLabel
                | TokenKind::Integer
                | TokenKind::Decimal
                | TokenKind::Double
                | TokenKind::True
                | TokenKind::False
                | TokenKind::Variable,
            ) => {
                self.say_and_pass(subject, predicate, Node::Token(self.at()))?;
                Ok(true)
            }
            Symbol::Token(TokenKind::Quoted) => {
                self.pass_to(Goal::Suffix(subject, predicate, self.at()))
            }
            Symbol::Token(TokenKind::Anon) => {
                let node = self.number()?;
                self.say_and_pass(subject, predicate, node)?;
                Ok(true)
            }
            Symbol::Token(TokenKind::OpenSquare) => {
                let node = self.number()?;
                self.pass_to(Goal::Predicates(node, Closer::Object(subject, predicate, node)))
            }
            Symbol::Token(TokenKind::OpenRound) => {
                self.pass_to(Goal::Collection(CollectionUse::Object(subject, predicate)))
            }
            Symbol::Token(TokenKind::OpenBrace) => self.open_formula(subject, predicate),
            _ => Ok(false),
        }
    }

    /// Takes the formula that the present `{` opens as an object.
    fn open_formula(&mut self, subject: Node, predicate: Node) -> Mem<bool>
        ensures { IfOk result (λ taken. Takes (behind self.old
            (one subject predicate self.old.point (Token OpenBrace))) taken self.new) }
    {
        let at = self.at();
        let outer = self.within();
        self.go_within(Within::Formula(at));
        self.pass_to(Goal::Formula(FormulaUse::Object(subject, predicate, at, outer)))
    }

    /// Closes a formula, which is an object or an operation's.
    fn close_formula(&mut self, used: FormulaUse) -> Mem<()>
        ensures { OnOk result (self.new
            ≡ at_point (formula_closed used self.old.point) self.old) }
    {
        match used {
            FormulaUse::Object(subject, predicate, brace, outer) => {
                self.go_within(outer);
                self.say_and_pass(subject, predicate, Node::Formula(brace))
            }
            FormulaUse::Operation => {
                self.go_within(Within::Document);
                self.pass()
            }
        }
    }

    /// Takes the symbol for the end of a list of predicates and objects.
    fn close(&mut self, closer: Closer, symbol: Symbol) -> Mem<bool>
        ensures { IfOk result (λ taken.
            Takes (behind self.old (closes closer self.old.point symbol)) taken self.new) }
    {
        match (closer, symbol) {
            (Closer::Statement, Symbol::Token(TokenKind::Dot)) => {
                self.pass()?;
                Ok(true)
            }
            (Closer::Subject, Symbol::Token(TokenKind::CloseSquare)) => {
                self.pass()?;
                Ok(true)
            }
            (Closer::Object(subject, predicate, object), Symbol::Token(TokenKind::CloseSquare)) => {
                self.say_and_pass(subject, predicate, object)?;
                Ok(true)
            }
            (Closer::Formula(used), Symbol::Token(TokenKind::CloseBrace)) => {
                self.close_formula(used)?;
                Ok(true)
            }
            (Closer::Formula(used), Symbol::Token(TokenKind::Dot)) => {
                self.pass_to(Goal::Formula(used))
            }
            _ => Ok(false),
        }
    }

    /// Wants the objects of the verb that the present token is.
    fn objects(&mut self, subject: Node, closer: Closer) -> Mem<bool>
        ensures { IfOk result (λ taken.
            Takes (behind self.old (objects subject closer self.old.point)) taken self.new) }
    {
        let verb = Node::Token(self.at());
        self.want(Goal::After(subject, verb, closer))?;
        self.pass_to(Goal::One(subject, verb))
    }

    /// Takes the symbol for what follows an object.
    pub fn after(
        &mut self,
        subject: Node,
        predicate: Node,
        closer: Closer,
        symbol: Symbol,
    ) -> Mem<bool>
        ensures { IfOk result (λ taken. Takes (behind self.old
            (after subject predicate closer self.old.point symbol)) taken self.new) }
    {
        match symbol {
            Symbol::Token(TokenKind::Comma) => {
                self.want(Goal::After(subject, predicate, closer))?;
                self.pass_to(Goal::One(subject, predicate))
            }
            Symbol::Token(TokenKind::Semicolon) => self.pass_to(Goal::Again(subject, closer)),
            _ => self.close(closer, symbol),
        }
    }

    /// Takes the symbol for what follows a `;` after objects.
    pub fn again(&mut self, subject: Node, closer: Closer, symbol: Symbol) -> Mem<bool>
        ensures { IfOk result (λ taken.
            Takes (behind self.old (again subject closer self.old.point symbol)) taken self.new) }
    {
        match symbol {
            Symbol::Token(TokenKind::Semicolon) => self.pass_to(Goal::Again(subject, closer)),
            _ => self.perhaps(subject, closer, symbol),
        }
    }

    /// Takes the symbol for a list of predicates and their objects.
    pub fn predicates(&mut self, subject: Node, closer: Closer, symbol: Symbol) -> Mem<bool>
        ensures { IfOk result (λ taken. Takes (behind self.old
            (predicates subject closer self.old.point symbol)) taken self.new) }
    {
        match symbol {
            Symbol::Token(
                TokenKind::IriRef
                | TokenKind::PnameLn
                | TokenKind::PnameNs
                | TokenKind::A
                | TokenKind::Variable,
            ) => self.objects(subject, closer),
            _ => Ok(false),
        }
    }

    /// Takes the symbol for a list of predicates and their objects, or only for its end.
    pub fn perhaps(&mut self, subject: Node, closer: Closer, symbol: Symbol) -> Mem<bool>
        ensures { IfOk result (λ taken.
            Takes (behind self.old (perhaps subject closer self.old.point symbol)) taken self.new) }
    {
        match symbol {
            Symbol::Token(
                TokenKind::IriRef
                | TokenKind::PnameLn
                | TokenKind::PnameNs
                | TokenKind::A
                | TokenKind::Variable,
            ) => self.objects(subject, closer),
            _ => self.close(closer, symbol),
        }
    }

    /// Takes the symbol for what follows a String that is an object.
    pub fn suffix(
        &mut self,
        subject: Node,
        predicate: Node,
        string: usize,
        symbol: Symbol,
    ) -> Mem<bool>
        ensures { IfOk result (λ taken. Takes (behind self.old
            (suffix subject predicate string self.old.point symbol)) taken self.new) }
    {
        match symbol {
            Symbol::Token(TokenKind::LangTag) => {
                self.say_and_pass(subject, predicate, Node::Tagged(string, self.at()))?;
                Ok(true)
            }
            Symbol::Token(TokenKind::Carets) => {
                self.pass_to(Goal::Datatype(subject, predicate, string))
            }
            _ => Ok(false),
        }
    }

    /// Takes the symbol for the datatype of a String that is an object.
    pub fn datatype(
        &mut self,
        subject: Node,
        predicate: Node,
        string: usize,
        symbol: Symbol,
    ) -> Mem<bool>
        ensures { IfOk result (λ taken. Takes (behind self.old
            (datatype subject predicate string self.old.point symbol)) taken self.new) }
    {
        match symbol {
            Symbol::Token(TokenKind::IriRef | TokenKind::PnameLn | TokenKind::PnameNs) => {
                self.say_and_pass(subject, predicate, Node::Typed(string, self.at()))?;
                Ok(true)
            }
            _ => Ok(false),
        }
    }

    /// Takes the symbol for the inside of a collection that is a subject.
    pub fn subject_collection(&mut self, closer: Closer, symbol: Symbol) -> Mem<bool>
        ensures { IfOk result (λ taken. Takes (behind self.old
            (collection (collection_use.Subject closer) self.old.point symbol)) taken self.new) }
    {
        match symbol {
            Symbol::Token(TokenKind::CloseRound) => self.pass_to(Goal::Predicates(
                Node::Nil,
                closer,
            )),
            _ => {
                let cell = self.number()?;
                self.want(Goal::Predicates(cell, closer))?;
                self.want(Goal::Elements(cell, CellUse::Subject))?;
                self.one(cell, Node::First, symbol)
            }
        }
    }

    /// Takes the symbol for the inside of a collection that is an object.
    pub fn object_collection(&mut self, subject: Node, predicate: Node, symbol: Symbol) -> Mem<bool>
        ensures { IfOk result (λ taken. Takes (behind self.old (collection
            (collection_use.Object subject predicate) self.old.point symbol)) taken self.new) }
    {
        match symbol {
            Symbol::Token(TokenKind::CloseRound) => {
                self.say_and_pass(subject, predicate, Node::Nil)?;
                Ok(true)
            }
            _ => {
                let cell = self.number()?;
                self.want(Goal::Elements(cell, CellUse::Object(subject, predicate, cell)))?;
                self.one(cell, Node::First, symbol)
            }
        }
    }

    /// Closes a collection, which is a subject or an object.
    fn close_collection(&mut self, used: CellUse) -> Mem<()>
        ensures { OnOk result (self.new ≡ at_point (collected used self.old.point) self.old) }
    {
        match used {
            CellUse::Subject => self.pass(),
            CellUse::Object(subject, predicate, cell) => {
                self.say_and_pass(subject, predicate, cell)
            }
        }
    }

    /// Takes the symbol for the elements of a collection after its first, each the object of a
    /// cell.
    pub fn elements(&mut self, cell: Node, used: CellUse, symbol: Symbol) -> Mem<bool>
        ensures { IfOk result (λ taken.
            Takes (behind self.old (elements cell used self.old.point symbol)) taken self.new) }
    {
        match symbol {
            Symbol::Token(TokenKind::CloseRound) => {
                self.say(cell, Node::Rest, Node::Nil)?;
                self.close_collection(used)?;
                Ok(true)
            }
            _ => {
                let next = self.number()?;
                self.say(cell, Node::Rest, next)?;
                self.want(Goal::Elements(next, used))?;
                self.one(next, Node::First, symbol)
            }
        }
    }

    /// Takes the symbol for a subject and what follows it, predicates and objects.
    pub fn subject(&mut self, closer: Closer, symbol: Symbol) -> Mem<bool>
        ensures { IfOk result (λ taken.
            Takes (behind self.old (subject_of closer self.old.point symbol)) taken self.new) }
    {
        match symbol {
            Symbol::Token(
                TokenKind::IriRef
                | TokenKind::PnameLn
                | TokenKind::PnameNs
                | TokenKind::BlankLabel
                | TokenKind::Variable,
            ) => { self.pass_to(Goal::Predicates(Node::Token(self.at()), closer)) }
            Symbol::Token(TokenKind::Anon) => {
                let node = self.number()?;
                self.pass_to(Goal::Predicates(node, closer))
            }
            Symbol::Token(TokenKind::OpenSquare) => {
                let node = self.number()?;
                self.want(Goal::Maybe(node, closer))?;
                self.pass_to(Goal::Predicates(node, Closer::Subject))
            }
            Symbol::Token(TokenKind::OpenRound) => {
                self.pass_to(Goal::Collection(CollectionUse::Subject(closer)))
            }
            _ => Ok(false),
        }
    }

    /// Takes the symbol for the inside of a formula.
    pub fn formula(&mut self, used: FormulaUse, symbol: Symbol) -> Mem<bool>
        ensures { IfOk result (λ taken.
            Takes (behind self.old (formula used self.old.point symbol)) taken self.new) }
    {
        match symbol {
            Symbol::Token(TokenKind::CloseBrace) => {
                self.close_formula(used)?;
                Ok(true)
            }
            _ => self.subject(Closer::Formula(used), symbol),
        }
    }
}
