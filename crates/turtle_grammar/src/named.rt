//! Whether an unfinished production names a token.

ghost use Rattle.std.specs.Prelude.{◌≡◌, reverse};
ghost use Rattle.std.specs.Bool.{OnTrue, OnFalse};
ghost use Rattle.std.specs.List.{All};
ghost use Rattle.turtle_grammar.specs.Names.{IsOther, GoalsName};
ghost use Rattle.turtle_grammar.specs.Named.{in_node, in_nodes, in_formula, in_closer, in_cell};
ghost use Rattle.turtle_grammar.specs.Named.{in_collection, in_goal, IsNotIn};

use crate::goal::{CellUse, Closer, CollectionUse, FormulaUse, Goal};
use crate::production::Node;

/// Whether a node of an unfinished production names the token of this index.
fn in_node(index: usize, node: Node) -> bool
    ensures { result ≡ in_node index node }
{
    match node {
        Node::Token(i) => i == index,
        Node::Tagged(i, k) => i == index || k == index,
        Node::Typed(i, k) => i == index || k == index,
        _ => false,
    }
}

/// Whether the subject or the predicate of an unfinished production names the token of this index.
fn in_nodes(index: usize, subject: Node, predicate: Node) -> bool
    ensures { result ≡ in_nodes index subject predicate }
{
    in_node(index, subject) || in_node(index, predicate)
}

/// Whether the use of an unfinished formula names the token of this index.
fn in_formula(index: usize, used: FormulaUse) -> bool
    ensures { result ≡ in_formula index used }
{
    match used {
        FormulaUse::Object(subject, predicate, _, _) => in_nodes(index, subject, predicate),
        FormulaUse::Operation => false,
    }
}

/// Whether the end that an unfinished production waits for names the token of this index.
fn in_closer(index: usize, closer: Closer) -> bool
    ensures { result ≡ in_closer index closer }
{
    match closer {
        Closer::Object(subject, predicate, object) => {
            in_nodes(index, subject, predicate) || in_node(index, object)
        }
        Closer::Formula(used) => in_formula(index, used),
        Closer::Statement | Closer::Subject => false,
    }
}

/// Whether the use of an unfinished collection's cells names the token of this index.
fn in_cell(index: usize, used: CellUse) -> bool
    ensures { result ≡ in_cell index used }
{
    match used {
        CellUse::Object(subject, predicate, object) => {
            in_nodes(index, subject, predicate) || in_node(index, object)
        }
        CellUse::Subject => false,
    }
}

/// Whether the use of an unfinished collection names the token of this index.
fn in_collection(index: usize, used: CollectionUse) -> bool
    ensures { result ≡ in_collection index used }
{
    match used {
        CollectionUse::Subject(closer) => in_closer(index, closer),
        CollectionUse::Object(subject, predicate) => in_nodes(index, subject, predicate),
    }
}

/// Whether a goal names the token of this index.
fn in_goal(index: usize, goal: Goal) -> bool
    ensures { result ≡ in_goal index goal }
{
    match goal {
        Goal::One(subject, predicate) => in_nodes(index, subject, predicate),
        Goal::Suffix(subject, predicate, string) => {
            in_nodes(index, subject, predicate) || string == index
        }
        Goal::Datatype(subject, predicate, string) => {
            in_nodes(index, subject, predicate) || string == index
        }
        Goal::After(subject, predicate, closer) => {
            in_nodes(index, subject, predicate) || in_closer(index, closer)
        }
        Goal::Again(subject, closer) => in_node(index, subject) || in_closer(index, closer),
        Goal::Predicates(subject, closer) => in_node(index, subject) || in_closer(index, closer),
        Goal::Maybe(subject, closer) => in_node(index, subject) || in_closer(index, closer),
        Goal::Formula(used) => in_formula(index, used),
        Goal::Collection(used) => in_collection(index, used),
        Goal::Elements(cell, used) => in_node(index, cell) || in_cell(index, used),
        Goal::PrefixIri(_, name) => name == index,
        _ => false,
    }
}

/// Whether one of these goals names the token of this index, looked for from the last one on.
fn is_in_any(index: usize, goals: &[Goal]) -> bool
    ensures found { OnTrue result (All (IsNotIn index) goals.now → ⊥) }
    ensures none { OnFalse result (All (IsNotIn index) goals.now) }
{
    let mut left = goals;
    while let Some((last, rest)) = left.split_last() {
        if in_goal(index, *last) {
            return true;
        }
        left = rest;
    }
    false
}

/// Whether a goal of the stack, whose top is the last one, names the token of this index.
pub fn is_in_stack(index: usize, stack: &[Goal]) -> bool
    ensures found { OnTrue result (GoalsName (IsOther index) (reverse stack.now) → ⊥) }
    ensures none { OnFalse result (GoalsName (IsOther index) (reverse stack.now)) }
{
    is_in_any(index, stack)
}
