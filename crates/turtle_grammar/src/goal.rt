//! The goals of the machine: unfinished productions, each with what it needs of the tokens before.

use crate::production::{Node, Within};

/// What a formula is.
#[derive(Clone, Copy, Debug)]
pub enum FormulaUse {
    /// The object of this subject and predicate: the `{` has this index, and this is around it.
    Object(Node, Node, usize, Within),
    /// The formula of an operation.
    Operation,
}

/// What ends a predicateObjectList, and what is produced there.
#[derive(Clone, Copy, Debug)]
pub enum Closer {
    /// The `.` of a statement.
    Statement,
    /// The `]` of brackets that begin triples.
    Subject,
    /// The `]` of brackets that are an object: of this subject and predicate, this node.
    Object(Node, Node, Node),
    /// In a formula, its `}`, or a `.` after which it goes on.
    Formula(FormulaUse),
}

/// What a collection is, after its first element.
#[derive(Clone, Copy, Debug)]
pub enum CellUse {
    /// A subject: nothing is produced at its end.
    Subject,
    /// The object of this subject and predicate, this first cell.
    Object(Node, Node, Node),
}

/// What a collection is, after its `(`.
#[derive(Clone, Copy, Debug)]
pub enum CollectionUse {
    /// A subject; its predicates have this end.
    Subject(Closer),
    /// The object of this subject and predicate.
    Object(Node, Node),
}

/// An unfinished production. Each needs one symbol at least.
#[derive(Clone, Copy, Debug)]
pub enum Goal {
    /// An object of this subject and predicate.
    One(Node, Node),
    /// What follows a String, the object of this subject and predicate. It alone may be empty.
    Suffix(Node, Node, usize),
    /// The datatype of this String, the object of this subject and predicate.
    Datatype(Node, Node, usize),
    /// What follows an object of this subject and predicate.
    After(Node, Node, Closer),
    /// What follows a `;`.
    Again(Node, Closer),
    /// The predicateObjectList of this subject.
    Predicates(Node, Closer),
    /// The predicateObjectList of this subject, or only its end.
    Maybe(Node, Closer),
    /// The inside of a formula, before one of its triples or its end.
    Formula(FormulaUse),
    /// The inside of a collection.
    Collection(CollectionUse),
    /// The elements after this cell.
    Elements(Node, CellUse),
    /// The PNAME_NS and the IRIREF of a directive, which may have a `.` after it.
    PrefixName(bool),
    /// The IRIREF of a directive whose PNAME_NS has this index.
    PrefixIri(bool, usize),
    /// The IRIREF of a base.
    BaseIri(bool),
    /// The `.` of a directive.
    Dot,
    /// `DATA` and the formula of an operation, whose triples are part of this.
    Data(Within),
    /// The formula of an operation.
    Brace(Within),
}

/// What comes after the last complete statement or operation.
#[derive(Clone, Copy, Debug)]
pub enum Rest {
    /// Statements of a document.
    Statements,
    /// An update.
    Update,
    /// Nothing, or `;` and an update.
    AfterOperation,
}
