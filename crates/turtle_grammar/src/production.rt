//! What a list of symbols produces: directives and symbolic triples, in order.

/// A node of a symbolic triple. Tokens are named by their index in the list of symbols, from 0.
#[derive(Clone, Copy, Debug, PartialEq, Eq)]
pub enum Node {
    /// The term of this token: an IRIREF or a name, a label, `a`, a literal of one token (a String
    /// without tag and datatype, a number, a truth word) or a variable.
    Token(usize),
    /// A String and its LANGTAG.
    Tagged(usize, usize),
    /// A String and the IRI of its datatype.
    Typed(usize, usize),
    /// The unnamed node of this number, from 0: of a `[`, an ANON or a cell of a collection. They
    /// are numbered in the order of the tokens that they belong to, a cell before its element.
    Unnamed(usize),
    /// The formula that this `{` opens.
    Formula(usize),
    /// `rdf:nil`.
    Nil,
    /// `rdf:first`.
    First,
    /// `rdf:rest`.
    Rest,
}

/// What a triple is part of.
#[derive(Clone, Copy, Debug, PartialEq, Eq)]
pub enum Within {
    /// The document, outside formulas.
    Document,
    /// The formula that this `{` opens.
    Formula(usize),
    /// The formula of an `INSERT DATA`.
    Insert,
    /// The formula of a `DELETE DATA`.
    Delete,
}

/// A triple over the tokens that name its nodes.
#[derive(Clone, Copy, Debug, PartialEq, Eq)]
pub struct SymbolicTriple {
    pub subject: Node,
    pub predicate: Node,
    pub object: Node,
    pub within: Within,
    /// The index of the token at which the triple ends: the last token of its object, for the
    /// `rdf:first` of a cell the last token of the element, and for its `rdf:rest` the first token
    /// of the next element, or the `)`.
    pub end: usize,
}

/// One thing that a list of symbols produces.
#[derive(Clone, Copy, Debug, PartialEq, Eq)]
pub enum Production {
    /// A prefix is declared by its PNAME_NS and its IRIREF.
    Prefix { name: usize, iri: usize },
    /// A base is declared by its IRIREF.
    Base { iri: usize },
    Triple(SymbolicTriple),
}
