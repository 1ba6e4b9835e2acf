//! What the nodes of a triple refer to, by the meanings of the lexemes that they name.

ghost use Rattle.std.specs.Prelude.{◌≡◌, List, Option, Some, IfOk};
ghost use Rattle.turtle_reader.specs.declared.meaning.Meaning.{Meaning};
ghost use Rattle.turtle_reader.specs.Kept.{AreKept};
ghost use Rattle.turtle_reader.specs.Referents.{term_referent, tagged, typed, referent, IsResolved};

use crate::kept_meanings::KeptMeanings;
use crate::meaning::Meaning;
use iri_ref::Iri;
use pod_base::{Mem, NoMemory, Text};
use rdf_graph::{Term, copy_iri};
use std::alloc::Global;
use turtle_grammar::{Node, SymbolicTriple, Within};
use turtle_terms::{Vocabulary, Word};

/// What a node refers to.
#[derive(Debug, Drop)]
pub enum Referent {
    Term(Term),
    /// The variable of this name.
    Variable(Text),
    /// The unnamed node of this number.
    Unnamed(usize),
    /// The formula that the lexeme of this index opens.
    Formula(usize),
}

/// A triple over what its nodes refer to.
#[derive(Debug, Drop)]
pub struct ResolvedTriple {
    pub subject: Referent,
    pub predicate: Referent,
    pub object: Referent,
    pub within: Within,
    /// The index of the lexeme at which the triple ends.
    pub end: usize,
}

/// The referent of a lexeme of this meaning by itself.
fn term_referent(alloc: Global, meaning: &Meaning) -> Mem<Referent>
    ensures { IfOk result (λ r. term_referent (Some meaning.now) ≡ Some r) }
{
    match meaning {
        Meaning::Term(term) => Ok(Referent::Term(term.copy(alloc)?)),
        Meaning::Variable(name) => Ok(Referent::Variable(name.copy(alloc)?)),
        _ => Err(NoMemory),
    }
}

/// The referent that is the literal of a String and a language tag.
fn tagged(alloc: Global, string: &Meaning, tag: &Meaning) -> Mem<Referent>
    ensures { IfOk result (λ r. tagged (Some string.now) (Some tag.now) ≡ Some r) }
{
    match string {
        Meaning::Term(Term::Literal { lexical, .. }) => match tag {
            Meaning::Language(lang) => {
                let lexical = lexical.copy(alloc)?;
                let lang = lang.copy(alloc)?;
                Ok(Referent::Term(Term::Tagged { lexical, lang }))
            }
            _ => Err(NoMemory),
        },
        _ => Err(NoMemory),
    }
}

/// The referent that is the literal of a String and a datatype.
fn typed(alloc: Global, string: &Meaning, datatype: &Meaning) -> Mem<Referent>
    ensures { IfOk result (λ r. typed (Some string.now) (Some datatype.now) ≡ Some r) }
{
    match string {
        Meaning::Term(Term::Literal { lexical, .. }) => match datatype {
            Meaning::Term(Term::Iri(iri)) => {
                let lexical = lexical.copy(alloc)?;
                let datatype = copy_iri(alloc, iri)?;
                Ok(Referent::Term(Term::Literal { lexical, datatype }))
            }
            _ => Err(NoMemory),
        },
        _ => Err(NoMemory),
    }
}

/// The referent of a node, where these meanings are kept.
fn refer(alloc: Global, vocabulary: &Vocabulary, kept: &KeptMeanings, node: Node) -> Mem<Referent>
    ensures { IfOk result (λ r. (all : List Meaning) → AreKept all kept.now
        → referent all node ≡ Some r) }
{
    match node {
        Node::Token(i) => match kept.meaning(i) {
            Some(meaning) => term_referent(alloc, meaning),
            None => Err(NoMemory),
        },
        Node::Tagged(i, k) => match kept.meaning(i) {
            Some(string) => match kept.meaning(k) {
                Some(tag) => tagged(alloc, string, tag),
                None => Err(NoMemory),
            },
            None => Err(NoMemory),
        },
        Node::Typed(i, k) => match kept.meaning(i) {
            Some(string) => match kept.meaning(k) {
                Some(datatype) => typed(alloc, string, datatype),
                None => Err(NoMemory),
            },
            None => Err(NoMemory),
        },
        Node::Unnamed(number) => Ok(Referent::Unnamed(number)),
        Node::Formula(index) => Ok(Referent::Formula(index)),
        Node::Nil => Ok(Referent::Term(Term::Iri(vocabulary.iri(alloc, Word::RdfNil)?))),
        Node::First => Ok(Referent::Term(Term::Iri(vocabulary.iri(alloc, Word::RdfFirst)?))),
        Node::Rest => Ok(Referent::Term(Term::Iri(vocabulary.iri(alloc, Word::RdfRest)?))),
    }
}

/// The referents of a triple's nodes, where these meanings are kept.
pub(crate) fn resolved(
    alloc: Global,
    vocabulary: &Vocabulary,
    kept: &KeptMeanings,
    triple: &SymbolicTriple,
) -> Mem<ResolvedTriple>
    ensures { IfOk result (λ r. (all : List Meaning) → AreKept all kept.now
        → IsResolved all triple.now r) }
{
    let subject = refer(alloc, vocabulary, kept, triple.subject)?;
    let predicate = refer(alloc, vocabulary, kept, triple.predicate)?;
    let object = refer(alloc, vocabulary, kept, triple.object)?;
    Ok(ResolvedTriple {
        subject,
        predicate,
        object,
        within: triple.within,
        end: triple.end,
    })
}
