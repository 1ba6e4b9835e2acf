//! The IRIs of RDF and of XML Schema that documents have words for.

ghost use Rattle.std.specs.Prelude.{◌≡◌, IfOk};
ghost use Rattle.jsonld_expanded.specs.Vocabulary.{rdf_first, rdf_nil, rdf_rest, rdf_type};
ghost use Rattle.jsonld_expanded.specs.Vocabulary.{xsd_boolean, xsd_integer, xsd_string};

use iri_ref::Iri;
use pod_base::{Mem, NoMemory};
use rdf_graph::vocabulary::{
    RDF_FIRST, RDF_NIL, RDF_REST, RDF_TYPE, XSD_BOOLEAN, XSD_INTEGER, XSD_STRING,
};
use std::alloc::Global;

/// The IRIs, each made once for a document.
#[derive(Drop)]
pub(crate) struct Words {
    pub(crate) kind: Iri,
    pub(crate) first: Iri,
    pub(crate) rest: Iri,
    pub(crate) nil: Iri,
    pub(crate) string: Iri,
    pub(crate) boolean: Iri,
    pub(crate) integer: Iri,

    ghost is_kind: { kind ≡ rdf_type },
    ghost is_first: { first ≡ rdf_first },
    ghost is_rest: { rest ≡ rdf_rest },
    ghost is_nil: { nil ≡ rdf_nil },
    ghost is_string: { string ≡ xsd_string },
    ghost is_boolean: { boolean ≡ xsd_boolean },
    ghost is_integer: { integer ≡ xsd_integer },
}

/// The IRI of a word in the vocabulary of JSON-LD, from its text.
fn word(alloc: Global, text: &str) -> Mem<Iri>
    ensures { IfOk result (λ iri. iri ≡ text.now) }
{
    match Iri::read(alloc, text) {
        Ok(iri) => Ok(iri),
        Err(_) => Err(NoMemory),
    }
}

/// The IRI `rdf:type` in the vocabulary of JSON-LD.
#[tactic(auto, unfolding(crate::specs::Vocabulary::rdf_type))]
fn rdf_type(alloc: Global) -> Mem<Iri>
    ensures { IfOk result (λ iri. iri ≡ rdf_type) }
{
    word(alloc, RDF_TYPE)
}

/// The IRI `rdf:first` in the vocabulary of JSON-LD.
#[tactic(auto, unfolding(crate::specs::Vocabulary::rdf_first))]
fn rdf_first(alloc: Global) -> Mem<Iri>
    ensures { IfOk result (λ iri. iri ≡ rdf_first) }
{
    word(alloc, RDF_FIRST)
}

/// The IRI `rdf:rest` in the vocabulary of JSON-LD.
#[tactic(auto, unfolding(crate::specs::Vocabulary::rdf_rest))]
fn rdf_rest(alloc: Global) -> Mem<Iri>
    ensures { IfOk result (λ iri. iri ≡ rdf_rest) }
{
    word(alloc, RDF_REST)
}

/// The IRI `rdf:nil` in the vocabulary of JSON-LD.
#[tactic(auto, unfolding(crate::specs::Vocabulary::rdf_nil))]
fn rdf_nil(alloc: Global) -> Mem<Iri>
    ensures { IfOk result (λ iri. iri ≡ rdf_nil) }
{
    word(alloc, RDF_NIL)
}

/// The IRI `xsd:string` in the vocabulary of JSON-LD.
#[tactic(auto, unfolding(crate::specs::Vocabulary::xsd_string))]
fn xsd_string(alloc: Global) -> Mem<Iri>
    ensures { IfOk result (λ iri. iri ≡ xsd_string) }
{
    word(alloc, XSD_STRING)
}

/// The IRI `xsd:boolean` in the vocabulary of JSON-LD.
#[tactic(auto, unfolding(crate::specs::Vocabulary::xsd_boolean))]
fn xsd_boolean(alloc: Global) -> Mem<Iri>
    ensures { IfOk result (λ iri. iri ≡ xsd_boolean) }
{
    word(alloc, XSD_BOOLEAN)
}

/// The IRI `xsd:integer` in the vocabulary of JSON-LD.
#[tactic(auto, unfolding(crate::specs::Vocabulary::xsd_integer))]
fn xsd_integer(alloc: Global) -> Mem<Iri>
    ensures { IfOk result (λ iri. iri ≡ xsd_integer) }
{
    word(alloc, XSD_INTEGER)
}

/// The IRIs of XML Schema in the vocabulary of JSON-LD: string, boolean, integer.
fn datatypes(alloc: Global) -> Mem<(Iri, Iri, Iri)>
    ensures string { IfOk result (λ w. w.0 ≡ xsd_string) }
    ensures boolean { IfOk result (λ w. w.1 ≡ xsd_boolean) }
    ensures integer { IfOk result (λ w. w.2 ≡ xsd_integer) }
{
    let string = xsd_string(alloc)?;
    let boolean = xsd_boolean(alloc)?;
    let integer = xsd_integer(alloc)?;
    Ok((string, boolean, integer))
}

impl Words {
    /// All the IRIs in the vocabulary of JSON-LD documents, of RDF and of XML Schema.
    pub(crate) fn new(alloc: Global) -> Mem<Words> {
        let (string, boolean, integer) = datatypes(alloc)?;
        let kind = rdf_type(alloc)?;
        let first = rdf_first(alloc)?;
        let rest = rdf_rest(alloc)?;
        let nil = rdf_nil(alloc)?;
        Ok(Words {
            kind,
            first,
            rest,
            nil,
            string,
            boolean,
            integer,
        })
    }
}
