//! The IRIs that Turtle's shorthands stand for.

ghost use Rattle.std.specs.Prelude.{◌≡◌, IfOk};
ghost use Rattle.turtle_terms.specs.Vocabulary.{word_text};
ghost use Rattle.turtle_terms.specs.declared.vocabulary.Word.TheVariants.{RdfType, RdfNil};
ghost use Rattle.turtle_terms.specs.declared.vocabulary.Word.TheVariants.{RdfFirst};
ghost use Rattle.turtle_terms.specs.declared.vocabulary.Word.TheVariants.{RdfRest, XsdString};
ghost use Rattle.turtle_terms.specs.declared.vocabulary.Word.TheVariants.{XsdInteger, XsdDecimal};
ghost use Rattle.turtle_terms.specs.declared.vocabulary.Word.TheVariants.{XsdDouble, XsdBoolean};

use iri_ref::{Iri, IriFault};
use pod_base::{Mem, NoMemory};
use rdf_graph::vocabulary::{
    RDF_FIRST, RDF_NIL, RDF_REST, RDF_TYPE, XSD_BOOLEAN, XSD_DECIMAL, XSD_DOUBLE, XSD_INTEGER,
    XSD_STRING,
};
use std::alloc::Global;

/// An IRI of RDF or XML Schema that a document may mean without writing it.
#[derive(Clone, Copy, Debug, PartialEq, Eq)]
pub enum Word {
    /// `a`.
    RdfType,
    /// `()`.
    RdfNil,
    RdfFirst,
    RdfRest,
    XsdString,
    XsdInteger,
    XsdDecimal,
    XsdDouble,
    XsdBoolean,
}

impl Word {
    /// The text of the word's IRI.
    pub fn text(self) -> &'static str
        ensures { result.now ≡ word_text self }
    {
        match self {
            Word::RdfType => RDF_TYPE,
            Word::RdfNil => RDF_NIL,
            Word::RdfFirst => RDF_FIRST,
            Word::RdfRest => RDF_REST,
            Word::XsdString => XSD_STRING,
            Word::XsdInteger => XSD_INTEGER,
            Word::XsdDecimal => XSD_DECIMAL,
            Word::XsdDouble => XSD_DOUBLE,
            Word::XsdBoolean => XSD_BOOLEAN,
        }
    }

    /// The word's IRI, in memory of its own.
    pub fn iri(self, alloc: Global) -> Mem<Iri>
        ensures { IfOk result (λ iri. iri ≡ word_text self) }
    {
        match Iri::read(alloc, self.text()) {
            Ok(iri) => Ok(iri),
            Err(_) => Err(NoMemory),
        }
    }
}

/// The IRIs of RDF, made once.
#[derive(Debug, Drop)]
struct RdfIris {
    rdf_type: Iri,
    nil: Iri,
    first: Iri,
    rest: Iri,
    ghost type_is: { rdf_type ≡ word_text RdfType },
    ghost nil_is: { nil ≡ word_text RdfNil },
    ghost first_is: { first ≡ word_text RdfFirst },
    ghost rest_is: { rest ≡ word_text RdfRest },
}

impl RdfIris {
    /// Makes the vocabulary's IRIs of RDF.
    fn new(alloc: Global) -> Mem<RdfIris> {
        let rdf_type = Word::RdfType.iri(alloc)?;
        let nil = Word::RdfNil.iri(alloc)?;
        let first = Word::RdfFirst.iri(alloc)?;
        let rest = Word::RdfRest.iri(alloc)?;
        Ok(RdfIris {
            rdf_type,
            nil,
            first,
            rest,
        })
    }
}

/// The datatypes of XML Schema, made once.
#[derive(Debug, Drop)]
struct XsdIris {
    string: Iri,
    integer: Iri,
    decimal: Iri,
    double: Iri,
    boolean: Iri,
    ghost string_is: { string ≡ word_text XsdString },
    ghost integer_is: { integer ≡ word_text XsdInteger },
    ghost decimal_is: { decimal ≡ word_text XsdDecimal },
    ghost double_is: { double ≡ word_text XsdDouble },
    ghost boolean_is: { boolean ≡ word_text XsdBoolean },
}

impl XsdIris {
    /// Makes the vocabulary's IRIs of XML Schema.
    fn new(alloc: Global) -> Mem<XsdIris> {
        let string = Word::XsdString.iri(alloc)?;
        let integer = Word::XsdInteger.iri(alloc)?;
        let decimal = Word::XsdDecimal.iri(alloc)?;
        let double = Word::XsdDouble.iri(alloc)?;
        let boolean = Word::XsdBoolean.iri(alloc)?;
        Ok(XsdIris {
            string,
            integer,
            decimal,
            double,
            boolean,
        })
    }
}

/// The IRIs of all words, made once. What [`Vocabulary::iri`] returns shares their memory.
#[derive(Debug, Drop)]
pub struct Vocabulary {
    rdf: RdfIris,
    xsd: XsdIris,
}

impl Vocabulary {
    /// Makes the IRIs of the vocabulary.
    pub fn new(alloc: Global) -> Mem<Vocabulary> {
        let rdf = RdfIris::new(alloc)?;
        let xsd = XsdIris::new(alloc)?;
        Ok(Vocabulary { rdf, xsd })
    }

    /// The vocabulary's IRI of a word, by reference.
    fn lent(&self, word: Word) -> &Iri
        ensures { result.now ≡ word_text word }
    {
        match word {
            Word::RdfType => &self.rdf.rdf_type,
            Word::RdfNil => &self.rdf.nil,
            Word::RdfFirst => &self.rdf.first,
            Word::RdfRest => &self.rdf.rest,
            Word::XsdString => &self.xsd.string,
            Word::XsdInteger => &self.xsd.integer,
            Word::XsdDecimal => &self.xsd.decimal,
            Word::XsdDouble => &self.xsd.double,
            Word::XsdBoolean => &self.xsd.boolean,
        }
    }

    /// The vocabulary's IRI of a word, which shares the memory of the others. It takes none.
    pub fn iri(&self, alloc: Global, word: Word) -> Mem<Iri>
        ensures { IfOk result (λ iri. iri ≡ word_text word) }
    {
        match self.lent(word).copy(alloc) {
            Ok(iri) => Ok(iri),
            Err(_) => Err(NoMemory),
        }
    }
}

/// The vocabulary's IRI of a word: shared, where a vocabulary is given.
pub(crate) fn word_iri(alloc: Global, shared: Option<&Vocabulary>, word: Word) -> Mem<Iri>
    ensures { IfOk result (λ iri. iri ≡ word_text word) }
{
    match shared {
        Some(vocabulary) => vocabulary.iri(alloc, word),
        None => word.iri(alloc),
    }
}
