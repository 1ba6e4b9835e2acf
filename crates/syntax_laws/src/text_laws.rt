//! The texts of a graph's terms: they are UTF-8, and IRIs have no forbidden character, by the types
//! of terms.

ghost use Rattle.std.specs.Str.{IsUtf8};
ghost use Rattle.rdf_graph.specs.Graph.{IsGraph};
ghost use Rattle.syntax_laws.specs.ReadBack.{IsIriText, HasTexts, TripleHasTexts, GraphHasTexts};

use iri_ref::Iri;
use pod_base::Text;
use rdf_graph::{Graph, Term, Triple};

/// The law that each text is UTF-8, by its type.
fn utf8(text: &str)
    ensures { IsUtf8 text.now }
{
    let _text = text;
}

/// The law that the text of each IRI has no forbidden character, by its type.
fn iri_text(iri: &Iri)
    ensures { IsIriText iri.now }
{
    utf8(iri.as_str())
}

/// The law that the text of each label or lexical form is UTF-8, by its type.
fn text_of(text: &Text)
    ensures { IsUtf8 text.now }
{
    utf8(text.as_str())
}

/// The law that the texts of each literal are UTF-8, and that of its datatype an IRI's.
fn literal_texts(lexical: &Text, datatype: &Iri)
    ensures lexical { IsUtf8 lexical.now }
    ensures datatype { IsIriText datatype.now }
{
    text_of(lexical);
    iri_text(datatype)
}

/// The law that each term has the texts that its type allows.
fn term_texts(term: &Term)
    ensures { HasTexts term.now }
{
    match term {
        Term::Iri(iri) => iri_text(iri),
        Term::Blank(_) => {}
        Term::Literal { lexical, datatype } => literal_texts(lexical, datatype),
        Term::Tagged { lexical, .. } => text_of(lexical),
    }
}

/// The law that each term of a triple has the texts that its type allows.
fn triple_texts(triple: &Triple)
    ensures { TripleHasTexts triple.now }
{
    term_texts(&triple.s);
    term_texts(&triple.p);
    term_texts(&triple.o)
}

/// The law that each term of a list of triples has the texts that its type allows.
fn list_texts(triples: &[Triple])
    ensures { GraphHasTexts triples.now }
{
    for triple in triples {
        triple_texts(triple);
    }
}

/// The law that each term of a graph has the texts that its type allows.
pub(crate) fn graph_texts(graph: &Graph)
    ensures graph { IsGraph graph.now }
    ensures texts { GraphHasTexts graph.now }
{
    list_texts(graph.as_slice())
}
