//! Terms as values.

ghost use Rattle.std.specs.Prelude.{◌≡◌, ◌∷◌, [], ◌++◌, codes, string_bytes, IfOk, OnOk};
ghost use Rattle.std.specs.Str.{bytes_eq};
ghost use Rattle.json.specs.Token as token;
ghost use Rattle.jsonld_expanded.specs.Vocabulary.{rdf_type, xsd_string};
ghost use Rattle.jsonld_expanded.specs.Document.{iri_of, is_named, is_type, key_of, name_of};
ghost use Rattle.jsonld_expanded.specs.Document.{named_value, object_of, string_value, tagged_value};
ghost use Rattle.jsonld_expanded.specs.Document.{typed_value, value_of};
ghost use Rattle.jsonld_expanded.specs.Written.{Adds, tokens_of};

use crate::token_writing::{begin_object, end_object, put_key, put_member, put_string};
use json::Writer;
use pod_base::Mem;
use rdf_graph::vocabulary::{RDF_TYPE, XSD_STRING};
use rdf_graph::{Term, Triple};
use std::alloc::Global;

/// The name of a blank node as a value is written with it: `_:` and the label.
fn blank_name(alloc: Global, label: &str) -> Mem<String>
    ensures { IfOk result (λ name. string_bytes name ≡ codes "_:" ++ label.now) }
{
    let mut name = String::with_capacity(alloc, label.len().saturating_add(2))?;
    name.push_str("_:")?;
    name.push_str(label)?;
    Ok(name)
}

/// Writes the name of a blank node as a string.
fn put_blank(alloc: Global, writer: &mut Writer, label: &str) -> Mem<()>
    ensures { OnOk result
        (Adds writer.old writer.new (token.string (codes "_:" ++ label.now) ∷ [])) }
{
    let name = blank_name(alloc, label)?;
    put_string(writer, name.as_str())
}

/// Writes the name of a node as a string.
pub(crate) fn put_name(alloc: Global, writer: &mut Writer, term: &Term) -> Mem<()>
    ensures { OnOk result (Adds writer.old writer.new (token.string (name_of term.now) ∷ [])) }
{
    match term {
        Term::Iri(iri) => put_string(writer, iri.as_str()),
        Term::Blank(label) => put_blank(alloc, writer, label.as_str()),
        Term::Literal { .. } => put_string(writer, ""),
        Term::Tagged { .. } => put_string(writer, ""),
    }
}

/// Writes a value that is a node object with nothing but its name.
fn put_named(alloc: Global, writer: &mut Writer, term: &Term) -> Mem<()>
    ensures { OnOk result
        (Adds writer.old writer.new (tokens_of (named_value (name_of term.now)))) }
{
    begin_object(writer)?;
    put_key(writer, "@id")?;
    put_name(alloc, writer, term)?;
    end_object(writer)
}

/// Writes the value of a literal that is a plain string.
fn put_plain(writer: &mut Writer, lexical: &str) -> Mem<()>
    ensures { OnOk result (Adds writer.old writer.new (tokens_of (string_value lexical.now))) }
{
    begin_object(writer)?;
    put_member(writer, "@value", lexical)?;
    end_object(writer)
}

/// Writes the value of a literal with a datatype.
fn put_typed(writer: &mut Writer, lexical: &str, datatype: &str) -> Mem<()>
    ensures { OnOk result
        (Adds writer.old writer.new (tokens_of (typed_value lexical.now datatype.now))) }
{
    begin_object(writer)?;
    put_member(writer, "@type", datatype)?;
    put_member(writer, "@value", lexical)?;
    end_object(writer)
}

/// Writes the value of a literal with a language tag.
fn put_tagged(writer: &mut Writer, lexical: &str, lang: &str) -> Mem<()>
    ensures { OnOk result
        (Adds writer.old writer.new (tokens_of (tagged_value lexical.now lang.now))) }
{
    begin_object(writer)?;
    put_member(writer, "@language", lang)?;
    put_member(writer, "@value", lexical)?;
    end_object(writer)
}

/// Whether a literal of this datatype is written as a value without it.
#[tactic(auto, unfolding(crate::specs::Vocabulary::xsd_string))]
pub(crate) fn is_string(datatype: &str) -> bool
    ensures { result ≡ bytes_eq datatype.now xsd_string }
{
    datatype == XSD_STRING
}

/// Writes a term as a value.
fn put_value(alloc: Global, writer: &mut Writer, term: &Term) -> Mem<()>
    ensures { OnOk result (Adds writer.old writer.new (tokens_of (value_of term.now))) }
{
    match term {
        Term::Iri(_iri) => put_named(alloc, writer, term),
        Term::Blank(_label) => put_named(alloc, writer, term),
        Term::Literal { lexical, datatype } => {
            if is_string(datatype.as_str()) {
                put_plain(writer, lexical.as_str())
            } else {
                put_typed(writer, lexical.as_str(), datatype.as_str())
            }
        }
        Term::Tagged { lexical, lang } => put_tagged(writer, lexical.as_str(), lang.as_str()),
    }
}

/// The IRI of a predicate, as values are written under it.
fn iri_of(term: &Term) -> &str
    ensures { result.now ≡ iri_of term.now }
{
    match term {
        Term::Iri(iri) => iri.as_str(),
        Term::Blank(_) => "",
        Term::Literal { .. } => "",
        Term::Tagged { .. } => "",
    }
}

/// Whether a term is written with a name, as an IRI or a blank node.
fn is_named(term: &Term) -> bool
    ensures { result ≡ is_named term.now }
{
    match term {
        Term::Iri(_) => true,
        Term::Blank(_) => true,
        Term::Literal { .. } => false,
        Term::Tagged { .. } => false,
    }
}

/// Whether the predicate of this IRI says types, so that its values are written in `@type`.
#[tactic(auto, unfolding(crate::specs::Vocabulary::rdf_type))]
fn says_types(predicate: &str) -> bool
    ensures { result ≡ bytes_eq predicate.now rdf_type }
{
    predicate == RDF_TYPE
}

/// Whether the triple's object is a value that is written in `@type`.
pub(crate) fn is_type(triple: &Triple) -> bool
    ensures { result ≡ is_type triple.now }
{
    says_types(iri_of(&triple.p)) && is_named(&triple.o)
}

/// The key under which the triple's object is written as a value.
pub(crate) fn key_of(triple: &Triple) -> &str
    ensures { result.now ≡ key_of triple.now }
{
    if is_type(triple) {
        "@type"
    } else {
        iri_of(&triple.p)
    }
}

/// Writes the triple's object as a value, as it is under its key.
pub(crate) fn put_object(alloc: Global, writer: &mut Writer, triple: &Triple) -> Mem<()>
    ensures { OnOk result (Adds writer.old writer.new (tokens_of (object_of triple.now))) }
{
    if is_type(triple) {
        put_name(alloc, writer, &triple.o)
    } else {
        put_value(alloc, writer, &triple.o)
    }
}
