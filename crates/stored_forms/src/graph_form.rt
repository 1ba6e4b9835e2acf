//! The stored forms of terms, triples and graphs.
ghost use Rattle.std.specs.Prelude.{◌≡◌, ◌&&◌, ◌++◌, ◌∷◌, [], length, OnOk};
ghost use Rattle.std.specs.List.{list_all};
ghost use Rattle.rdf_graph.specs.Size.{saturated};
ghost use Rattle.rdf_graph.specs.Triple.{triple_cmp};
ghost use Rattle.stored_forms.specs.Readers.{Gives};
ghost use Rattle.stored_forms.specs.Reading.{graph_at, is_below_next, is_graph, is_rdf, is_rising};
ghost use Rattle.stored_forms.specs.Reading.{term_after, term_at, triple_at};
ghost use Rattle.stored_forms.specs.Storable.{IsStorableGraph, IsStorableTerm, IsStorableTriple};
ghost use Rattle.stored_forms.specs.StoredForms.{graph_bytes, term_bytes, triple_bytes};

use crate::list_form::{Stored, list_of, put_list};
use crate::primitive_reading::{byte_of, iri_of, text_of};
use crate::primitive_writing::{put_byte, put_iri, put_text};
use crate::read_back::ReadBack;
use pod_base::{List, Mem};
use rdf_graph::{Graph, Term, Triple};
use std::alloc::Global;

/// Appends the stored form of a graph's term.
#[tactic(auto, unfolding(crate::specs::StoredForms::term_bytes))]
pub(crate) fn put_term(out: &mut Vec<u8>, term: &Term) -> Mem<()>
    ensures form { OnOk result (out.new.items ≡ out.old.items ++ term_bytes term.now) }
    ensures storable { OnOk result (IsStorableTerm term.now) }
{
    match term {
        Term::Iri(iri) => {
            put_byte(out, 0)?;
            put_iri(out, iri)
        }
        Term::Blank(label) => {
            put_byte(out, 1)?;
            put_text(out, label)
        }
        Term::Literal { lexical, datatype } => {
            put_byte(out, 2)?;
            put_text(out, lexical)?;
            put_iri(out, datatype)
        }
        Term::Tagged { lexical, lang } => {
            put_byte(out, 3)?;
            put_text(out, lexical)?;
            put_text(out, lang)
        }
    }
}

/// The size of the stored form of a graph's term.
pub(crate) fn term_size(term: &Term) -> u64
    ensures { result ≡ saturated (length (term_bytes term.now)) }
{
    term.encoded_size()
}

/// Reads a graph's term from its stored form.
#[tactic(auto, unfolding(crate::specs::Reading::term_at))]
pub(crate) fn term_of(alloc: Global, bytes: &[u8]) -> Result<(Term, &[u8]), ReadBack>
    ensures { Gives (λ x. (x.0, x.1.now)) result (term_at bytes.now) }
{
    let (tag, rest) = byte_of(bytes)?;
    term_after(alloc, tag, rest)
}

/// Reads a graph's term from its stored form after the first byte.
#[tactic(auto, unfolding(crate::specs::Reading::term_after))]
fn term_after(alloc: Global, tag: u8, bytes: &[u8]) -> Result<(Term, &[u8]), ReadBack>
    ensures { Gives (λ x. (x.0, x.1.now)) result (term_after tag bytes.now) }
{
    match tag {
        0 => {
            let (iri, rest) = iri_of(alloc, bytes)?;
            Ok((Term::Iri(iri), rest))
        }
        1 => {
            let (label, rest) = text_of(alloc, bytes)?;
            Ok((Term::Blank(label), rest))
        }
        2 => {
            let (lexical, rest) = text_of(alloc, bytes)?;
            let (datatype, rest) = iri_of(alloc, rest)?;
            Ok((Term::Literal { lexical, datatype }, rest))
        }
        3 => {
            let (lexical, rest) = text_of(alloc, bytes)?;
            let (lang, rest) = text_of(alloc, rest)?;
            Ok((Term::Tagged { lexical, lang }, rest))
        }
        _ => Err(ReadBack::NotCanonical),
    }
}

/// Appends the stored form of a graph's triple.
#[tactic(auto, unfolding(crate::specs::StoredForms::triple_bytes))]
fn put_triple(out: &mut Vec<u8>, triple: &Triple) -> Mem<()>
    ensures form { OnOk result (out.new.items ≡ out.old.items ++ triple_bytes triple.now) }
    ensures storable { OnOk result (IsStorableTriple triple.now) }
{
    put_term(out, &triple.s)?;
    put_term(out, &triple.p)?;
    put_term(out, &triple.o)
}

/// Reads a graph's triple from its stored form.
#[tactic(auto, unfolding(crate::specs::Reading::triple_at))]
fn triple_of(alloc: Global, bytes: &[u8]) -> Result<(Triple, &[u8]), ReadBack>
    ensures { Gives (λ x. (x.0, x.1.now)) result (triple_at bytes.now) }
{
    let (s, rest) = term_of(alloc, bytes)?;
    let (p, rest) = term_of(alloc, rest)?;
    let (o, rest) = term_of(alloc, rest)?;
    Ok((Triple { s, p, o }, rest))
}

impl Stored for Triple {
    ghost use Rattle.stored_forms.specs.Reading.{triple_at};
    ghost use Rattle.stored_forms.specs.Storable.{IsStorableTriple};
    ghost use Rattle.stored_forms.specs.StoredForms.{triple_bytes};

    ghost form = { triple_bytes };

    ghost is_storable = { λ triple. IsStorableTriple triple };

    ghost fits = { λ triple. Unit {0} };

    ghost reads = { triple_at };

    const LEAST: usize = 27;

    fn size(&self) -> u64 {
        triple_size(self)
    }

    fn put(&self, out: &mut Vec<u8>) -> Mem<()> {
        put_triple(out, self)
    }

    fn read(alloc: Global, bytes: &[u8]) -> Result<(Triple, &[u8]), ReadBack> {
        triple_of(alloc, bytes)
    }
}

/// The size of the stored form of a graph's triple.
fn triple_size(triple: &Triple) -> u64
    ensures { result ≡ saturated (length (triple_bytes triple.now)) }
{
    triple.encoded_size()
}

/// Appends the stored form of a graph.
#[tactic(auto, unfolding(crate::specs::StoredForms::graph_bytes))]
pub(crate) fn put_graph(out: &mut Vec<u8>, graph: &Graph) -> Mem<()>
    ensures form { OnOk result (out.new.items ≡ out.old.items ++ graph_bytes graph.now) }
    ensures storable { OnOk result (IsStorableGraph graph.now) }
{
    put_list(out, graph.as_slice())
}

/// The size of a graph's stored form.
pub(crate) fn graph_size(graph: &Graph) -> u64
    ensures { result ≡ saturated (length (graph_bytes graph.now)) }
{
    graph.encoded_size()
}

/// Reads a graph from its stored form, whose triples are in their order.
#[tactic(auto, unfolding(crate::specs::Reading::graph_at))]
pub(crate) fn graph_of(alloc: Global, bytes: &[u8]) -> Result<(Graph, &[u8]), ReadBack>
    ensures { Gives (λ x. (x.0, x.1.now)) result (graph_at bytes.now) }
{
    let (triples, rest) = list_of(alloc, bytes)?;
    if !is_graph(triples.as_slice()) {
        return Err(ReadBack::NotCanonical);
    }
    Ok((Graph::in_order(List::from_vec(triples)), rest))
}

/// Whether triples that were read from a stored form are a graph's, triples of RDF of which each is
/// less than the next. triples of RDF, each less than the next.
#[tactic(auto, unfolding(crate::specs::Reading::is_graph))]
fn is_graph(triples: &[Triple]) -> bool
    ensures { result ≡ is_graph triples.now }
{
    are_rising(triples) && are_rdf(triples)
}

/// Whether triples that were read from a graph's stored form are triples of RDF.
fn are_rdf(triples: &[Triple]) -> bool
    ensures { result ≡ list_all is_rdf triples.now }
{
    triples.iter().all(|triple| is_rdf(triple))
}

/// Whether a triple that was read from a graph's stored form is one of RDF.
fn is_rdf(triple: &Triple) -> bool
    ensures { result ≡ is_rdf triple.now }
{
    triple.is_rdf()
}

/// Whether each triple that was read from a graph's stored form is less than the next.
fn are_rising(triples: &[Triple]) -> bool
    ensures { result ≡ is_rising triple_cmp triples.now }
{
    let mut rest = triples;
    while let Some((first, more)) = rest.split_first() {
        if !is_below_next(first, more) {
            return false;
        }
        rest = more;
    }
    true
}

/// Whether a triple that was read from a graph's stored form is less than the first of the others,
/// if there is one.
fn is_below_next(triple: &Triple, others: &[Triple]) -> bool
    ensures { result ≡ is_below_next triple_cmp triple.now others.now }
{
    match others.first() {
        Some(next) => triple.cmp(next).is_lt(),
        None => true,
    }
}
