//! Node objects.

ghost use Rattle.std.specs.Prelude.{◌≡◌, ◌<◌, ◌≤◌, ◌∷◌, length, map, take, drop, slice_index_or};
ghost use Rattle.std.specs.Prelude.{◌-◌, OnOk, [], codes};
ghost use Rattle.json.specs.Token as token;
ghost use Rattle.rdf_graph.specs.declared.triple.Triple.{Triple};
ghost use Rattle.jsonld_expanded.specs.Document.{document, key_below, name_of, node_object, same_key};
ghost use Rattle.jsonld_expanded.specs.Document.{same_subject};
ghost use Rattle.jsonld_expanded.specs.Runs.{runs};
ghost use Rattle.jsonld_expanded.specs.Sorted.{sorted};
ghost use Rattle.jsonld_expanded.specs.Written.{Adds, nodes_tokens, object_tokens, properties_tokens};
ghost use Rattle.jsonld_expanded.specs.Written.{property_tokens, tokens_of};

use crate::key_order::{by_key, key_run};
use crate::term_prefetch::read_ahead;
use crate::token_writing::{begin_array, begin_object, end_array, end_object, put_key};
use crate::value_writing::{key_of, put_name, put_object};
use json::Writer;
use pod_base::Mem;
use rdf_graph::{Term, Triple};
use std::alloc::Global;

/// Writes the objects of a node object's triples under one key.
fn put_objects(alloc: Global, writer: &mut Writer, triples: &[&Triple]) -> Mem<()>
    ensures { OnOk result
        (Adds writer.old writer.new (object_tokens (map (λ r. r.now) triples.now))) }
{
    for triple in triples {
        put_object(alloc, writer, triple)?;
    }
    Ok(())
}

/// Writes a key of a node object, with the objects of its triples.
fn put_property(alloc: Global, writer: &mut Writer, triples: &[&Triple]) -> Mem<()>
    requires { 0 < length triples.now }
    ensures { OnOk result
        (Adds writer.old writer.new (property_tokens (map (λ r. r.now) triples.now))) }
{
    put_key(writer, key_of(triples[0]))?;
    begin_array(writer)?;
    put_objects(alloc, writer, triples)?;
    end_array(writer)
}

/// Writes the keys of a node object, with the objects of their triples.
fn put_properties(alloc: Global, writer: &mut Writer, triples: &[&Triple]) -> Mem<()>
    ensures { OnOk result (Adds writer.old writer.new
        (properties_tokens (runs same_key (map (λ r. r.now) triples.now)))) }
{
    let mut at = 0;
    while at < triples.len() {
        let rest = &triples[at..];
        let run = key_run(rest);
        put_property(alloc, writer, &rest[..run])?;
        at += run;
    }
    Ok(())
}

/// Writes the keys of a subject's node object in their order, with the objects of its triples.
fn put_sorted(alloc: Global, writer: &mut Writer, triples: &[Triple]) -> Mem<()>
    ensures { OnOk result (Adds writer.old writer.new
        (properties_tokens (runs same_key (sorted key_below triples.now)))) }
{
    let refs = by_key(alloc, triples)?;
    put_properties(alloc, writer, refs.as_slice())
}

/// Writes the beginning of a node object, up to its name.
fn begin_node(alloc: Global, writer: &mut Writer, subject: &Term) -> Mem<()>
    ensures { OnOk result (Adds writer.old writer.new (token.begin_object
        ∷ token.key (codes "@id") ∷ token.string (name_of subject.now) ∷ [])) }
{
    begin_object(writer)?;
    put_key(writer, "@id")?;
    put_name(alloc, writer, subject)
}

/// Writes the node object of a subject.
fn put_node(alloc: Global, writer: &mut Writer, triples: &[Triple]) -> Mem<()>
    requires { 0 < length triples.now }
    ensures { OnOk result (Adds writer.old writer.new (tokens_of (node_object triples.now))) }
{
    begin_node(alloc, writer, &triples[0].s)?;
    put_sorted(alloc, writer, triples)?;
    end_object(writer)
}

/// Whether the triple at this position is of the same node object as the one before it, by its
/// subject.
fn has_same_subject(triples: &[Triple], at: usize) -> bool
    requires some { 0 < at }
    requires within { at < length triples.now }
    ensures { (d : Triple) → result ≡ same_subject
        (slice_index_or triples.now (at - 1) d) (slice_index_or triples.now at d) }
{
    triples[at - 1].s == triples[at].s
}

/// How many of the triples, from the first on, are of the first one's node object, by their
/// subject.
pub(crate) fn subject_run(triples: &[Triple]) -> usize
    requires { 0 < length triples.now }
    ensures some { 0 < result }
    ensures within { result ≤ length triples.now }
    ensures run { runs same_subject triples.now
        ≡ take result triples.now ∷ runs same_subject (drop result triples.now) }
{
    let mut len = 1;
    while len < triples.len() {
        if !has_same_subject(triples, len) {
            return len;
        }
        len += 1;
    }
    len
}

/// Writes the node objects of the triples.
fn put_nodes(alloc: Global, writer: &mut Writer, triples: &[Triple]) -> Mem<()>
    ensures { OnOk result
        (Adds writer.old writer.new (nodes_tokens (runs same_subject triples.now))) }
{
    let mut at = 0;
    let mut ahead = 0;
    while at < triples.len() {
        ahead = read_ahead(triples, at, ahead);
        let rest = &triples[at..];
        let run = subject_run(rest);
        put_node(alloc, writer, &rest[..run])?;
        at += run;
    }
    Ok(())
}

/// Writes the document, which is the array of node objects.
pub(crate) fn put_document(alloc: Global, writer: &mut Writer, triples: &[Triple]) -> Mem<()>
    ensures { OnOk result (Adds writer.old writer.new (tokens_of (document triples.now))) }
{
    begin_array(writer)?;
    put_nodes(alloc, writer, triples)?;
    end_array(writer)
}
