//! The document of a graph.

ghost use Rattle.std.specs.Prelude.{◌≡◌, ◌≤◌, ℕ, List, [], All, IfOk};
ghost use Rattle.rdf_graph.specs.Size.{triples_size};
ghost use Rattle.rdf_graph.specs.declared.size.TheConstants.{TRIPLES_LIMIT};
ghost use Rattle.jsonld_expanded.specs.Outcomes.{IsDocumentOf};
ghost use Rattle.jsonld_expanded.specs.Document.{document_text};
ghost use Rattle.jsonld_expanded.specs.ReadsBack.{GraphReadsBack};
ghost use Rattle.jsonld_expanded.specs.Written.{HasAbsoluteIris, IsDocumentText};

use crate::node_writing::put_document;
use crate::token_writing::into_bytes;
use crate::written_len::document_len;
use json::Writer;
use pod_base::{Bytes, Mem};
use rdf_graph::{Graph, Triple};
use std::alloc::Global;

/// A writer of a document, with room for so many bytes and for the comma that it expects after each
/// token.
fn writer_for(alloc: Global, len: u64) -> Mem<Writer>
    ensures before { IfOk result (λ writer. writer.before ≡ []) }
    ensures tokens { IfOk result (λ writer. writer.tokens ≡ []) }
{
    let room = usize::try_from(len.saturating_add(1)).unwrap_or(usize::MAX);
    Ok(Writer::new(Vec::with_capacity(alloc, room)?))
}

/// The text of a graph's triples as a document of expanded JSON-LD.
fn write_triples(alloc: Global, triples: &[Triple], len: u64) -> Mem<Bytes>
    ensures { IfOk result (IsDocumentText triples.now) }
{
    let mut writer = writer_for(alloc, len)?;
    put_document(alloc, &mut writer, triples)?;
    into_bytes(alloc, writer)
}

/// The text of a graph as expanded JSON-LD, without blanks: an array with a node object for each
/// subject, in the order of the graph.
///
/// `@id` names the subject. `@type` has its types that are IRIs or blank nodes. Each other key is
/// the IRI of a predicate, with an array of its objects in the order of the triples. The keys are
/// in byte order.
pub fn write(alloc: Global, graph: &Graph) -> Mem<Bytes>
    ensures text { IfOk result (λ bytes. bytes ≡ document_text graph.now) }

    // The text is read as the graph, for every base.
    ensures reads_back { IfOk result (λ bytes. (base : List ℕ) → GraphReadsBack graph.now
        → triples_size graph.now ≤ TRIPLES_LIMIT → IsDocumentOf base bytes graph.now) }
{
    let triples = graph.as_slice();
    let len = document_len(alloc, triples)?;
    write_triples(alloc, triples, len)
}
