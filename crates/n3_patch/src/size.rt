//! The size of a patch document, which is limited, and what its triples count while they are read.

ghost use Rattle.std.specs.Prelude.{◌≡◌, ◌<◌, ◌≤◌};
ghost use Rattle.std.specs.Bool.{OnTrue, OnFalse};
ghost use Rattle.rdf_graph.specs.Size.{saturated};
ghost use Rattle.rdf_graph.specs.declared.size.TheConstants.{TRIPLES_LIMIT};
ghost use Rattle.n3_patch.specs.Size.{node_size, nodes_size, counted_size, patch_size};

use crate::triples::{PatchNode, PatchTriple};
use rdf_graph::{TRIPLES_LIMIT, saturating_sum};

/// The most bytes that the triples of a patch document count: past it the parser is out of memory.
/// It is 8 times the limit of a document, so that the first broken rule of one that is too large is
/// still reported. A triple counts its encoded terms and [`TRIPLE_BYTES`], a variable counts as a
/// label, and a formula nothing.
pub const KEPT_BYTES_LIMIT: u64 = 67_108_864;

/// What a triple takes beside its terms, as one of the document and as a pattern. No document
/// within `rdf_graph::TRIPLES_LIMIT` passes [`KEPT_BYTES_LIMIT`] by it, but for triples whose
/// object is a formula, and for patterns of which almost all are of variables alone.
const TRIPLE_BYTES: u64 = 224;

/// The number as a size of a patch document.
#[tactic(auto, unfolding(rdf_graph::specs::Size::saturated))]
fn size_of(number: usize) -> u64
    ensures { result ≡ saturated number }
{
    number as u64
}

/// The size of a node of a patch document.
fn node_bytes(node: &PatchNode) -> u64
    ensures { result ≡ saturated (node_size node.now) }
{
    match node {
        PatchNode::Term(term) => term.encoded_size(),
        PatchNode::Variable(name) => {
            let text = saturating_sum(size_of(8), size_of(name.as_str().len()));
            saturating_sum(size_of(1), text)
        }
        PatchNode::Formula(_) => size_of(0),
    }
}

/// The size of the nodes of a patch document's triple.
fn nodes_bytes(triple: &PatchTriple) -> u64
    ensures { result ≡ saturated (nodes_size triple.now) }
{
    let rest = saturating_sum(node_bytes(&triple.predicate), node_bytes(&triple.object));
    saturating_sum(node_bytes(&triple.subject), rest)
}

/// The size that a triple counts while a patch document is read.
pub(crate) fn kept_bytes(triple: &PatchTriple) -> u64 {
    TRIPLE_BYTES.saturating_add(nodes_bytes(triple))
}

/// The size that a triple counts for that of the patch document.
fn counted_bytes(triple: &PatchTriple) -> u64
    ensures { result ≡ saturated (counted_size triple.now) }
{
    if triple.object.is_formula() {
        size_of(0)
    } else {
        nodes_bytes(triple)
    }
}

/// The size of a patch document.
fn document_bytes(triples: &[PatchTriple]) -> u64
    ensures { result ≡ saturated (patch_size triples.now) }
{
    let mut size = size_of(0);
    for triple in triples {
        size = saturating_sum(size, counted_bytes(triple));
    }
    size
}

/// Whether the size of a patch document is larger than the limit of a graph's.
#[tactic(auto, unfolding(rdf_graph::specs::Size::saturated))]
pub(crate) fn is_too_large(triples: &[PatchTriple]) -> bool
    ensures large { OnTrue result (TRIPLES_LIMIT < patch_size triples.now) }
    ensures small { OnFalse result (patch_size triples.now ≤ TRIPLES_LIMIT) }
{
    document_bytes(triples) > TRIPLES_LIMIT
}
