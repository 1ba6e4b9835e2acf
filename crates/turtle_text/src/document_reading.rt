//! The reading of a whole document.

ghost use Rattle.std.specs.Prelude.{◌≢◌, IfOk, IfErr, OnOk};
ghost use Rattle.std.specs.List.{All};
ghost use Rattle.rdf_graph.specs.Triple.{IsRdf};
ghost use Rattle.turtle_terms.specs.declared.fault.TurtleFault.TheVariants.{NoMemory as NoMemoryFault};
ghost use Rattle.turtle_text.specs.Faults.{HasNoFault, IsFirstFault, HasOnlyGraph};
ghost use Rattle.turtle_text.specs.Spells.{Spells, SpellsTriples};

use crate::document_triples::Triples;
use iri_ref::Iri;
use pod_base::List;
use rdf_graph::{Graph, Triple};
use std::alloc::Global;
use turtle_reader::walk;
use turtle_terms::TurtleFault;

/// Reads the triples of a Turtle document, in order of production.
fn read_triples(alloc: Global, base: &Iri, bytes: &[u8]) -> Result<List<Triple>, TurtleFault>
    ensures spells { IfOk result (λ list. SpellsTriples base.now bytes.now list.items) }
    ensures rdf { IfOk result (λ list. All IsRdf list.items) }
    ensures sound { OnOk result (HasNoFault base.now bytes.now) }
    ensures fault { IfErr result (λ fault. fault ≢ NoMemoryFault
        → IsFirstFault base.now bytes.now fault) }
{
    let mut triples = Triples::new(alloc);
    match walk(alloc, base, bytes, &mut triples) {
        Ok(()) => Ok(triples.list),
        Err(fault) => Err(fault),
    }
}

/// Reads the graph that the bytes of a Turtle document spell under a base.
///
/// # Errors
///
/// The first fault of the bytes, by the position and then in the order `NotText`, `BadToken`,
/// `Grammar`, `Prefix`, `BadIri`, `Depth`, `TooLarge`. There is one exactly where the bytes spell
/// no graph, or brackets are too deep or the triples too large.
pub fn read(alloc: Global, base: &Iri, bytes: &[u8]) -> Result<Graph, TurtleFault>
    ensures spells { IfOk result (Spells base.now bytes.now) }
    ensures sound { OnOk result (HasNoFault base.now bytes.now) }
    ensures fault { IfErr result (λ fault. fault ≢ NoMemoryFault
        → IsFirstFault base.now bytes.now fault) }
    ensures only { HasOnlyGraph base.now bytes.now result }
{
    let triples = read_triples(alloc, base, bytes)?;
    Ok(Graph::of(triples))
}
