//! The reading of an update.

ghost use Rattle.std.specs.Prelude.{◌≡◌, ◌≤◌, IfOk, IfErr, OnOk};
ghost use Rattle.rdf_graph.specs.declared.size.TheConstants.{TRIPLES_LIMIT};
ghost use Rattle.sparql_patch.specs.UpdateSpells.{Names, named_size};
ghost use Rattle.sparql_patch.specs.UpdateFaults.{HasNoFault, told_as};
ghost use Rattle.sparql_patch.specs.UpdateFaults.{IsSparqlFault, HasOnlyNamed};

use crate::collected_triples::Collected;
use crate::fault::SparqlFault;
use crate::named::Named;
use iri_ref::Iri;
use pod_base::List;
use rdf_graph::TRIPLES_LIMIT;
use std::alloc::Global;
use turtle_reader::walk;
use turtle_terms::TurtleFault;

/// A fault of syntax in an update as it is told: by its position alone.
fn syntax(fault: TurtleFault) -> SparqlFault
    ensures { result ≡ told_as fault }
{
    match fault {
        TurtleFault::Bad { at, .. } => SparqlFault::Syntax { at },
        TurtleFault::TooLarge { at } => SparqlFault::Syntax { at },
        TurtleFault::NoMemory => SparqlFault::NoMemory,
    }
}

/// Reads the triples that an update names, or its first fault.
fn read_named(alloc: Global, base: &Iri, bytes: &[u8]) -> Result<List<Named>, SparqlFault>
    ensures names { IfOk result (λ list. Names base.now bytes.now list.items) }
    ensures fits { IfOk result (λ list. named_size list.items ≤ TRIPLES_LIMIT) }
    ensures sound { OnOk result (HasNoFault base.now bytes.now) }
    ensures fault { IfErr result (IsSparqlFault base.now bytes.now) }
{
    let mut collected = Collected::new(alloc);
    match walk(alloc, base, bytes, &mut collected) {
        Err(fault) => Err(syntax(fault)),
        Ok(()) => {
            if collected.has_blank {
                Err(SparqlFault::Blank)
            } else if collected.size > TRIPLES_LIMIT {
                Err(SparqlFault::TooLarge)
            } else {
                Ok(collected.named)
            }
        }
    }
}

/// Reads the triples that an update of SPARQL data names, in order, each with the word before its
/// formula. Once they pass the limit on size none are kept beside those before, and the rest is
/// still checked.
///
/// # Errors
///
/// `Syntax` with the position of the first fault of syntax, by the position and then in the order
/// of `turtle_terms::TurtleKind`; else `Blank`, where a blank node stands in a formula; else
/// `TooLarge`, where the encoded triples, repeats included, are over `rdf_graph::TRIPLES_LIMIT`.
pub fn read(alloc: Global, base: &Iri, bytes: &[u8]) -> Result<List<Named>, SparqlFault>
    ensures names { IfOk result (λ list. Names base.now bytes.now list.items) }
    ensures fits { IfOk result (λ list. named_size list.items ≤ TRIPLES_LIMIT) }
    ensures sound { OnOk result (HasNoFault base.now bytes.now) }
    ensures fault { IfErr result (IsSparqlFault base.now bytes.now) }
    ensures only { HasOnlyNamed base.now bytes.now result }
{
    read_named(alloc, base, bytes)
}
