//! Parses patch documents.

ghost use Rattle.std.specs.Prelude.{◌≡◌, ◌≢◌, IfOk, IfErr, OnOk};
ghost use Rattle.graph_patch.specs.Patch.{IsBound};
ghost use Rattle.turtle_terms.specs.declared.fault.TurtleFault.TheVariants.{NoMemory as NoMemoryFault};
ghost use Rattle.turtle_grammar.specs.declared.symbol.Start.TheVariants as start_of;
ghost use Rattle.turtle_reader.specs.LanguageFaults.{IsFirstSyntaxFault};
ghost use Rattle.n3_patch.specs.Faults.{HasNoFault, HasOnlyPatch, IsN3Fault, told_as};
ghost use Rattle.n3_patch.specs.Spells.{PatchSpells, SpellsTriples};

use crate::collected_triples::Made;
use crate::fault::{Judgement, N3Fault};
use crate::judging::judge;
use crate::triples::PatchTriple;
use graph_patch::Patch;
use iri_ref::Iri;
use pod_base::List;
use std::alloc::Global;
use turtle_reader::walk;
use turtle_terms::TurtleFault;

/// Reads the triples of a patch document, in order of production.
#[tactic(auto, using(crate::proofs::Meant::spells_kept))]
fn read_triples(alloc: Global, base: &Iri, bytes: &[u8]) -> Result<List<PatchTriple>, TurtleFault>
    ensures spells { IfOk result (λ list. SpellsTriples base.now bytes.now list.items) }
    ensures sound { OnOk result (HasNoFault base.now bytes.now) }
    ensures fault { IfErr result (λ fault. fault ≢ NoMemoryFault
        → IsFirstSyntaxFault start_of.Patch base.now bytes.now fault) }
{
    let mut made = Made::new(alloc);
    walk(alloc, base, bytes, &mut made)?;
    Ok(made.list)
}

/// A fault of syntax in a patch document as it is reported: by its position alone.
fn syntax(fault: TurtleFault) -> N3Fault
    ensures { result ≡ told_as fault }
{
    match fault {
        TurtleFault::Bad { at, .. } => N3Fault::Syntax { at },
        TurtleFault::TooLarge { at } => N3Fault::Syntax { at },
        TurtleFault::NoMemory => N3Fault::NoMemory,
    }
}

/// Reads the patch that the bytes of a patch document parse to, or their first fault.
fn read_patch(alloc: Global, base: &Iri, bytes: &[u8]) -> Result<Patch, N3Fault>
    ensures spells { IfOk result (PatchSpells base.now bytes.now) }
    ensures sound { OnOk result (HasNoFault base.now bytes.now) }
    ensures bound { IfOk result IsBound }
    ensures fault { IfErr result (IsN3Fault base.now bytes.now) }
{
    match read_triples(alloc, base, bytes) {
        Err(fault) => Err(syntax(fault)),
        Ok(triples) => match judge(alloc, triples.as_slice()) {
            Ok(patch) => Ok(patch),
            Err(Judgement::Broken(rule)) => Err(N3Fault::Constraint(rule)),
            Err(Judgement::TooLarge) => Err(N3Fault::TooLarge),
            Err(Judgement::NoMemory) => Err(N3Fault::NoMemory),
        },
    }
}

/// Reads the patch that the bytes of an N3 Patch document parse to under a base IRI.
///
/// # Errors
///
/// `Syntax` with the position of the first fault of syntax, by the position and then in the order
/// of `turtle_terms::TurtleKind`; else `Constraint` with the first rule that is broken; else
/// `TooLarge`. There is one exactly where the bytes parse to no patch, or brackets are too deep.
#[tactic(auto, using(crate::proofs::OneAnswer::only))]
pub fn read(alloc: Global, base: &Iri, bytes: &[u8]) -> Result<Patch, N3Fault>
    ensures spells { IfOk result (PatchSpells base.now bytes.now) }
    ensures sound { OnOk result (HasNoFault base.now bytes.now) }
    ensures bound { IfOk result IsBound }
    ensures fault { IfErr result (IsN3Fault base.now bytes.now) }
    ensures only { HasOnlyPatch base.now bytes.now result }
{
    read_patch(alloc, base, bytes)
}
