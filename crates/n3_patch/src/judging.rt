//! The patch of triples, or the first rule that they break.

ghost use Rattle.std.specs.Prelude.{◌≡◌, ◌<◌, ◌+◌, Some, IfOk, IfErr, OnOk};
ghost use Rattle.graph_patch.specs.Patch.{IsBound};
ghost use Rattle.n3_patch.specs.Parts.{IsPatchOf, first_typing};
ghost use Rattle.n3_patch.specs.Rules.{IsJudged, IsFaultOf, rank};
ghost use Rattle.n3_patch.specs.Progress.{KeepsBelow};

use crate::fault::{CONDITIONS_LIMIT, Judgement, PatchRule};
use crate::free_variables::is_bound;
use crate::patterns::part_patterns;
use crate::rules::{first_typing, is_broken};
use crate::size::is_too_large;
use crate::triples::{PatchNode, PatchTriple};
use crate::vocabulary::Part;
use graph_patch::Patch;
use pod_base::{Mem, NoMemory};
use std::alloc::Global;

/// The patch of a resource in a patch document, as it is judged.
fn patch_of(alloc: Global, resource: &PatchNode, triples: &[PatchTriple]) -> Mem<Patch>
    ensures { IfOk result (IsPatchOf resource.now triples.now) }
{
    let conditions = part_patterns(alloc, resource, Part::Where, triples)?;
    let deletions = part_patterns(alloc, resource, Part::Deletes, triples)?;
    let insertions = part_patterns(alloc, resource, Part::Inserts, triples)?;
    Ok(Patch {
        conditions,
        deletions,
        insertions,
    })
}

/// Judges the triples of a patch by this rule, where they keep those before it.
#[tactic(auto, using(crate::proofs::RuleLemmas::broken_first, crate::proofs::RuleLemmas::keep_more, crate::proofs::RuleLemmas::tested))]
fn keep(rule: PatchRule, typing: &PatchTriple, triples: &[PatchTriple]) -> Result<(), Judgement>
    requires tested { rank rule < 7 }
    requires found { first_typing triples.now ≡ Some typing.now }
    requires before { KeepsBelow triples.now (rank rule) }
    ensures kept { OnOk result (KeepsBelow triples.now (rank rule + 1)) }
    ensures fault { IfErr result (IsFaultOf triples.now) }
{
    if is_broken(rule, &typing.subject, triples) {
        Err(Judgement::Broken(rule))
    } else {
        Ok(())
    }
}

/// Judges the triples of a patch by the rules up to `BlankNode`.
fn keep_tests(typing: &PatchTriple, triples: &[PatchTriple]) -> Result<(), Judgement>
    requires { first_typing triples.now ≡ Some typing.now }
    ensures kept { OnOk result (KeepsBelow triples.now 7) }
    ensures fault { IfErr result (IsFaultOf triples.now) }
{
    keep(PatchRule::NoPatch, typing, triples)?;
    keep(PatchRule::ManyPatches, typing, triples)?;
    keep(PatchRule::Repeated, typing, triples)?;
    keep(PatchRule::NotFormula, typing, triples)?;
    keep(PatchRule::Stray, typing, triples)?;
    keep(PatchRule::Nested, typing, triples)?;
    keep(PatchRule::BlankNode, typing, triples)
}

/// Judges the patterns and the size of triples that keep the rules up to `BlankNode`, and returns
/// their patch.
#[tactic(auto, using(crate::proofs::RuleLemmas::keep_all))]
fn judge_patterns(
    alloc: Global,
    typing: &PatchTriple,
    triples: &[PatchTriple],
) -> Result<Patch, Judgement>
    requires found { first_typing triples.now ≡ Some typing.now }
    requires before { KeepsBelow triples.now 7 }
    ensures patch { IfOk result (IsJudged triples.now) }
    ensures bound { IfOk result IsBound }
    ensures fault { IfErr result (IsFaultOf triples.now) }
{
    match patch_of(alloc, &typing.subject, triples) {
        Err(NoMemory) => Err(Judgement::NoMemory),
        Ok(patch) => match is_bound(alloc, &patch) {
            Err(NoMemory) => Err(Judgement::NoMemory),
            Ok(bound) => {
                if !bound {
                    Err(Judgement::Broken(PatchRule::FreeVariable))
                } else if patch.conditions.len() > CONDITIONS_LIMIT {
                    Err(Judgement::Broken(PatchRule::TooManyConditions))
                } else if is_too_large(triples) {
                    Err(Judgement::TooLarge)
                } else {
                    Ok(patch)
                }
            }
        },
    }
}

/// Judges the triples of a document, and returns their patch, else the first rule that they break,
/// in the order of [`PatchRule`], else `TooLarge`, where their size is over
/// `rdf_graph::TRIPLES_LIMIT`.
pub fn judge(alloc: Global, triples: &[PatchTriple]) -> Result<Patch, Judgement>
    ensures patch { IfOk result (IsJudged triples.now) }
    ensures bound { IfOk result IsBound }
    ensures fault { IfErr result (IsFaultOf triples.now) }
{
    let Some(typing) = first_typing(triples) else {
        return Err(Judgement::Broken(PatchRule::NoPatch));
    };
    match keep_tests(typing, triples) {
        Err(fault) => Err(fault),
        Ok(()) => judge_patterns(alloc, typing, triples),
    }
}
