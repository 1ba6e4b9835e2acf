//! The rules of a patch document, each as a test of its triples.

ghost use Rattle.std.specs.Prelude.{◌≡◌};
ghost use Rattle.std.specs.List.{find, list_any};
ghost use Rattle.std.specs.Option.{option_copied};
ghost use Rattle.n3_patch.specs.Parts.{is_typing, first_typing, gives_part, gives_formula};
ghost use Rattle.n3_patch.specs.Rules.{has_two, is_repeated, gives_any};
ghost use Rattle.n3_patch.specs.Progress.{breaks, is_broken};

use crate::fault::PatchRule;
use crate::triples::{PatchNode, PatchTriple};
use crate::vocabulary::{Part, SOLID_INSERT_DELETE_PATCH};
use rdf_graph::vocabulary::RDF_TYPE;

/// Whether the triple types its subject as a patch, by the rules of a patch document.
pub(crate) fn is_typing(triple: &PatchTriple) -> bool
    ensures { result ≡ is_typing triple.now }
{
    !triple.is_inside()
        && (triple.predicate.is_iri(RDF_TYPE) && triple.object.is_iri(SOLID_INSERT_DELETE_PATCH))
}

/// The first triple that types its subject as a patch, by the rules of a patch document.
pub(crate) fn first_typing(triples: &[PatchTriple]) -> Option<&PatchTriple>
    ensures { option_copied result ≡ first_typing triples.now }
{
    triples.iter().find(|triple| is_typing(triple))
}

/// Whether the triple gives the resource this part, by the rules of a patch document.
fn gives_part(resource: &PatchNode, part: Part, triple: &PatchTriple) -> bool
    ensures { result ≡ gives_part resource.now part triple.now }
{
    !triple.is_inside() && (resource.is(&triple.subject) && triple.predicate.is_iri(part.iri()))
}

/// Whether the triple gives the resource's part a formula, by the rules of a patch document.
fn gives_formula(resource: &PatchNode, part: Part, triple: &PatchTriple) -> bool
    ensures { result ≡ gives_formula resource.now part triple.now }
{
    gives_part(resource, part, triple) && triple.object.is_formula()
}

/// The first triple that gives the resource's part a formula, by the rules of a patch document.
pub(crate) fn first_formula<'a>(
    resource: &PatchNode,
    part: Part,
    triples: &'a [PatchTriple],
) -> Option<&'a PatchTriple>
    ensures { option_copied result ≡ find (gives_formula resource.now part) triples.now }
{
    triples
        .iter()
        .find(|triple| gives_formula(resource, part, triple))
}

/// Whether some triple gives the resource's part a formula, by the rules of a patch document.
fn has_formula(resource: &PatchNode, part: Part, triples: &[PatchTriple]) -> bool
    ensures { result ≡ list_any (gives_formula resource.now part) triples.now }
{
    triples
        .iter()
        .any(|triple| gives_formula(resource, part, triple))
}

/// Whether the triples break a rule since the part has two formulas.
fn has_two(resource: &PatchNode, part: Part, triples: &[PatchTriple]) -> bool
    ensures { result ≡ has_two (gives_formula resource.now part) triples.now }
{
    let mut left = triples;
    while let Some((first, rest)) = left.split_first() {
        if gives_formula(resource, part, first) {
            return has_formula(resource, part, rest);
        }
        left = rest;
    }
    false
}

/// Whether the triples break a rule since the resource has two formulas for some part.
fn is_repeated(resource: &PatchNode, triples: &[PatchTriple]) -> bool
    ensures { result ≡ is_repeated resource.now triples.now }
{
    has_two(resource, Part::Where, triples)
        || (has_two(resource, Part::Deletes, triples) || has_two(resource, Part::Inserts, triples))
}

/// Whether the triple gives the resource some part, by the rules of a patch document.
fn gives_any(resource: &PatchNode, triple: &PatchTriple) -> bool
    ensures { result ≡ gives_any resource.now triple.now }
{
    gives_part(resource, Part::Where, triple)
        || (gives_part(resource, Part::Deletes, triple)
            || gives_part(resource, Part::Inserts, triple))
}

/// Whether the triple breaks this rule of a patch document, if it is a rule of single triples.
fn breaks(rule: PatchRule, resource: &PatchNode, triple: &PatchTriple) -> bool
    ensures { result ≡ breaks rule resource.now triple.now }
{
    match rule {
        PatchRule::ManyPatches => is_typing(triple) && !resource.is(&triple.subject),
        PatchRule::NotFormula => gives_any(resource, triple) && !triple.object.is_formula(),
        PatchRule::Stray => {
            !triple.is_inside() && (triple.object.is_formula() && !gives_any(resource, triple))
        }
        PatchRule::Nested => triple.is_inside() && triple.object.is_formula(),
        PatchRule::BlankNode => {
            triple.is_inside()
                && (triple.subject.is_blank()
                    || (triple.predicate.is_blank() || triple.object.is_blank()))
        }
        _ => false,
    }
}

/// Whether some triple breaks this rule of a patch document, if it is a rule of single triples.
fn any_breaks(rule: PatchRule, resource: &PatchNode, triples: &[PatchTriple]) -> bool
    ensures { result ≡ list_any (breaks rule resource.now) triples.now }
{
    triples.iter().any(|triple| breaks(rule, resource, triple))
}

/// Whether the triples break this rule of a patch document, if it is one up to `BlankNode`.
pub(crate) fn is_broken(rule: PatchRule, resource: &PatchNode, triples: &[PatchTriple]) -> bool
    ensures { result ≡ is_broken rule resource.now triples.now }
{
    match rule {
        PatchRule::NoPatch => false,
        PatchRule::Repeated => is_repeated(resource, triples),
        _ => any_breaks(rule, resource, triples),
    }
}
