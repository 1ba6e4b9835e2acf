//! The patterns of the parts.

ghost use Rattle.std.specs.Prelude.{◌≡◌, ◌++◌, ◌∷◌, [], if◌then◌else◌, IfOk, OnOk};
ghost use Rattle.std.specs.Option.{option_copied};
ghost use Rattle.n3_patch.specs.Nodes.{is_this_formula};
ghost use Rattle.n3_patch.specs.Parts.{with_formula, object_formula, part_patterns};
ghost use Rattle.n3_patch.specs.Progress.{AddsPattern};

use crate::pattern_ref::PatternRef;
use crate::rules::first_formula;
use crate::triples::{PatchNode, PatchTriple};
use crate::vocabulary::Part;
use graph_patch::Pattern;
use pod_base::{List, Mem, NoMemory};
use std::alloc::Global;
use std::collections::BTreeSet;

/// Appends a pattern to those of a part, if it is new.
fn push_new(alloc: Global, patterns: &mut List<Pattern>, pattern: Pattern, new: bool) -> Mem<()>
    ensures { OnOk result (patterns.new.items
        ≡ (if new then patterns.old.items ++ pattern ∷ [] else patterns.old.items)) }
{
    if !new {
        return Ok(());
    }
    match patterns.push(alloc, pattern) {
        Ok(()) => Ok(()),
        Err(_) => Err(NoMemory),
    }
}

/// Whether the triple is in the formula of this index, and so one of a part's patterns.
fn stands_in(index: usize, triple: &PatchTriple) -> bool
    ensures { result ≡ is_this_formula index triple.now.formula }
{
    match triple.formula {
        Some(other) => index == other,
        None => false,
    }
}

/// Appends the pattern of a triple to those of a part, if it is in the formula and is new.
fn add_pattern<'a>(
    alloc: Global,
    seen: &mut BTreeSet<PatternRef<'a>>,
    patterns: &mut List<Pattern>,
    index: usize,
    triple: &'a PatchTriple,
) -> Mem<()>
    ensures { OnOk result (AddsPattern index triple.now seen.old patterns.old.items
        seen.new patterns.new.items) }
{
    if !stands_in(index, triple) {
        return Ok(());
    }
    let Some(pattern) = triple.pattern(alloc)? else {
        return Ok(());
    };
    let new = seen.insert(PatternRef { triple })?;
    push_new(alloc, patterns, pattern, new)
}

/// The patterns of a part's formula, each once, in the order of their first occurrence.
fn formula_patterns(alloc: Global, index: usize, triples: &[PatchTriple]) -> Mem<List<Pattern>>
    ensures { IfOk result (λ patterns. patterns.items ≡ with_formula index triples.now []) }
{
    let mut patterns = List::new(alloc);
    let mut seen = BTreeSet::new(alloc);
    for triple in triples {
        add_pattern(alloc, &mut seen, &mut patterns, index, triple)?;
    }
    Ok(patterns)
}

/// The formula with a part's patterns, which is the object of a triple.
fn object_formula(triple: Option<&PatchTriple>) -> Option<usize>
    ensures { result ≡ object_formula (option_copied triple.entry) }
{
    match triple {
        Some(triple) => match &triple.object {
            PatchNode::Formula(index) => Some(*index),
            _ => None,
        },
        None => None,
    }
}

/// The patterns of a part of the resource.
pub(crate) fn part_patterns(
    alloc: Global,
    resource: &PatchNode,
    part: Part,
    triples: &[PatchTriple],
) -> Mem<List<Pattern>>
    ensures { IfOk result (λ patterns. patterns.items ≡ part_patterns resource.now part triples.now) }
{
    match object_formula(first_formula(resource, part, triples)) {
        Some(index) => formula_patterns(alloc, index, triples),
        None => Ok(List::new(alloc)),
    }
}
