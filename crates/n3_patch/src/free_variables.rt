//! Free variables: those of deletions and insertions that no condition has.
//!
//! The names of variables are collected in two sets, so that the cost for `n` patterns is that of
//! `n` look-ups in a tree.

ghost use Rattle.std.specs.Prelude.{◌↔◌, IfOk, OnOk, IsTrue};
ghost use Rattle.graph_patch.specs.Patch.{IsBound};
ghost use Rattle.graph_patch.specs.Pattern.{HasVariable, IsVariableOf};
ghost use Rattle.n3_patch.specs.VariableNames.{AddsNames, AddsSlot};

use graph_patch::{Patch, Pattern, Slot};
use pod_base::{List, Mem, Text};
use std::alloc::Global;
use std::collections::BTreeSet;

/// Inserts the name of the slot's variable, if it has one, into those of a patch document.
fn insert_variable(alloc: Global, names: &mut BTreeSet<Text>, slot: &Slot) -> Mem<()>
    ensures { OnOk result (AddsSlot names.old slot.now names.new) }
{
    match slot {
        Slot::Fixed(_) => Ok(()),
        Slot::Var(name) => {
            let key = name.copy(alloc)?;
            let _ = names.insert(key)?;
            Ok(())
        }
    }
}

/// Inserts the names of the pattern's variables into those of a patch document.
fn insert_variables(alloc: Global, names: &mut BTreeSet<Text>, pattern: &Pattern) -> Mem<()>
    ensures { OnOk result (AddsNames names.old (HasVariable pattern.now) names.new) }
{
    insert_variable(alloc, names, &pattern.s)?;
    insert_variable(alloc, names, &pattern.p)?;
    insert_variable(alloc, names, &pattern.o)
}

/// Inserts the names of the patterns' variables into those of a patch document.
fn insert_all(alloc: Global, names: &mut BTreeSet<Text>, patterns: &List<Pattern>) -> Mem<()>
    ensures { OnOk result (AddsNames names.old (IsVariableOf patterns.now.items) names.new) }
{
    let slice = patterns.as_slice();
    for pattern in slice {
        insert_variables(alloc, names, pattern)?;
    }
    Ok(())
}

/// Whether no variable of a patch document is free, so that each of its deletions and insertions is
/// one of the conditions.
pub(crate) fn is_bound(alloc: Global, patch: &Patch) -> Mem<bool>
    ensures { IfOk result (λ bound. IsTrue bound ↔ IsBound patch.now) }
{
    let mut bound = BTreeSet::new(alloc);
    insert_all(alloc, &mut bound, &patch.conditions)?;
    let mut used = BTreeSet::new(alloc);
    insert_all(alloc, &mut used, &patch.deletions)?;
    insert_all(alloc, &mut used, &patch.insertions)?;
    Ok(used.is_subset(&bound))
}
