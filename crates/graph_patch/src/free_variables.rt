//! Free variables: those of deletions and insertions that no condition has.
ghost use Rattle.std.specs.Prelude.{◌↔◌, ℕ, List, IsTrue};
ghost use Rattle.graph_patch.specs.Patch.{AllBound, IsBound, IsBoundIn};
ghost use Rattle.graph_patch.specs.Pattern.{HasVariable, IsVariableOf};

use crate::connected_components::is_variable;
use crate::patch::Patch;
use crate::pattern::{Pattern, Slot};
use pod_base::Text;

impl Patch {
    /// Whether no variable of the patch is free, so that each of its deletions and insertions is
    /// one of the conditions.
    pub fn is_bound(&self) -> bool
        ensures { IsTrue result ↔ IsBound self.now }
    {
        let conditions = self.conditions.as_slice();
        all_bound(self.deletions.as_slice(), conditions)
            && all_bound(self.insertions.as_slice(), conditions)
    }
}

/// Whether no variable of the patterns is free, so that each is one of the conditions.
fn all_bound(patterns: &[Pattern], conditions: &[Pattern]) -> bool
    ensures { IsTrue result ↔ AllBound patterns.now conditions.now }
{
    for pattern in patterns {
        if !is_bound(pattern, conditions) {
            return false;
        }
    }
    true
}

/// Whether no variable of the pattern is free, so that each is one of the conditions.
fn is_bound(pattern: &Pattern, conditions: &[Pattern]) -> bool
    ensures { IsTrue result
        ↔ ((name : List ℕ) → HasVariable pattern.now name → IsVariableOf conditions.now name) }
{
    is_bound_in(&pattern.s, conditions)
        && is_bound_in(&pattern.p, conditions)
        && is_bound_in(&pattern.o, conditions)
}

/// Whether the slot has no free variable, but none at all or one of the conditions.
fn is_bound_in(slot: &Slot, conditions: &[Pattern]) -> bool
    ensures { IsTrue result ↔ IsBoundIn slot.now conditions.now }
{
    match slot {
        Slot::Fixed(_) => true,
        Slot::Var(name) => is_variable_of(conditions, name),
    }
}

/// Whether the name is a variable of the conditions, and so isn't free.
fn is_variable_of(conditions: &[Pattern], name: &Text) -> bool
    ensures { IsTrue result ↔ IsVariableOf conditions.now name.now }
{
    for condition in conditions {
        if has_variable(condition, name) {
            return true;
        }
    }
    false
}

/// Whether a condition's pattern has the variable, so that it isn't free.
pub(crate) fn has_variable(pattern: &Pattern, name: &Text) -> bool
    ensures { IsTrue result ↔ HasVariable pattern.now name.now }
{
    is_variable(&pattern.s, name) || is_variable(&pattern.p, name) || is_variable(&pattern.o, name)
}
