//! The connected components of conditions, where a common variable connects two.
ghost use Rattle.std.specs.Prelude.{◌≡◌, ◌<◌, ◌==◌, ◌↔◌, ◌+◌, ◌⊎◌, ℕ, List, if◌then◌else◌, All};
ghost use Rattle.std.specs.Prelude.{IfOk, IsTrue, length, map, slice_get};
ghost use Rattle.graph_patch.specs.ConnectedComponents.{AreComponentLabels, AreLabelledSoFar};
ghost use Rattle.graph_patch.specs.ConnectedComponents.{SharesVariable, selected};
ghost use Rattle.graph_patch.specs.Pattern.{HasVariable};
ghost use Rattle.graph_patch.specs.declared.pattern.Slot.TheVariants.{Var};

use crate::pattern::{Pattern, Slot};
use pod_base::{Mem, Text};
use std::alloc::Global;

/// A label for each condition's connected component, the same for connected ones.
pub(crate) fn label_components(alloc: Global, conditions: &[Pattern]) -> Mem<Vec<usize>>
    ensures long { IfOk result (λ labels. length labels.items ≡ length conditions.now) }
    ensures small { IfOk result
        (λ labels. All (λ label. label < length conditions.now) labels.items) }
    ensures components { IfOk result (λ labels. AreComponentLabels conditions.now labels.items) }
{
    let mut labels = Vec::with_capacity(alloc, conditions.len())?;
    for i in 0..conditions.len() {
        labels.push(i)?;
        join_earlier(labels.as_mut_slice(), conditions, i);
    }
    Ok(labels)
}

/// Gives the component's label of the last condition so far to all that are connected with it.
fn join_earlier(labels: &mut [usize], conditions: &[Pattern], i: usize)
    requires last { length labels.old ≡ i + 1 }
    requires within { i < length conditions.now }
    requires small { All (λ label. label < length conditions.now) labels.old }
    requires joined { AreLabelledSoFar conditions.now labels.old i 0 }
    ensures small { All (λ label. label < length conditions.now) labels.new }
    ensures joined { AreLabelledSoFar conditions.now labels.new i i }
{
    for j in 0..i {
        if shares_variable(&conditions[i], &conditions[j]) {
            let (from, to) = (labels[j], labels[i]);
            relabel(labels, from, to);
        }
    }
}

/// Replaces one label of a component by another.
fn relabel(labels: &mut [usize], from: usize, to: usize)
    ensures { labels.new ≡ map (λ label. if label == from then to else label) labels.old }
{
    for label in labels.iter_mut() {
        *label = relabelled(*label, from, to);
    }
}

/// What replaces the label of a component.
fn relabelled(label: usize, from: usize, to: usize) -> usize
    ensures { result ≡ (if label == from then to else label) }
{
    if label == from { to } else { label }
}

/// The conditions of the connected component with that label, in order.
pub(crate) fn component_of<'a>(
    alloc: Global,
    conditions: &'a [Pattern],
    labels: &[usize],
    label: usize,
) -> Mem<Vec<&'a Pattern>>
    requires { length labels.now ≡ length conditions.now }
    ensures { IfOk result
        (λ component. map (λ c. c.now) component.items
        ≡ selected (λ k. k == label) conditions.now labels.now) }
{
    let mut component = Vec::new(alloc);
    for (i, condition) in conditions.iter().enumerate() {
        if labels[i] == label {
            component.push(condition)?;
        }
    }
    Ok(component)
}

/// Whether two conditions have a common variable, which connects them.
fn shares_variable(first: &Pattern, second: &Pattern) -> bool
    ensures { IsTrue result ↔ SharesVariable first.now second.now }
{
    is_in(&first.s, second) || is_in(&first.p, second) || is_in(&first.o, second)
}

/// Whether the slot has a variable of the pattern, which connects two conditions.
fn is_in(slot: &Slot, pattern: &Pattern) -> bool
    ensures { IsTrue result
        ↔ ((name : List ℕ) × (slot.now ≡ Var name) × HasVariable pattern.now name) }
{
    match slot {
        Slot::Fixed(_) => false,
        Slot::Var(name) => {
            is_variable(&pattern.s, name)
                || is_variable(&pattern.p, name)
                || is_variable(&pattern.o, name)
        }
    }
}

/// Whether the slot is the variable of that name, which may connect two conditions.
pub(crate) fn is_variable(slot: &Slot, name: &Text) -> bool
    ensures { IsTrue result ↔ (slot.now ≡ Var name.now) }
{
    match slot {
        Slot::Fixed(_) => false,
        Slot::Var(other) => other.as_str() == name.as_str(),
    }
}
