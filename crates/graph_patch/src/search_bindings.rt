//! The bindings of variables during a search.
ghost use Rattle.std.specs.Prelude.{◌≡◌, ◌++◌, if◌then◌else◌, IfOk, Some, None, List, take, length};
ghost use Rattle.std.specs.Option.{option_copied};
ghost use Rattle.graph_patch.specs.Pattern.{slot_term, value_of};
ghost use Rattle.graph_patch.specs.Search.{bind_slot, bind_pattern, pairs_of};

use crate::pattern::{Mapping, Pattern, Slot};
use pod_base::{List, Mem, Text};
use rdf_graph::{Term, Triple};
use std::alloc::Global;

/// A variable's name and its term.
#[derive(Clone, Copy)]
pub(crate) struct BoundVariable<'a> {
    name: &'a Text,
    term: &'a Term,
}

/// The term that a search has bound the variable to, if it is bound.
pub(crate) fn term_of<'a>(bound: &[BoundVariable<'a>], name: &Text) -> Option<&'a Term>
    ensures { option_copied result ≡ value_of (pairs_of bound.now) name.now }
{
    for pair in bound {
        if pair.name.as_str() == name.as_str() {
            return Some(pair.term);
        }
    }
    None
}

/// The term of the slot under a search's bindings, if it has one.
pub(crate) fn slot_term<'a>(bound: &[BoundVariable<'a>], slot: &'a Slot) -> Option<&'a Term>
    ensures { option_copied result ≡ slot_term (value_of (pairs_of bound.now)) slot.now }
{
    match slot {
        Slot::Fixed(term) => Some(term),
        Slot::Var(name) => term_of(bound, name),
    }
}

/// Binds the slot's variable to the term, and returns whether they match.
fn bind<'a>(bound: &mut Vec<BoundVariable<'a>>, slot: &'a Slot, term: &'a Term) -> Mem<bool>
    ensures fits { IfOk result
        (λ fits. bind_slot (pairs_of bound.old.items) slot.now term.now
        ≡ (if fits then Some (pairs_of bound.new.items) else None)) }
    ensures kept { IfOk result
        (λ _. take (length bound.old.items) bound.new.items ≡ bound.old.items) }
{
    match slot {
        Slot::Fixed(fixed) => Ok(fixed == term),
        Slot::Var(name) => match term_of(bound.as_slice(), name) {
            Some(other) => Ok(other == term),
            None => {
                bound.push(BoundVariable { name, term })?;
                Ok(true)
            }
        },
    }
}

/// Extends the bindings of a search so that the pattern is the triple, and returns whether they
/// match. Bindings that exist already stay first. Without a match the new ones are unspecified.
pub(crate) fn extend<'a>(
    bound: &mut Vec<BoundVariable<'a>>,
    pattern: &'a Pattern,
    triple: &'a Triple,
) -> Mem<bool>
    ensures fits { IfOk result
        (λ fits. bind_pattern (pairs_of bound.old.items) pattern.now triple.now
        ≡ (if fits then Some (pairs_of bound.new.items) else None)) }
    ensures kept { IfOk result
        (λ _. take (length bound.old.items) bound.new.items ≡ bound.old.items) }
{
    if !bind(bound, &pattern.s, &triple.s)? {
        return Ok(false);
    }
    if !bind(bound, &pattern.p, &triple.p)? {
        return Ok(false);
    }
    bind(bound, &pattern.o, &triple.o)
}

/// The mapping from the bound variables to copies of their terms.
pub(crate) fn mapping_of(alloc: Global, bound: &[BoundVariable<'_>]) -> Mem<Mapping>
    ensures { IfOk result (λ mapping. mapping.pairs.items ≡ pairs_of bound.now) }
{
    let mut pairs = Vec::with_capacity(alloc, bound.len())?;
    for pair in bound {
        let name = pair.name.copy(alloc)?;
        let term = pair.term.copy(alloc)?;
        pairs.push((name, term))?;
    }
    Ok(Mapping {
        pairs: List::from_vec(pairs),
    })
}
