//! The labels of the unnamed nodes so far.

ghost use Rattle.std.specs.Prelude.{◌≡◌, ◌+◌, ◌≤◌, ◌<◌, ◌∷◌, ◌++◌, [], ℕ, List, length, IfOk, OnOk};
ghost use Rattle.std.specs.Prelude.{OnErr};
ghost use Rattle.std.specs.BTreeSet.{contains};
ghost use Rattle.std.specs.Ordering.{nat_cmp};
ghost use Rattle.turtle_reader.specs.Taken.{IsNextFree, AreGivenBeside};
ghost use Rattle.turtle_reader.specs.Unnamed.{generated};

use itoa::Buffer;
use pod_base::{List, Mem, NoMemory, Text};
use std::alloc::Global;
use std::collections::BTreeSet;

/// The labels of the first unnamed nodes, and the number after that of the last.
#[derive(Drop)]
pub(crate) struct Given {
    pub(crate) labels: List<Text>,
    pub(crate) next: u64,
}

/// The first number from `from` on whose label may be issued, since it is not taken.
fn next_free(taken: &BTreeSet<u64>, from: u64) -> Mem<u64>
    ensures { IfOk result (IsNextFree (contains nat_cmp taken.now) from) }
{
    let mut number = from;
    while taken.contains(&number) {
        match number.checked_add(1) {
            Some(next) => number = next,
            None => return Err(NoMemory),
        }
    }
    Ok(number)
}

/// The label that is issued with a number: `g` and the number.
fn generated(alloc: Global, number: u64) -> Mem<Text>
    ensures { IfOk result (λ label. label ≡ generated number) }
{
    let mut buffer = Buffer::new();
    let digits = buffer.format(number);
    let mut label = String::with_capacity(alloc, digits.len().saturating_add(1))?;
    label.push_str("g")?;
    label.push_str(digits)?;
    Text::from_string(alloc, label)
}

/// Appends a label to those that are issued. Out of memory, nothing changes.
fn push_label(alloc: Global, labels: &mut List<Text>, label: Text) -> Mem<()>
    ensures pushed { OnOk result (labels.new.items ≡ labels.old.items ++ label ∷ []) }
    ensures unchanged { OnErr result (labels.new.items ≡ labels.old.items) }
{
    match labels.push(alloc, label) {
        Ok(()) => Ok(()),
        Err(_) => Err(NoMemory),
    }
}

/// Issues the next unnamed node its label. Out of memory, nothing changes.
pub(crate) fn give_next(alloc: Global, taken: &BTreeSet<u64>, given: &mut Given) -> Mem<()>
    ensures given { AreGivenBeside (contains nat_cmp taken.now) given.old.labels.items given.old.next
        → AreGivenBeside (contains nat_cmp taken.now) given.new.labels.items given.new.next }
    ensures more { OnOk result
        (length given.new.labels.items ≡ length given.old.labels.items + 1) }
{
    let number = next_free(taken, given.next)?;
    let Some(next) = number.checked_add(1) else {
        return Err(NoMemory);
    };
    let label = generated(alloc, number)?;
    push_label(alloc, &mut given.labels, label)?;
    given.next = next;
    Ok(())
}

/// Issues labels to the unnamed nodes up to the node k. Out of memory, those that have one keep it.
pub(crate) fn give_up_to(
    alloc: Global,
    taken: &BTreeSet<u64>,
    given: &mut Given,
    k: usize,
) -> Mem<()>
    ensures given { AreGivenBeside (contains nat_cmp taken.now) given.old.labels.items given.old.next
        → AreGivenBeside (contains nat_cmp taken.now) given.new.labels.items given.new.next }
    ensures has { OnOk result (k < length given.new.labels.items) }
{
    while given.labels.len() <= k {
        give_next(alloc, taken, given)?;
    }
    Ok(())
}
