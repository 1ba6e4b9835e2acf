//! [`List`]: a list that owns its items.
ghost use Rattle.std.specs.Prelude.{◌≡◌, ◌↔◌, ◌+◌, ◌-◌, ◌<◌, ◌≤◌, ◌==◌, ◌++◌, ◌∷◌, []};
ghost use Rattle.std.specs.Prelude.{if◌then◌else◌, length, is_ok, IsOk, IfErr, IsSome, OnOk, OnErr};
ghost use Rattle.std.specs.Option.{option_to_list};
ghost use Rattle.std.specs.Borrow.{sem};
ghost use Rattle.pod_base.specs.Lending.{LendsItems};

use crate::memory::Mem;
use std::alloc::Global;
use std::marker::Model;

/// A list that owns its items.
///
/// Contracts see its items and its room: how many more items it has memory for already. It may have
/// memory for more than that, never for less.
#[derive(Debug, Drop)]
pub struct List<T> {
    items: Vec<T>,
    room: usize,
}

impl<T> Model for List<T> {
    ghost use Rattle.std.specs.Prelude.{◌+◌, ◌≤◌};
    ghost use Rattle.std.specs.Vec.{vec_len, vec_capacity};
    ghost use Rattle.pod_base.specs.Listed.{Listed, listed, listed_code};

    ghost Value = { Listed T };

    ghost coded = { listed_code T.code };

    ghost view = { λ l. listed l.items.items l.room };

    ghost invariant = { λ l. vec_len l.items + l.room ≤ vec_capacity l.items };
}

impl<T> List<T> {
    /// The empty list, which grows by `alloc`.
    pub fn new(alloc: Global) -> List<T>
        ensures items { result.items ≡ [] }
        ensures room { result.room ≡ 0 }
    {
        List {
            items: Vec::new(alloc),
            room: 0,
        }
    }

    /// The list of a vector's items.
    pub fn from_vec(items: Vec<T>) -> List<T>
        ensures items { result.items ≡ items.items }
        ensures room { result.room ≡ 0 }
    {
        List { items, room: 0 }
    }

    /// The vector of the list's items.
    pub fn into_vec(self) -> Vec<T>
        ensures { result.items ≡ self.items }
    {
        self.items
    }

    /// How many items the list has.
    pub fn len(&self) -> usize
        ensures { result ≡ length self.now.items }
    {
        self.items.len()
    }

    /// Whether the list has no item.
    pub fn is_empty(&self) -> bool
        ensures { result ≡ (length self.now.items == 0) }
    {
        self.items.is_empty()
    }

    /// Appends an item to the list. It hands the item back only when out of memory; where there is
    /// room it takes no memory and succeeds.
    pub fn push(&mut self, _alloc: Global, item: T) -> Result<(), T>
        ensures items { self.new.items ≡ (if is_ok result then self.old.items ++ item ∷ [] else self.old.items) }
        ensures back { IfErr result (λ back. back ≡ item) }
        ensures succeeds { 0 < self.old.room → IsOk result }
        ensures room { self.new.room ≡ self.old.room - 1 }
    {
        self.room = self.room.saturating_sub(1);
        match self.items.push(item) {
            Ok(()) => Ok(()),
            Err(full) => Err(full.value),
        }
    }

    /// Makes room in the list for that many more items.
    pub fn reserve(&mut self, _alloc: Global, more: usize) -> Mem<()>
        ensures items { self.new.items ≡ self.old.items }
        ensures room { OnOk result (more ≤ self.new.room) }
        ensures kept { self.old.room ≤ self.new.room }
        ensures full { OnErr result (self.new.room ≡ self.old.room) }
    {
        self.items.reserve(more)?;
        self.room = self.room.max(more);
        Ok(())
    }

    /// Takes the last item of the list, which leaves room for one more.
    pub fn pop(&mut self) -> Option<T>
        ensures items { self.old.items ≡ self.new.items ++ option_to_list result }
        ensures some { IsSome result ↔ (0 < length self.old.items) }
        ensures room { self.new.room ≡ self.old.room + length (option_to_list result) }
    {
        let last = self.items.pop();
        if last.is_some() {
            self.room += 1;
        }
        last
    }

    /// Lends the items of the list.
    pub fn as_slice(&self) -> &[T]
        ensures { result.now ≡ self.now.items }
    {
        self.items.as_slice()
    }

    /// Lends the items of the list to be changed.
    pub fn as_mut_slice(&mut self) -> &mut [T]
        ensures* writes_back { sem 𝓛 (LendsItems T.row self.entry result) }
        ensures items { result.now ≡ self.old.items }
    {
        self.items.as_mut_slice()
    }
}
