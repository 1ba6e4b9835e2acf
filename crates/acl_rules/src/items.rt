//! [`Items`]: a list that contracts see as its items alone.
ghost use Rattle.std.specs.Prelude.{◌≡◌, ◌==◌, ◌++◌, ◌∷◌, [], length, OnOk, OnErr};
ghost use Rattle.std.specs.Option.{option_to_list};

use pod_base::Mem;
use std::alloc::Global;
use std::marker::Model;

/// A list that owns its items. Contracts see the items, and not what memory the list has.
#[derive(Debug, Drop)]
pub struct Items<T> {
    items: Vec<T>,
}

impl<T> Model for Items<T> {
    ghost use Rattle.std.specs.Prelude.{List};
    ghost use Rattle.std.specs.Coded.{coded_list};

    ghost Value = { List T };

    ghost coded = { coded_list T.code };

    ghost view = { λ items. items.items.items };
}

impl<T> Items<T> {
    /// A list of no items. It grows by `alloc`.
    pub fn new(alloc: Global) -> Items<T>
        ensures { result ≡ [] }
    {
        Items {
            items: Vec::new(alloc),
        }
    }

    /// The list of a vector's items, whose memory it takes over.
    pub fn from_vec(items: Vec<T>) -> Items<T>
        ensures { result ≡ items.items }
    {
        Items { items }
    }

    /// Lends the items of the list.
    pub fn as_slice(&self) -> &[T]
        ensures { result.now ≡ self.now }
    {
        self.items.as_slice()
    }

    /// How many items the list has.
    pub fn len(&self) -> usize
        ensures { result ≡ length self.now }
    {
        self.items.len()
    }

    /// Whether the list has no items.
    pub fn is_empty(&self) -> bool
        ensures { result ≡ (length self.now == 0) }
    {
        self.items.is_empty()
    }
}

impl<T: Drop> Items<T> {
    /// Appends an item to the list. Out of memory, nothing changes.
    pub fn push(&mut self, _alloc: Global, item: T) -> Mem<()>
        ensures pushed { OnOk result (self.new ≡ self.old ++ item ∷ []) }
        ensures unchanged { OnErr result (self.new ≡ self.old) }
    {
        self.items.push(item)?;
        Ok(())
    }

    /// Appends an item to the list, if there is one.
    pub(crate) fn push_some(&mut self, alloc: Global, item: Option<T>) -> Mem<()>
        ensures { OnOk result (self.new ≡ self.old ++ option_to_list item) }
    {
        match item {
            Some(item) => self.push(alloc, item),
            None => Ok(()),
        }
    }
}
