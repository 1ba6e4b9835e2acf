//! [`Part`]: an item, a page of items, or a book of pages.
ghost use Rattle.std.specs.Prelude.{◌≡◌, ◌+◌, ◌<◌, ◌≤◌, ◌++◌, ◌∷◌, [], ℕ, List, Some, IfOk, IfSome};
ghost use Rattle.std.specs.Prelude.{IfNone, OnOk, length, nat_eq, option_copied, refl, true};
ghost use Rattle.std.specs.List.{starts_with};
ghost use Rattle.row_pages.specs.Borders.{first_begins, first_path};
ghost use Rattle.row_pages.specs.Items.{Placed, AreItemsInOrder, item_at, put_item};
ghost use Rattle.row_pages.specs.Items.{remove_item, items_below, begins_with, first_from, first_item};
ghost use Rattle.row_pages.specs.Parts.{items_if, items_of_both};
ghost use Rattle.row_pages.specs.Seeks.{IsListed};

use crate::item::Item;
use crate::keyed::Keyed;
use crate::prefix_listing::list_item;
use crate::search_steps::Steps;
use crate::sought_path::{Sought, text_is_before};
use pod_base::Mem;
use std::alloc::Global;
use std::cmp::Ordering;
use std::sync::ledger::Ledger;

/// Whether the path of an item, as a part, begins with the text.
pub(crate) fn begins_with(item: &Item, prefix: &[u8]) -> bool
    ensures { result ≡ begins_with prefix.now item.now }
{
    item.path().starts_with(prefix)
}

/// A part that an item was put into, and the part after it where one became too large.
#[derive(Drop)]
pub(crate) struct Grown<P> {
    pub part: P,
    pub more: Option<P>,
}

/// A part of the items, with that of its first item as its key. A change makes new parts, which
/// share what stays; one that takes the part by value uses its memory again. A search knows of the
/// parts no more than this: it has no way to the key of one, or of what is in it, but by [`Keyed`].
pub(crate) trait Part: Keyed + Drop {
    /// The items of the part, in their order.
    ghost items: { Self → List Placed };

    /// How often a search in it compares the path at most.
    ghost cost: { ℕ };

    /// The part of one item.
    fn single(alloc: Global, item: &Item) -> Mem<Self>
        ensures { IfOk result (λ part. items part ≡ item.now ∷ []) };

    /// An equal part, which shares its memory.
    fn share(&self) -> Mem<Self>
        ensures { IfOk result (λ part. part ≡ self.now) };

    /// Each part has an item. It does nothing.
    fn has_items(&self)
        ensures { 0 < length (items self.now) };

    /// The part's item at a path.
    fn find<P: Sought<L>, L: Ledger>(&self, path: &P, steps: &mut Steps<L>) -> Option<&Item>
        requires { AreItemsInOrder (items self.now) }
        ensures found { option_copied result ≡ item_at (items self.now) (P.text path.now) }
        ensures cost { steps.new ≤ steps.old + cost };

    /// The part with this item, in one part or two.
    fn put(&self, alloc: Global, item: &Item) -> Mem<Grown<Self>>
        requires { AreItemsInOrder (items self.now) }
        ensures { IfOk result (λ grown. items_of_both items grown.part grown.more
            ≡ put_item (items self.now) item.now) };

    /// The part with this item, in one part or two. Memory that nobody shares is used again.
    fn into_with(self, alloc: Global, item: Item) -> Mem<Grown<Self>>
        requires { AreItemsInOrder (items self) }
        ensures { IfOk result (λ grown. items_of_both items grown.part grown.more
            ≡ put_item (items self) item) };

    /// Puts an item into the part in place of the one at its path. It is given back, and the part
    /// is as before, where there is none, and where memory is shared.
    fn replace(&mut self, item: Item) -> Option<Item>
        requires { AreItemsInOrder (items self.old) }
        ensures put { IfNone result (items self.new ≡ put_item (items self.old) item) }
        ensures count { length (items self.new) ≡ length (items self.old) }
        ensures kept { IfSome result (λ _. self.new ≡ self.old) }
        ensures back { IfSome result (λ other. other ≡ item) };

    /// The part without the item at the path, if an item is left.
    fn without(&self, alloc: Global, path: &[u8]) -> Mem<Option<Self>>
        requires { AreItemsInOrder (items self.now) }
        ensures { IfOk result (λ part. items_if items part
            ≡ remove_item (items self.now) path.now) };

    /// Its key is the path of its first item.
    ghost keyed: { (part : Self) → Self.key part ≡ first_path (items part) };
}

/// A part whose items are looked at in their order.
pub(crate) trait Listed: Part {
    /// The part's first item.
    fn first_item(&self) -> &Item
        ensures { first_item (Self.items self.now) ≡ Some result.now };

    /// Whether the path of the part's first item begins with the text.
    fn begins_below(&self, prefix: &[u8]) -> bool
        ensures { first_begins prefix.now (Self.items self.now) ≡ Some result };

    /// The part's first item whose path isn't before a text.
    fn first_from(&self, text: &[u8]) -> Option<&Item>
        requires { AreItemsInOrder (Self.items self.now) }
        ensures { option_copied result ≡ first_from (Self.items self.now) text.now };

    /// Appends the part's items whose paths begin with a text.
    fn below(&self, prefix: &[u8], into: &mut Vec<Item>) -> Mem<()>
        requires { AreItemsInOrder (Self.items self.now) }
        ensures { OnOk result (into.new.items
            ≡ into.old.items ++ items_below (Self.items self.now) prefix.now) };

    /// Appends the part's items directly below the prefix, of those that aren't before the text
    /// from which a listing goes on, which is raised.
    fn list(&self, prefix: &[u8], from: &mut Vec<u8>, into: &mut Vec<Item>) -> Mem<()>
        requires order { AreItemsInOrder (Self.items self.now) }
        requires begins { starts_with nat_eq from.old.items prefix.now ≡ true }
        ensures { OnOk result (IsListed prefix.now (Self.items self.now) from.old.items
            into.old.items from.new.items into.new.items) };
}

impl Part for Item {
    ghost items = { λ item. item ∷ [] };

    ghost cost = { 1 };

    ghost keyed = { λ _. refl };

    fn single(_alloc: Global, item: &Item) -> Mem<Item> {
        item.copy()
    }

    fn share(&self) -> Mem<Item> {
        self.copy()
    }

    fn has_items(&self) {}

    fn find<P: Sought<L>, L: Ledger>(&self, path: &P, steps: &mut Steps<L>) -> Option<&Item> {
        if path.is_same(self, steps) {
            Some(self)
        } else {
            None
        }
    }

    fn put(&self, _alloc: Global, item: &Item) -> Mem<Grown<Item>> {
        let part = item.copy()?;
        match item.path().cmp(self.path()) {
            Ordering::Less => {
                let more = self.copy()?;
                Ok(Grown {
                    part,
                    more: Some(more),
                })
            }
            Ordering::Equal => Ok(Grown { part, more: None }),
            Ordering::Greater => {
                let first = self.copy()?;
                Ok(Grown {
                    part: first,
                    more: Some(part),
                })
            }
        }
    }

    fn into_with(self, _alloc: Global, item: Item) -> Mem<Grown<Item>> {
        match item.path().cmp(self.path()) {
            Ordering::Less => Ok(Grown {
                part: item,
                more: Some(self),
            }),
            Ordering::Equal => Ok(Grown {
                part: item,
                more: None,
            }),
            Ordering::Greater => Ok(Grown {
                part: self,
                more: Some(item),
            }),
        }
    }

    fn replace(&mut self, item: Item) -> Option<Item> {
        match item.path().cmp(self.path()) {
            Ordering::Equal => {
                *self = item;
                None
            }
            _ => Some(item),
        }
    }

    fn without(&self, _alloc: Global, path: &[u8]) -> Mem<Option<Item>> {
        if self.path() == path {
            return Ok(None);
        }
        let part = self.copy()?;
        Ok(Some(part))
    }
}

impl Listed for Item {
    fn first_item(&self) -> &Item {
        self
    }

    fn begins_below(&self, prefix: &[u8]) -> bool {
        begins_with(self, prefix)
    }

    fn first_from(&self, text: &[u8]) -> Option<&Item> {
        if text_is_before(self.path(), text) {
            None
        } else {
            Some(self)
        }
    }

    fn below(&self, prefix: &[u8], into: &mut Vec<Item>) -> Mem<()> {
        if begins_with(self, prefix) {
            let item = self.copy()?;
            into.push(item)?;
        }
        Ok(())
    }

    fn list(&self, prefix: &[u8], from: &mut Vec<u8>, into: &mut Vec<Item>) -> Mem<()> {
        list_item(self, prefix, from, into)
    }
}
