//! [`Rows`]: items in byte order of their paths.
ghost use Rattle.std.specs.Prelude.{◌≡◌, ◌+◌, ◌<◌, ◌≤◌, ◌^◌, [], ℕ, List, IfOk, length};
ghost use Rattle.std.specs.Prelude.{IfNone, IfSome, OnErr, OnOk};
ghost use Rattle.std.specs.Prelude.{option_copied, is_some, if◌then◌else◌};
ghost use Rattle.row_pages.specs.Items.{AreItemsInOrder, Placed, item_at, put_item, remove_item};
ghost use Rattle.row_pages.specs.Items.{items_below, first_from};
ghost use Rattle.row_pages.specs.Delimited.{items_direct};

use crate::item::Item;
use crate::page_node::{Node, push_nodes};
use crate::part::Part;
use crate::part_list::{
    below_in, find_in, first_from_in, into_with_in, put_in, replace_in, share_all, without_in,
};
use crate::prefix_listing::list_parts;
use crate::search_steps::Steps;
use crate::sought_path::{PathText, Sought};
use pod_base::{Mem, NoMemory};
use std::alloc::Global;
use std::marker::{Brand, Model};
use std::sync::ledger::{Blank, Ledger};

/// Items in byte order of the paths of their rows, each path once. It isn't changed: a change makes
/// new pages where items changed, and shares the others.
#[derive(Drop)]
pub struct Rows {
    books: Vec<Node<Node<Item>>>,
    len: usize,
}

impl Model for Rows {
    ghost use Rattle.std.specs.Prelude.{List};
    ghost use Rattle.row_pages.specs.Items.{Placed};
    ghost use Rattle.row_pages.specs.Nodes.{IsShelf};
    ghost use Rattle.row_pages.specs.Parts.{all_items};

    ghost Value = { List Placed };

    ghost view = { λ rows. all_items rows.books.items };

    ghost invariant = { λ rows. IsShelf rows.books.items rows.len };
}

impl Rows {
    /// The rows of these items.
    pub fn of(alloc: Global, items: &[Item]) -> Mem<Rows>
        requires { AreItemsInOrder items.now }
        ensures { IfOk result (λ rows. rows ≡ items.now) }
    {
        let mut pages = Vec::new(alloc);
        push_nodes(alloc, items, &mut pages)?;
        let mut books = Vec::new(alloc);
        push_nodes(alloc, pages.as_slice(), &mut books)?;
        Ok(Rows {
            books,
            len: items.len(),
        })
    }

    /// How many items the rows have.
    pub fn len(&self) -> usize
        ensures { result ≡ length self.now }
    {
        self.len
    }

    /// The items of rows are in byte order of their paths, each path once. It does nothing.
    pub fn are_in_order(&self)
        ensures { AreItemsInOrder self.now }
    {
        let _books = self.books.as_slice();
    }

    /// The rows' item at a path, of which it knows [`Sought`] alone. `steps` counts the keys that
    /// are read, each for one comparison: at most 15 more than the binary digits of the number of
    /// items.
    pub fn find_counted<P: Sought<L>, L: Ledger>(
        &self,
        path: &P,
        steps: &mut Steps<L>,
    ) -> Option<&Item>
        ensures found { option_copied result ≡ item_at self.now (P.text path.now) }
        ensures cost { (b : ℕ) → length self.now < 2 ^ b → steps.new ≤ steps.old + b + 15 }
    {
        find_in(self.books.as_slice(), path, steps)
    }

    /// The rows' item at a path, found on a count that nobody reads.
    fn find_blank<L: Ledger>(&self, path: &[u8], blank: Blank) -> Option<&Item>
        requires name { blank.name ≡ L.name }
        requires parts { blank.parts ≡ L.parts }
        requires some { 0 < blank.parts }
        ensures { option_copied result ≡ item_at self.now path.now }
    {
        let mut steps = Steps::<L>::new(blank);
        let sought = PathText { text: path };
        self.find_counted(&sought, &mut steps)
    }

    /// The rows' item at a path.
    pub fn find(&self, path: &[u8]) -> Option<&Item>
        ensures { option_copied result ≡ item_at self.now path.now }
    {
        self.find_blank::<Brand>(path, Blank::new(1))
    }

    /// Equal rows, which share all memory.
    pub fn share(&self, alloc: Global) -> Mem<Rows>
        ensures { IfOk result (λ rows. rows ≡ self.now) }
    {
        let mut books = Vec::with_capacity(alloc, self.books.len())?;
        share_all(self.books.as_slice(), &mut books)?;
        Ok(Rows {
            books,
            len: self.len,
        })
    }

    /// How many items the rows have with this one.
    fn len_with(&self, item: &Item) -> Mem<usize>
        ensures { IfOk result (λ len. len ≡ length (put_item self.now item.now)) }
    {
        match self.find(item.path()) {
            Some(_) => Ok(self.len),
            None => {
                let len = next(self.len)?;
                Ok(len)
            }
        }
    }

    /// How many items the rows have without the one at a path.
    fn len_without(&self, path: &[u8]) -> usize
        ensures { result ≡ length (remove_item self.now path.now) }
    {
        match self.find(path) {
            Some(_) => self.len.saturating_sub(1),
            None => self.len,
        }
    }

    /// The rows with this item, which replaces the one at its path.
    pub fn put(&self, alloc: Global, item: &Item) -> Mem<Rows>
        ensures { IfOk result (λ rows. rows ≡ put_item self.now item.now) }
    {
        let len = self.len_with(item)?;
        let books = put_in(alloc, self.books.as_slice(), item)?;
        Ok(Rows { books, len })
    }

    /// The rows with this item, as [`Rows::put`] gives them, of rows that nobody needs any more:
    /// what nobody shares is changed in place. `replaces` says whether there is an item at the
    /// path.
    pub fn into_with(self, alloc: Global, item: Item, replaces: bool) -> Mem<Rows>
        requires { replaces ≡ is_some (item_at self item.row.path) }
        ensures { IfOk result (λ rows. rows ≡ put_item self item) }
    {
        let len = len_put(self.len, replaces)?;
        let books = into_with_in(alloc, self.books, item)?;
        Ok(Rows { books, len })
    }

    /// Puts an item in place of the rows' one at its path, where nobody shares the pages that have
    /// it. Else it is given back.
    fn replaced(&mut self, item: Item) -> Option<Item>
        ensures put { IfNone result (self.new ≡ put_item self.old item) }
        ensures kept { IfSome result (λ _. self.new ≡ self.old) }
        ensures back { IfSome result (λ other. other ≡ item) }
    {
        replace_in(&mut self.books, item)
    }

    /// Puts an item into these rows, as [`Rows::put`] does: what nobody shares is changed in place
    /// where it replaces an item.
    pub fn set(&mut self, alloc: Global, item: Item) -> Mem<()>
        ensures put { OnOk result (self.new ≡ put_item self.old item) }
        ensures kept { OnErr result (self.new ≡ self.old) }
    {
        match self.replaced(item) {
            Some(item) => {
                let rows = self.put(alloc, &item)?;
                *self = rows;
                Ok(())
            }
            None => Ok(()),
        }
    }

    /// The rows without the item at a path.
    pub fn without(&self, alloc: Global, path: &[u8]) -> Mem<Rows>
        ensures { IfOk result (λ rows. rows ≡ remove_item self.now path.now) }
    {
        let len = self.len_without(path);
        let books = without_in(alloc, self.books.as_slice(), path)?;
        Ok(Rows { books, len })
    }

    /// The rows' first item whose path isn't before a text.
    pub fn first_from(&self, text: &[u8]) -> Option<&Item>
        ensures { option_copied result ≡ first_from self.now text.now }
    {
        first_from_in(self.books.as_slice(), text)
    }

    /// The rows' items directly below a text, in order: their paths begin with it, and have after
    /// it a slash at most at their end. What is below a container among them is passed by one
    /// search.
    pub fn direct_below(&self, alloc: Global, prefix: &[u8]) -> Mem<Vec<Item>>
        ensures { IfOk result (λ items. items.items ≡ items_direct self.now prefix.now) }
    {
        let mut items = Vec::new(alloc);
        let mut from = Vec::new(alloc);
        from.extend_from_slice(prefix)?;
        list_parts(self.books.as_slice(), prefix, &mut from, &mut items)?;
        Ok(items)
    }

    /// The rows' items whose paths begin with a text, in order. Other pages aren't read.
    pub fn below(&self, alloc: Global, prefix: &[u8]) -> Mem<Vec<Item>>
        ensures { IfOk result (λ items. items.items ≡ items_below self.now prefix.now) }
    {
        let mut items = Vec::new(alloc);
        below_in(self.books.as_slice(), prefix, &mut items)?;
        Ok(items)
    }
}

/// One more than the number of items that rows have.
fn next(len: usize) -> Mem<usize>
    ensures { IfOk result (λ next. next ≡ len + 1) }
{
    match len.checked_add(1) {
        Some(next) => Ok(next),
        None => Err(NoMemory),
    }
}

/// How many items rows have after one was put, of so many before.
fn len_put(len: usize, replaces: bool) -> Mem<usize>
    ensures { IfOk result (λ after. after ≡ (if replaces then len else len + 1)) }
{
    if replaces {
        return Ok(len);
    }
    next(len)
}
