//! [`Item`]: a row with the access list that governs it.
ghost use Rattle.std.specs.Prelude.{◌≡◌, IfOk};
ghost use Rattle.row_pages.specs.Items.{Placed};

use crate::keyed::Keyed;
use crate::search_steps::Steps;
use pod_base::{Mem, NoMemory};
use pod_command::Row;
use std::alloc::Global;
use std::marker::Model;
use std::sync::Arc;
use std::sync::ledger::Ledger;

/// A row, and the access list that governs it: the number of the list in a table of the caller's,
/// and whether the list is the row's own. A copy shares the row.
#[derive(Drop)]
pub struct Item {
    row: Arc<Row>,
    list: u32,
    own: bool,
}

impl Model for Item {
    ghost use Rattle.row_pages.specs.Items.{Placed};
    ghost use Rattle.std.specs.Arc.{arc_value};

    ghost Value = { Placed };

    ghost view = { λ item. record { row = arc_value item.row; list = item.list; own = item.own } };
}

impl Item {
    /// The item of a row, with the number of the list that governs it.
    pub fn new(alloc: Global, row: Row, list: u32, own: bool) -> Mem<Item>
        ensures { IfOk result (λ item. item ≡ record { row = row; list = list; own = own }) }
    {
        match Arc::new(alloc, row) {
            Ok(row) => Ok(Item { row, list, own }),
            Err(_) => Err(NoMemory),
        }
    }

    /// An item with the same row and another list.
    pub fn governed_by(&self, list: u32, own: bool) -> Mem<Item>
        ensures { IfOk result (λ item. item
            ≡ record { row = self.now.row; list = list; own = own }) }
    {
        match Arc::try_clone(&self.row) {
            Ok(row) => Ok(Item { row, list, own }),
            Err(_) => Err(NoMemory),
        }
    }

    /// The item's row.
    pub fn row(&self) -> &Row
        ensures { result.now ≡ self.now.row }
    {
        &self.row
    }

    /// The number of the access list that governs the item's row.
    pub fn list(&self) -> u32
        ensures { result ≡ self.now.list }
    {
        self.list
    }

    /// Whether the list that governs the item's row is the row's own.
    pub fn is_own(&self) -> bool
        ensures { result ≡ self.now.own }
    {
        self.own
    }

    /// The path of the item's row.
    pub(crate) fn path(&self) -> &[u8]
        ensures { result.now ≡ self.now.row.path }
    {
        self.row().path.as_str().as_bytes()
    }

    /// A copy of the item, which shares the row.
    pub fn copy(&self) -> Mem<Item>
        ensures { IfOk result (λ copy. copy ≡ self.now) }
    {
        self.governed_by(self.list, self.own)
    }
}

impl Keyed for Item {
    ghost key = { λ item. item.row.path };

    fn key<L: Ledger>(&self, steps: &mut Steps<L>) -> &[u8] {
        steps.tick();
        self.path()
    }
}
