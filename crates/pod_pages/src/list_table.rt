//! The access lists of a version, each with a number: rows that one list governs share it.
ghost use Rattle.std.specs.Prelude.{◌≡◌, ◌≤◌, ◌==◌, ℕ, None, IfOk, OnOk, length, option_copied};
ghost use Rattle.std.specs.Prelude.{if◌then◌else◌, Some};
ghost use Rattle.pod_pages.specs.Lists.{list_at};

use acl_rules::Rules;
use pod_base::{Mem, NoMemory};
use pod_path::Path;
use std::alloc::Global;
use std::marker::Model;
use std::sync::Arc;

/// An access list: the path whose list it is, and its rules.
#[derive(Drop)]
pub(crate) struct AccessList {
    pub at: Path,
    pub rules: Rules,
}

/// An [`AccessList`] that versions share. A copy costs a count.
#[derive(Drop)]
pub(crate) struct SharedList {
    list: Arc<AccessList>,
}

impl Model for SharedList {
    ghost use Rattle.std.specs.Arc.{arc_value};
    ghost use Rattle.pod_pages.specs.declared.list_table.AccessList.{AccessList};

    ghost Value = { AccessList };

    ghost view = { λ s. arc_value s.list };
}

impl SharedList {
    /// The shared form of this access list of the table.
    pub(crate) fn new(alloc: Global, list: AccessList) -> Mem<SharedList>
        ensures { IfOk result (λ shared. shared ≡ list) }
    {
        match Arc::new(alloc, list) {
            Ok(list) => Ok(SharedList { list }),
            Err(_) => Err(NoMemory),
        }
    }

    /// The same access list, which is shared.
    fn copy(&self) -> Mem<SharedList>
        ensures { IfOk result (λ copy. copy ≡ self.now) }
    {
        match Arc::try_clone(&self.list) {
            Ok(list) => Ok(SharedList { list }),
            Err(_) => Err(NoMemory),
        }
    }

    /// Lends the access list.
    fn as_list(&self) -> &AccessList
        ensures { result.now ≡ self.now }
    {
        &self.list
    }
}

/// The place of a list in the table, which may be free.
pub(crate) type Place = Option<SharedList>;

/// A table of access lists, which versions share.
#[derive(Drop)]
pub(crate) struct ListTable {
    places: Arc<Vec<Place>>,
}

impl Model for ListTable {
    ghost use Rattle.std.specs.Prelude.{List, Option};
    ghost use Rattle.std.specs.Arc.{arc_value};
    ghost use Rattle.pod_pages.specs.declared.list_table.AccessList.{AccessList};

    ghost Value = { List (Option AccessList) };

    ghost view = { λ table. (arc_value table.places).items };
}

impl ListTable {
    /// The table of the access lists at these places.
    pub(crate) fn new(alloc: Global, places: Vec<Place>) -> Mem<ListTable>
        ensures { IfOk result (λ table. table ≡ places.items) }
    {
        match Arc::new(alloc, places) {
            Ok(places) => Ok(ListTable { places }),
            Err(_) => Err(NoMemory),
        }
    }

    /// The same table of lists, which shares its memory.
    pub(crate) fn share(&self) -> Mem<ListTable>
        ensures { IfOk result (λ table. table ≡ self.now) }
    {
        match Arc::try_clone(&self.places) {
            Ok(places) => Ok(ListTable { places }),
            Err(_) => Err(NoMemory),
        }
    }

    /// The places of the table of lists.
    fn places(&self) -> &[Place]
        ensures { result.now ≡ self.now }
    {
        self.places.as_slice()
    }

    /// The access list that has this number in the table.
    pub(crate) fn list(&self, number: u32) -> Option<&AccessList>
        ensures { option_copied result ≡ list_at self.now number }
    {
        match self.places().get(number as usize) {
            Some(Some(list)) => Some(list.as_list()),
            Some(None) => None,
            None => None,
        }
    }

    /// Copies of the places of the table of lists, which share their lists.
    pub(crate) fn copy_places(&self, alloc: Global) -> Mem<Vec<Place>>
        ensures { IfOk result (λ copies. copies.items ≡ self.now) }
    {
        let places = self.places();
        let mut copies = Vec::with_capacity(alloc, places.len())?;
        for place in places {
            let copy = copy_place(place)?;
            copies.push(copy)?;
        }
        Ok(copies)
    }
}

/// A copy of a place of the table of lists, which shares the list.
fn copy_place(place: &Place) -> Mem<Place>
    ensures { IfOk result (λ copy. copy ≡ place.now) }
{
    match place {
        Some(list) => {
            let copy = list.copy()?;
            Ok(Some(copy))
        }
        None => Ok(None),
    }
}

/// A number that has no list in the table.
pub(crate) fn free_number(places: &[Place]) -> usize
    ensures free { list_at places.now result ≡ None }
    ensures within { result ≤ length places.now }
{
    for (number, place) in places.iter().enumerate() {
        if place.is_none() {
            return number;
        }
    }
    places.len()
}

/// Gives the number to the list in the table's places.
pub(crate) fn set_list(places: &mut Vec<Place>, number: usize, list: SharedList) -> Mem<()>
    ensures { OnOk result (number ≤ length places.old.items → (k : ℕ)
        → list_at places.new.items k
        ≡ (if k == number then Some list else list_at places.old.items k)) }
{
    if number < places.len() {
        places[number] = Some(list);
        return Ok(());
    }
    places.push(Some(list))?;
    Ok(())
}

/// Frees the number of a list in the table's places.
pub(crate) fn free_list(places: &mut Vec<Place>, number: usize)
    ensures { (k : ℕ) → list_at places.new.items k
        ≡ (if k == number then None else list_at places.old.items k) }
{
    if number < places.len() {
        places[number] = None;
    }
}
