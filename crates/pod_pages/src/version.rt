//! [`Version`]: a state of a pod in pages that versions share.
ghost use Rattle.std.specs.Prelude.{◌≡◌, ◌+◌, ◌<◌, ◌≤◌, ◌^◌, ◌++◌, ℕ, [], IfOk, IfNone, IfSome};
ghost use Rattle.std.specs.Prelude.{IsErrOf, OnErr, OnOk};
ghost use Rattle.std.specs.Prelude.{List as ListOf, None, Some, filter, is_some, length, map, refl};
ghost use Rattle.std.specs.Prelude.{true};
ghost use Rattle.pod_command.specs.Encodable.{AreInOrder};
ghost use Rattle.pod_command.specs.declared.row.Row.{Row};
ghost use Rattle.pod_rows.specs.Access.{effective_of, governed, rules_at};
ghost use Rattle.pod_rows.specs.Apply.{Applies};
ghost use Rattle.pod_rows.specs.Members.{is_member_at};
ghost use Rattle.pod_rows.specs.Pod.{is_row, row_at};
ghost use Rattle.pod_rows.specs.Tree.{is_child_of};
ghost use Rattle.pod_rows.specs.WellFormed.{IsWellFormedSnapshot, pod_of};
ghost use Rattle.row_pages.specs.Items.{Placed, rows_of};
ghost use Rattle.pod_pages.specs.Lists.{list_at};
ghost use Rattle.pod_pages.specs.Marks.{how_of};
ghost use Rattle.pod_pages.specs.Effects.{entry_effects, kept_effects, oldest_after};
ghost use Rattle.pod_pages.specs.State.{first_state, state_after, with_effects};
ghost use Rattle.pod_pages.specs.Versions.{path_of_edit, unmarked};
ghost use Rattle.pod_pages.specs.declared.entry_effects.Effect.{Effect as EffectValue};

use crate::edits_in_pages::{after_edits, row_at};
use crate::entry_effects::{Effect, is_row, kept_effects, oldest_after};
use crate::first_child::has_child;
use crate::item_paths::item_paths;
use crate::list_table::ListTable;
use crate::marks_after_change::marked_again;
use crate::row_marks::path_mark;
use crate::single_put::{edit_path, placing_of, put_placing};
use acl_rules::{Groups, How};
use iri_ref::Iri;
use pod_base::{List, Mem, Text};
use pod_command::{Edit, Entry, Row, Snapshot};
use pod_path::{Path, Taken};
use pod_rows::{
    Effective, PodState, StateFault, is_child_of, is_snapshot_well_formed, states_member,
};
use rdf_graph::copy_iri;
use row_pages::{Item, Rows, Sought, Steps};
use slug_naming::TakenNames;
use std::alloc::Global;
use std::marker::Model;
use std::sync::ledger::Ledger;

/// A state of a pod. [`PodState::after`] makes a new one, which shares with it all pages, rows and
/// access lists that stay; [`Version::advance`] changes this one, and in place what nobody shares.
#[derive(Drop)]
pub struct Version {
    next: u64,
    base: Iri,
    owner: Text,
    rows: Rows,
    table: ListTable,
    effects: Vec<Effect>,
    oldest: u64,
}

impl Model for Version {
    ghost use Rattle.pod_pages.specs.State.{VersionState};
    ghost use Rattle.pod_pages.specs.Versions.{IsVersion, state_of};

    ghost Value = { VersionState };

    ghost view = { λ v. state_of v.next v.base v.owner v.rows v.effects.items v.oldest };

    ghost invariant = { λ v. IsVersion
        (state_of v.next v.base v.owner v.rows v.effects.items v.oldest) v.rows v.table };
}

impl Version {
    /// The version of a snapshot. It keeps no effects.
    ///
    /// # Errors
    ///
    /// [`StateFault::NotWellFormed`] exactly where the snapshot isn't well-formed.
    pub fn of(alloc: Global, snapshot: Snapshot) -> Result<Version, StateFault>
        ensures version { IfOk result (λ version. version ≡ first_state snapshot) }
        ensures well_formed { IfOk result (λ _. IsWellFormedSnapshot snapshot) }
        ensures refused { IsErrOf result StateFault.NotWellFormed
            → IsWellFormedSnapshot snapshot → ⊥ }
    {
        if !is_snapshot_well_formed(alloc, &snapshot)? {
            return Err(StateFault::NotWellFormed);
        }
        let version = first_version(alloc, snapshot)?;
        Ok(version)
    }

    /// The number of the version's next change, at most 2^63.
    pub fn seq(&self) -> u64
        ensures next { result ≡ self.now.next }
        ensures most { self.now.next ≤ 2 ^ 63 }
    {
        self.next
    }

    /// The effects of the version's last [`crate::EFFECTS_ENTRIES_LIMIT`] entries, in order.
    pub fn effects(&self) -> &[Effect]
        ensures { result.now ≡ self.now.effects }
    {
        self.effects.as_slice()
    }

    /// The number of the oldest entry whose effects the version keeps; that of the next change
    /// where there are none.
    pub fn oldest(&self) -> u64
        ensures oldest { result ≡ self.now.oldest }
        ensures most { self.now.oldest ≤ self.now.next }
    {
        self.oldest
    }

    /// An equal version, which shares its memory.
    pub fn share(&self, alloc: Global) -> Mem<Version>
        ensures { IfOk result (λ version. version ≡ self.now) }
    {
        let base = copy_iri(alloc, &self.base)?;
        let owner = self.owner.copy(alloc)?;
        let rows = self.rows.share(alloc)?;
        let table = self.table.share()?;
        let effects = kept_effects(alloc, self.effects.as_slice(), 0)?;
        Ok(Version {
            next: self.next,
            base,
            owner,
            rows,
            table,
            effects,
            oldest: self.oldest,
        })
    }

    /// The version's row at a path, of which it knows [`Sought`] alone, and the access list that
    /// governs the row. `steps` counts the comparisons of the path: at most 16 more than the binary
    /// digits of the number of rows.
    pub fn find_counted<P: Sought<L>, L: Ledger>(
        &self,
        path: &P,
        steps: &mut Steps<L>,
    ) -> Option<(&Row, Effective<'_>)>
        ensures some { IfSome result (λ found. row_at self.now.pod.rows (P.text path.now)
            ≡ Some found.0.now) }
        ensures governs { IfSome result (λ found. effective_of self.now.pod.rows (P.text path.now)
            ≡ Some (governed found.1.at.now found.1.how)) }
        ensures rules { IfSome result (λ found. found.1.rules.now.list
            ≡ rules_at self.now.pod found.1.at.now) }
        ensures none { IfNone result (row_at self.now.pod.rows (P.text path.now) ≡ None) }
        ensures cost { (b : ℕ) → length self.now.pod.rows < 2 ^ b
            → steps.new ≤ steps.old + b + 16 }
    {
        match self.rows.find_counted(path, steps) {
            Some(item) => Some((item.row(), access(&self.table, item.list(), item.is_own()))),
            None => None,
        }
    }
}

/// The version of a snapshot that is well-formed.
fn first_version(alloc: Global, snapshot: Snapshot) -> Mem<Version>
    requires { IsWellFormedSnapshot snapshot }
    ensures { IfOk result (λ version. version ≡ first_state snapshot) }
{
    let Snapshot {
        seq,
        base,
        owner,
        rows,
    } = snapshot;
    let paths = paths_of(alloc, rows.as_slice())?;
    let rows = first_rows(alloc, rows)?;
    let none = ListTable::new(alloc, Vec::new(alloc))?;
    let resolved = marked_again(alloc, &base, &rows, &none, &rows, paths.as_slice())?;
    Ok(Version {
        next: seq,
        base,
        owner,
        rows: resolved.rows,
        table: resolved.table,
        effects: Vec::new(alloc),
        oldest: seq,
    })
}

/// The rows of a first version, without marks. None is copied.
fn first_rows(alloc: Global, rows: List<Row>) -> Mem<Rows>
    requires { AreInOrder rows.items }
    ensures { IfOk result (λ all. all ≡ map unmarked rows.items) }
{
    let mut items = Vec::with_capacity(alloc, rows.len())?;
    for row in rows.into_vec() {
        let item = Item::new(alloc, row, 0, false)?;
        items.push(item)?;
    }
    let all = Rows::of(alloc, items.as_slice())?;
    Ok(all)
}

/// The paths of a first version's rows.
fn paths_of(alloc: Global, rows: &[Row]) -> Mem<Vec<Path>>
    ensures { IfOk result (λ paths. paths.items ≡ map (λ (row : Row). row.path) rows.now) }
{
    let mut paths = Vec::with_capacity(alloc, rows.len())?;
    for row in rows {
        let path = row.path.copy(alloc)?;
        paths.push(path)?;
    }
    Ok(paths)
}

/// The paths of the edits between two versions.
fn edit_paths(alloc: Global, edits: &[Edit]) -> Mem<Vec<Path>>
    ensures { IfOk result (λ paths. paths.items ≡ map path_of_edit edits.now) }
{
    let mut paths = Vec::with_capacity(alloc, edits.len())?;
    for edit in edits {
        let path = edit_path(edit).copy(alloc)?;
        paths.push(path)?;
    }
    Ok(paths)
}

/// How an access list of a version governs a path, as its own list or an inherited one.
fn how_of(own: bool) -> How
    ensures { result ≡ how_of own }
{
    if own { How::Own } else { How::Inherited }
}

/// The version's access list with a number, as it governs a path.
fn access(table: &ListTable, number: u32, own: bool) -> Effective<'_>
    requires { is_some (list_at table.now number) ≡ true }
    ensures list { list_at table.entry.now number
        ≡ Some (record { at = result.at.now; rules = result.rules.now }) }
    ensures how { result.how ≡ how_of own }
{
    match table.list(number) {
        Some(list) => Effective {
            at: &list.at,
            how: how_of(own),
            rules: &list.rules,
        },
        None => unreachable!(),
    }
}

/// The paths of a container's children among a version's items, in their order.
fn children_among(alloc: Global, items: &[Item], container: &Path) -> Mem<Vec<Path>>
    ensures { IfOk result (λ paths. paths.items
        ≡ map (λ (item : Placed). item.row.path)
        (filter (λ (item : Placed). is_child_of container.now item.row) items.now)) }
{
    let mut paths = Vec::new(alloc);
    for item in items {
        if is_child_of(container, item.row()) {
            let path = item.row().path.copy(alloc)?;
            paths.push(path)?;
        }
    }
    Ok(paths)
}

/// Copies of the rows of a version's items.
fn copy_rows(alloc: Global, items: &[Item]) -> Mem<Vec<Row>>
    ensures { IfOk result (λ rows. rows.items ≡ rows_of items.now) }
{
    let mut rows = Vec::with_capacity(alloc, items.len())?;
    for item in items {
        let row = item.row().copy(alloc)?;
        rows.push(row)?;
    }
    Ok(rows)
}

impl Taken for Version {
    ghost is_row = { λ state. is_row state.pod.rows };

    fn taken(&self, path: &Path) -> bool {
        is_row(&self.rows, path)
    }

    fn taken_text(&self, text: &str) -> bool {
        self.rows.find(text.as_bytes()).is_some()
    }
}

impl TakenNames for Version {
    fn taken_below(&self, alloc: Global, text: &str) -> Mem<List<Path>> {
        let items = self.rows.below(alloc, text.as_bytes())?;
        let paths = item_paths(alloc, items.as_slice())?;
        Ok(List::from_vec(paths))
    }
}

impl Groups for Version {
    ghost is_member = { λ state. is_member_at state.pod.rows };

    fn member(&self, doc: &Path, group: &str, agent: &str) -> bool {
        match row_at(&self.rows, doc) {
            Some(row) => states_member(group, agent, row),
            None => false,
        }
    }
}

impl PodState for Version {
    ghost pod = { λ state. state.pod };

    ghost next_number = { λ state. state.next };

    fn next(&self) -> u64 {
        self.next
    }

    fn base(&self) -> &Iri {
        &self.base
    }

    fn owner(&self) -> &Text {
        &self.owner
    }

    fn count(&self) -> usize {
        self.rows.len()
    }

    fn find(&self, path: &Path) -> Option<&Row> {
        row_at(&self.rows, path)
    }

    fn children(&self, alloc: Global, path: &Path) -> Mem<List<Path>> {
        let below = self.rows.direct_below(alloc, path.as_str().as_bytes())?;
        let paths = children_among(alloc, below.as_slice(), path)?;
        Ok(List::from_vec(paths))
    }

    fn has_children(&self, alloc: Global, path: &Path) -> Mem<bool> {
        let found = has_child(alloc, &self.rows, path)?;
        Ok(found)
    }

    fn effective(&self, path: &Path) -> Effective<'_> {
        match self.rows.find(path.as_str().as_bytes()) {
            Some(item) => access(&self.table, item.list(), item.is_own()),
            None => match path_mark(&self.rows, path) {
                Some(mark) => access(&self.table, mark.list, mark.own),
                None => unreachable!(),
            },
        }
    }

    fn rows(&self, alloc: Global) -> Mem<List<Row>> {
        let items = self.rows.below(alloc, b"")?;
        let rows = copy_rows(alloc, items.as_slice())?;
        Ok(List::from_vec(rows))
    }

    fn after(&self, alloc: Global, entry: &Entry) -> Mem<Version> {
        let version = self.after_entry(alloc, entry)?;
        Ok(version)
    }

    fn is_well_formed(&self) {
        let _rows = self.rows.len();
    }

    ghost rows_are = { λ _ _. refl };

    ghost members_are = { λ _ _ _ _. refl };
}

impl Version {
    /// The version after an entry that applies to it: [`PodState::after`] with the effects.
    pub fn after_entry(&self, alloc: Global, entry: &Entry) -> Mem<Version>
        requires { Applies self.now.pod self.now.next entry.now }
        ensures { IfOk result (λ version. version ≡ state_after self.now entry.now) }
    {
        let oldest = oldest_after(self.oldest, self.next + 1);
        let kept = kept_effects(alloc, self.effects.as_slice(), oldest)?;
        self.after_with(alloc, entry, oldest, kept)
    }

    /// The version becomes the one after an entry that applies to it, without effects. An entry that
    /// puts one row alone, and no access list, changes in place what no other version shares. Out of
    /// memory, the version stays as it was.
    pub fn advance(&mut self, alloc: Global, entry: &Entry) -> Mem<()>
        requires { Applies self.old.pod self.old.next entry.now }
        ensures version { OnOk result (self.new
            ≡ with_effects [] (state_after self.old entry.now)) }
        ensures kept { OnErr result (self.new ≡ self.old) }
    {
        match placing_of(alloc, &self.rows, entry)? {
            Some(placing) => {
                let oldest = self.next_oldest();
                self.rows.set(alloc, placing.item)?;
                self.next += 1;
                self.effects.clear();
                self.oldest = oldest;
                Ok(())
            }
            None => {
                let (next, _effects) = self.bare_after(alloc, entry)?;
                *self = next;
                Ok(())
            }
        }
    }

    /// The number of the oldest entry whose effects the version keeps after the next one.
    fn next_oldest(&self) -> u64
        ensures oldest { result ≡ oldest_after self.now.oldest (self.now.next + 1) }
        ensures most { self.now.oldest ≤ self.now.next }
    {
        oldest_after(self.oldest, self.next + 1)
    }

    /// The version without effects after an entry that applies to it, of a version that nobody
    /// needs any more. It appends the effects of the entry.
    ///
    /// An entry that puts one row alone, and no access list, changes a version in place that nobody
    /// shares: no page is copied.
    pub(crate) fn into_next(
        self,
        alloc: Global,
        entry: &Entry,
        effects: &mut Vec<Effect>,
    ) -> Mem<Version>
        requires { Applies self.pod self.next entry.now }
        ensures version { IfOk result (λ version. version
            ≡ with_effects [] (state_after self entry.now)) }
        ensures effects { OnOk result (effects.new.items
            ≡ effects.old.items ++ entry_effects self.pod entry.now) }
    {
        match placing_of(alloc, &self.rows, entry)? {
            Some(placing) => {
                let oldest = self.next_oldest();
                let rows = put_placing(alloc, self.rows, entry.seq, placing, effects)?;
                Ok(Version {
                    next: self.next + 1,
                    base: self.base,
                    owner: self.owner,
                    rows,
                    table: self.table,
                    effects: Vec::new(alloc),
                    oldest,
                })
            }
            None => self.into_edited(alloc, entry, effects),
        }
    }

    /// The version without effects after any entry that applies to it, of a version that nobody
    /// needs any more.
    fn into_edited(self, alloc: Global, entry: &Entry, effects: &mut Vec<Effect>) -> Mem<Version>
        requires { Applies self.pod self.next entry.now }
        ensures version { IfOk result (λ version. version
            ≡ with_effects [] (state_after self entry.now)) }
        ensures effects { OnOk result (effects.new.items
            ≡ effects.old.items ++ entry_effects self.pod entry.now) }
    {
        let (bare, mut new) = self.bare_after(alloc, entry)?;
        effects.append(&mut new)?;
        Ok(bare)
    }

    /// The version after an entry that applies, without effects, and the effects of the entry.
    fn bare_after(&self, alloc: Global, entry: &Entry) -> Mem<(Version, Vec<Effect>)>
        requires { Applies self.now.pod self.now.next entry.now }
        ensures version { IfOk result (λ after. after.0
            ≡ with_effects [] (state_after self.now entry.now)) }
        ensures effects { IfOk result (λ after. after.1.items
            ≡ entry_effects self.now.pod entry.now) }
    {
        let oldest = self.next_oldest();
        let next = self.after_with(alloc, entry, oldest, Vec::new(alloc))?;
        let (bare, new) = next.into_bare(alloc);
        Ok((bare, new))
    }

    /// The version with these effects in place of its own.
    pub(crate) fn with_effects(self, effects: Vec<Effect>) -> Version
        ensures { result ≡ with_effects effects.items self }
    {
        Version {
            next: self.next,
            base: self.base,
            owner: self.owner,
            rows: self.rows,
            table: self.table,
            effects,
            oldest: self.oldest,
        }
    }

    /// The version without its effects, and these.
    fn into_bare(self, alloc: Global) -> (Version, Vec<Effect>)
        ensures bare { result.0 ≡ with_effects [] self }
        ensures effects { result.1.items ≡ self.effects }
    {
        let bare = Version {
            next: self.next,
            base: self.base,
            owner: self.owner,
            rows: self.rows,
            table: self.table,
            effects: Vec::new(alloc),
            oldest: self.oldest,
        };
        (bare, self.effects)
    }

    /// The version after an entry that applies. What is kept of the effects before it is given.
    fn after_with(
        &self,
        alloc: Global,
        entry: &Entry,
        oldest: u64,
        kept: Vec<Effect>,
    ) -> Mem<Version>
        requires applies { Applies self.now.pod self.now.next entry.now }
        requires oldest { oldest ≡ oldest_after self.now.oldest (self.now.next + 1) }
        requires kept { (before : ListOf EffectValue) × (kept.items ≡ kept_effects oldest before) }
        ensures { IfOk result (λ version. (before : ListOf EffectValue)
            → kept.items ≡ kept_effects oldest before
            → version ≡ state_after (with_effects before self.now) entry.now) }
    {
        let edits = entry.edits.as_slice();
        let mut effects = kept;
        let after = after_edits(alloc, entry.seq, &self.rows, edits, &mut effects)?;
        match after {
            Some(rows) => {
                let paths = edit_paths(alloc, edits)?;
                let resolved = marked_again(
                    alloc,
                    &self.base,
                    &self.rows,
                    &self.table,
                    &rows,
                    paths.as_slice(),
                )?;
                let base = copy_iri(alloc, &self.base)?;
                let owner = self.owner.copy(alloc)?;
                Ok(Version {
                    next: self.next + 1,
                    base,
                    owner,
                    rows: resolved.rows,
                    table: resolved.table,
                    effects,
                    oldest,
                })
            }
            None => unreachable!(),
        }
    }
}
