//! [`PlainRows`]: a state as one list of rows.
ghost use Rattle.std.specs.Prelude.{◌≡◌, ◌≤◌, ◌^◌, IfOk, IsErrOf, IsTrue, nat_eq, refl};
ghost use Rattle.std.specs.List.{starts_with};
ghost use Rattle.pod_rows.specs.Members.{is_member_at, states_member};
ghost use Rattle.pod_rows.specs.declared.plain_rows.StateFault.TheVariants.{NoMemory as OutOfMemory};
ghost use Rattle.pod_rows.specs.Pod.{is_row};
ghost use Rattle.pod_rows.specs.RowLists.{paths_below};
ghost use Rattle.pod_rows.specs.Tree.{children_of, has_child, is_child_of};
ghost use Rattle.pod_rows.specs.WellFormed.{WellFormed, IsWellFormedSnapshot, pod_of};

use crate::acl_list::{AclList, about, inherited, list_at, lists_of};
use crate::row_search::row_in;
use crate::rows_after_edits::{after_edits, copy_rows};
use crate::state_trait::{Effective, PodState};
use crate::well_formed::is_well_formed;
use acl_rules::vocabulary::VCARD_HAS_MEMBER;
use acl_rules::{Groups, How};
use iri_ref::Iri;
use pod_base::{List, Mem, NoMemory, Text};
use pod_command::{Content, Entry, Kind, Row, Snapshot};
use pod_path::{Path, Taken, parent_text};
use rdf_graph::copy_iri;
use slug_naming::TakenNames;
use std::alloc::Global;
use std::marker::Model;
use thiserror::Error;

/// Why there is no state of a snapshot.
#[derive(Clone, Copy, Debug, PartialEq, Eq, Error)]
pub enum StateFault {
    /// The snapshot isn't well-formed.
    #[error("not well-formed")]
    NotWellFormed,
    /// Out of memory.
    #[error("out of memory")]
    NoMemory,
}

impl From<NoMemory> for StateFault {
    ghost from_gives = { λ _ fault. fault ≡ OutOfMemory };

    fn from(_error: NoMemory) -> StateFault {
        StateFault::NoMemory
    }
}

/// A state as one list of rows, with the rules of its access lists. Each change makes a new list,
/// whose texts and bytes share the memory of the old one.
#[derive(Drop)]
pub struct PlainRows {
    next: u64,
    base: Iri,
    owner: Text,
    rows: Vec<Row>,
    lists: Vec<AclList>,
}

impl Model for PlainRows {
    ghost use Rattle.pod_rows.specs.AclLists.{KeepsLists};
    ghost use Rattle.pod_rows.specs.State.{NumberedPod};

    ghost Value = { NumberedPod };

    ghost view = { λ s. record {
      pod = record { base = s.base; owner = s.owner; rows = s.rows.items };
      next = s.next;
    } };

    ghost invariant = { λ s. KeepsLists (record {
      pod = record { base = s.base; owner = s.owner; rows = s.rows.items };
      next = s.next;
    }) s.lists.items };
}

impl PlainRows {
    /// The plain rows of a snapshot, as a state.
    ///
    /// # Errors
    ///
    /// [`StateFault::NotWellFormed`] exactly where the snapshot isn't well-formed.
    pub fn of(alloc: Global, snapshot: &Snapshot) -> Result<PlainRows, StateFault>
        ensures pod { IfOk result (λ state. state.pod ≡ pod_of snapshot.now) }
        ensures next { IfOk result (λ state. state.next ≡ snapshot.now.seq) }
        ensures well_formed { IfOk result (λ _. IsWellFormedSnapshot snapshot.now) }
        ensures refused { IsErrOf result StateFault.NotWellFormed
            → IsWellFormedSnapshot snapshot.now → ⊥ }
    {
        if !is_snapshot_well_formed(alloc, snapshot)? {
            return Err(StateFault::NotWellFormed);
        }
        let base = copy_iri(alloc, &snapshot.base)?;
        let owner = snapshot.owner.copy(alloc)?;
        let rows = copy_rows(alloc, snapshot.rows.as_slice())?;
        let state = PlainRows::with_rows(alloc, snapshot.seq, base, owner, rows)?;
        Ok(state)
    }

    /// The state with these plain rows.
    fn with_rows(alloc: Global, next: u64, base: Iri, owner: Text, rows: Vec<Row>) -> Mem<PlainRows>
        requires number { next ≤ 2 ^ 63 }
        requires well_formed { WellFormed
            (record { base = base; owner = owner; rows = rows.items }) }
        ensures pod { IfOk result (λ state. state.pod
            ≡ record { base = base; owner = owner; rows = rows.items }) }
        ensures next { IfOk result (λ state. state.next ≡ next) }
    {
        let lists = lists_of(alloc, &base, rows.as_slice())?;
        Ok(PlainRows {
            next,
            base,
            owner,
            rows,
            lists,
        })
    }
}

/// Whether the snapshot is well-formed, so that there are [`PlainRows`] of it.
pub fn is_snapshot_well_formed(alloc: Global, snapshot: &Snapshot) -> Mem<bool>
    ensures sound { IfOk result (λ r. IsTrue r → IsWellFormedSnapshot snapshot.now) }
    ensures complete { IfOk result (λ r. IsWellFormedSnapshot snapshot.now → IsTrue r) }
{
    if snapshot.seq > 1 << 63 {
        return Ok(false);
    }
    is_well_formed(
        alloc,
        &snapshot.base,
        &snapshot.owner,
        snapshot.rows.as_slice(),
    )
}

/// Whether a row, such as one of the plain rows, is a child of the container. It takes no memory.
pub fn is_child_of(container: &Path, row: &Row) -> bool
    ensures { result ≡ is_child_of container.now row.now }
{
    if row.path.is_acl() || row.path.is_meta() || row.path.is_root() {
        return false;
    }
    parent_text(row.path.as_str()) == container.as_str()
}

/// The paths of a container's children among plain rows, in their order.
fn children_of(alloc: Global, rows: &[Row], container: &Path) -> Mem<Vec<Path>>
    ensures { IfOk result (λ paths. paths.items ≡ children_of rows.now container.now) }
{
    let mut paths = Vec::new(alloc);
    for row in rows {
        if is_child_of(container, row) {
            let path = row.path.copy(alloc)?;
            paths.push(path)?;
        }
    }
    Ok(paths)
}

/// Whether one of the plain rows is a child of the container.
fn has_child(rows: &[Row], container: &Path) -> bool
    ensures { result ≡ has_child rows.now container.now }
{
    rows.iter().any(|row| is_child_of(container, row))
}

/// Whether the path of a plain row begins with a text.
fn begins_with(row: &Row, text: &str) -> bool
    ensures { result ≡ starts_with nat_eq row.now.path text.now }
{
    row.path.as_str().as_bytes().starts_with(text.as_bytes())
}

/// The paths among plain rows that begin with a text, in their order.
fn paths_below(alloc: Global, rows: &[Row], text: &str) -> Mem<Vec<Path>>
    ensures { IfOk result (λ paths. paths.items ≡ paths_below rows.now text.now) }
{
    let mut paths = Vec::new(alloc);
    for row in rows {
        if begins_with(row, text) {
            let path = row.path.copy(alloc)?;
            paths.push(path)?;
        }
    }
    Ok(paths)
}

/// Whether a row that is a document of RDF states that the agent is a member of the group.
pub fn states_member(group: &str, agent: &str, row: &Row) -> bool
    ensures { result ≡ states_member group.now agent.now row.now.kind row.now.content }
{
    match row.kind {
        Kind::Graph => match &row.content {
            Content::Graph(stored) => stored.graph().has_iris(group, VCARD_HAS_MEMBER, agent),
            Content::Bytes { ctype: _, bytes: _ } => false,
        },
        Kind::Container | Kind::Acl | Kind::Bytes | Kind::Meta => false,
    }
}

impl Taken for PlainRows {
    ghost is_row = { λ state. is_row state.pod.rows };

    fn taken(&self, path: &Path) -> bool {
        self.find(path).is_some()
    }

    fn taken_text(&self, text: &str) -> bool {
        row_in(self.rows.as_slice(), text).is_some()
    }
}

impl TakenNames for PlainRows {
    fn taken_below(&self, alloc: Global, text: &str) -> Mem<List<Path>> {
        let paths = paths_below(alloc, self.rows.as_slice(), text)?;
        Ok(List::from_vec(paths))
    }
}

impl Groups for PlainRows {
    ghost is_member = { λ state. is_member_at state.pod.rows };

    fn member(&self, doc: &Path, group: &str, agent: &str) -> bool {
        match self.find(doc) {
            Some(row) => states_member(group, agent, row),
            None => false,
        }
    }
}

impl PodState for PlainRows {
    ghost pod = { λ state. state.pod };

    ghost next_number = { λ state. state.next };

    fn next(&self) -> u64 {
        self.next
    }

    fn base(&self) -> &Iri {
        &self.base
    }

    fn owner(&self) -> &Text {
        &self.owner
    }

    fn count(&self) -> usize {
        self.rows.len()
    }

    fn find(&self, path: &Path) -> Option<&Row> {
        row_in(self.rows.as_slice(), path.as_str())
    }

    fn children(&self, alloc: Global, path: &Path) -> Mem<List<Path>> {
        let paths = children_of(alloc, self.rows.as_slice(), path)?;
        Ok(List::from_vec(paths))
    }

    fn has_children(&self, _alloc: Global, path: &Path) -> Mem<bool> {
        Ok(has_child(self.rows.as_slice(), path))
    }

    fn effective(&self, path: &Path) -> Effective<'_> {
        let lists = self.lists.as_slice();
        let text = about(path.as_str()).as_bytes();
        match list_at(lists, text) {
            Some(list) => Effective {
                at: &list.at,
                how: How::Own,
                rules: &list.rules,
            },
            None => match inherited(lists, text) {
                Some(list) => Effective {
                    at: &list.at,
                    how: How::Inherited,
                    rules: &list.rules,
                },
                None => unreachable!(),
            },
        }
    }

    fn rows(&self, alloc: Global) -> Mem<List<Row>> {
        let rows = copy_rows(alloc, self.rows.as_slice())?;
        Ok(List::from_vec(rows))
    }

    fn after(&self, alloc: Global, entry: &Entry) -> Mem<PlainRows> {
        match after_edits(alloc, self.rows.as_slice(), entry.edits.as_slice())? {
            Some(rows) => {
                let base = copy_iri(alloc, &self.base)?;
                let owner = self.owner.copy(alloc)?;
                PlainRows::with_rows(alloc, self.next + 1, base, owner, rows)
            }
            None => unreachable!(),
        }
    }

    fn is_well_formed(&self) {
        let _rows = self.rows.as_slice();
    }

    ghost rows_are = { λ _ _. refl };

    ghost members_are = { λ _ _ _ _. refl };
}
