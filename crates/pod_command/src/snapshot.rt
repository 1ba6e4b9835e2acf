//! [`Snapshot`]: a whole pod.
ghost use Rattle.std.specs.Prelude.{◌≡◌, IfOk};
ghost use Rattle.pod_command.specs.Bare.{bare_snapshot};

use crate::copies::copy_list;
use crate::row::Row;
use iri_ref::Iri;
use pod_base::{List, Mem, Text};
use rdf_graph::copy_iri;
use std::alloc::Global;

/// A whole pod: the number of its next change, its base and owner, and its rows.
#[derive(Debug, Drop)]
pub struct Snapshot {
    pub seq: u64,
    pub base: Iri,
    pub owner: Text,
    pub rows: List<Row>,
}

impl Snapshot {
    /// A copy of the snapshot. Its list has no spare room.
    pub fn copy(&self, alloc: Global) -> Mem<Snapshot>
        ensures { IfOk result (λ copy. copy ≡ bare_snapshot self.now) }
    {
        let base = copy_iri(alloc, &self.base)?;
        let owner = self.owner.copy(alloc)?;
        let rows = copy_list(alloc, self.rows.as_slice())?;
        Ok(Snapshot {
            seq: self.seq,
            base,
            owner,
            rows: List::from_vec(rows),
        })
    }
}
