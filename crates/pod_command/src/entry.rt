//! [`Entry`]: one change of a pod.
ghost use Rattle.std.specs.Prelude.{◌≡◌, IfOk};
ghost use Rattle.pod_command.specs.Bare.{bare_entry};

use crate::basis::Basis;
use crate::copies::copy_list;
use crate::edit::Edit;
use pod_base::{Agent, List, Mem, Method, Moment};
use pod_path::Path;
use std::alloc::Global;

/// A change of a pod: its number, the request that made it, what it does, and what granted it.
#[derive(Debug, Drop)]
pub struct Entry {
    /// How many changes the pod had before.
    pub seq: u64,
    /// The connection of the request, and the number of the request in that connection.
    pub conn: u64,
    pub number: u64,
    /// The requesting agent.
    pub agent: Agent,
    pub moment: Moment,
    pub method: Method,
    pub path: Path,
    /// The steps, in order.
    pub edits: List<Edit>,
    /// One for each need of the request, in order.
    pub bases: List<Basis>,
}

impl Entry {
    /// A copy of the entry. Its lists have no spare room.
    pub fn copy(&self, alloc: Global) -> Mem<Entry>
        ensures { IfOk result (λ copy. copy ≡ bare_entry self.now) }
    {
        let agent = self.agent.copy(alloc)?;
        let path = self.path.copy(alloc)?;
        let edits = copy_list(alloc, self.edits.as_slice())?;
        let bases = copy_list(alloc, self.bases.as_slice())?;
        Ok(Entry {
            seq: self.seq,
            conn: self.conn,
            number: self.number,
            agent,
            moment: self.moment,
            method: self.method,
            path,
            edits: List::from_vec(edits),
            bases: List::from_vec(bases),
        })
    }
}
