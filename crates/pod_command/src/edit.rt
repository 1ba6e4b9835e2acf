//! [`Edit`]: one step of a change.
ghost use Rattle.std.specs.Prelude.{◌≡◌, IfOk};

use crate::row::Row;
use pod_base::{Mem, Moment};
use pod_path::Path;
use rdf_graph::Change;
use std::alloc::Global;

/// One step of a change of a pod.
#[derive(Debug, Drop)]
pub enum Edit {
    /// Adds the row, or replaces the one at its path.
    Put(Row),
    /// Changes the graph of a row.
    Change {
        path: Path,
        change: Change,
        modified: Moment,
    },
    /// Sets when a row was last changed.
    Touch {
        path: Path,
        modified: Moment,
    },
    /// Removes a row.
    Remove {
        path: Path,
    },
}

impl Edit {
    /// A copy of the edit.
    pub fn copy(&self, alloc: Global) -> Mem<Edit>
        ensures { IfOk result (λ copy. copy ≡ self.now) }
    {
        match self {
            Edit::Put(row) => {
                let row = row.copy(alloc)?;
                Ok(Edit::Put(row))
            }
            Edit::Change {
                path,
                change,
                modified,
            } => {
                let path = path.copy(alloc)?;
                let change = change.copy(alloc)?;
                Ok(Edit::Change {
                    path,
                    change,
                    modified: *modified,
                })
            }
            Edit::Touch { path, modified } => {
                let path = path.copy(alloc)?;
                Ok(Edit::Touch {
                    path,
                    modified: *modified,
                })
            }
            Edit::Remove { path } => {
                let path = path.copy(alloc)?;
                Ok(Edit::Remove { path })
            }
        }
    }
}
