//! [`Held`]: a keeper over two disks in memory.

ghost use Rattle.std.specs.Prelude.{◌≡◌};
ghost use Rattle.pod_disk.specs.NotedCalls.{MayLeave};
ghost use Rattle.pod_keeper.specs.Kept.{StandsForSome};

use journal_log::OpenFault;
use pod_base::{Bytes, List, Mem, Moment, Request, Stamp, Text};
use pod_core::{Answer, is_change};
use pod_disk::{Disks, MemDisk};
use pod_keeper::{CommitFault, Keeper, Version};
use std::alloc::Global;
use std::marker::Model;
use token_table::Asked;

/// The moment of all steps.
pub(crate) const MOMENT: u64 = 784_111_777;

/// The owner of the pods, who makes all requests.
pub(crate) const OWNER: &str = "https://alice.example/#me";

/// A keeper, which stands for some history.
#[derive(Drop)]
pub(crate) struct Held {
    keeper: Keeper<MemDisk>,
}

impl Model for Held {
    ghost use Rattle.pod_disk.specs.NotedCalls.{MayLeave};
    ghost use Rattle.pod_keeper.specs.Kept.{StandsForSome};

    ghost Value = { Unit {0} };

    ghost view = { λ h. tt };

    ghost invariant = { λ h. StandsForSome MayLeave h.keeper };
}

impl Held {
    /// Opens a store, with the records of its active journal.
    pub(crate) fn open(
        alloc: Global,
        disks: Disks<MemDisk>,
    ) -> Result<(Held, List<Bytes>), OpenFault> {
        match Keeper::open_records(alloc, disks) {
            Ok((keeper, records)) => Ok((Held { keeper }, records)),
            Err(refused) => Err(refused.fault),
        }
    }

    /// Its version.
    pub(crate) fn version(&self) -> &Version {
        &**self.keeper.version()
    }

    /// The number of its next entry.
    pub(crate) fn seq(&self) -> u64 {
        self.keeper.seq()
    }

    /// Gives the disks back.
    pub(crate) fn close(self) -> Disks<MemDisk> {
        self.keeper.close()
    }

    /// Commits a request of the owner's. None where its method makes no change.
    pub(crate) fn commit(
        &mut self,
        alloc: Global,
        request: &Request,
    ) -> Mem<Option<Result<Answer, CommitFault>>> {
        if !is_change(request.method) {
            return Ok(None);
        }
        let owner = Text::of(alloc, OWNER)?;
        let stamp = Stamp {
            conn: 1,
            number: 1,
            moment: Moment(MOMENT),
        };
        let asked = Asked::Known(&owner);
        Ok(Some(self.keeper.commit(alloc, request, &asked, stamp)))
    }

    /// Makes a checkpoint.
    pub(crate) fn checkpoint(&mut self, alloc: Global) -> Result<(), CommitFault> {
        self.keeper.checkpoint(alloc)
    }
}
