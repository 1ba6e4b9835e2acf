//! [`Keeper`]: the one writer of a pod.
ghost use Rattle.std.specs.Prelude.{◌≡◌, IfOk};
ghost use Rattle.std.specs.Arc.{arc_value};

use journal_pair::Pair;
use pod_base::{Mem, Moment, NoMemory};
use pod_disk::{Disk, Disks};
use pod_pages::Version;
use pod_rows::PodState;
use std::alloc::Global;
use std::marker::Model;
use std::sync::Arc;

/// The one writer of a pod, over the two disks of its store. It keeps the current version, and the
/// moment of the last entry.
///
/// Contracts see the disks, the state of their pair, the version and that moment (`KeeperState`),
/// and `IsKept` defines which histories the keeper represents.
#[derive(Drop)]
pub struct Keeper<D: Disk> {
    pub(crate) disks: Disks<D>,
    pub(crate) pair: Pair,
    pub(crate) version: Arc<Version>,
    pub(crate) last: Option<Moment>,
}

/// The version that a keeper holds, reference-counted.
pub(crate) fn shared(alloc: Global, version: Version) -> Mem<Arc<Version>>
    ensures { IfOk result (λ shared. arc_value shared ≡ version) }
{
    match Arc::new(alloc, version) {
        Ok(shared) => Ok(shared),
        Err(_) => Err(NoMemory),
    }
}

impl<D: Disk> Model for Keeper<D> {
    ghost use Rattle.std.specs.Arc.{arc_value};
    ghost use Rattle.pod_keeper.specs.KeeperState.{KeeperState};

    ghost Value = { KeeperState D };

    ghost view = { λ k. record {
      first = k.disks.first;
      second = k.disks.second;
      pair = k.pair;
      pod = (arc_value k.version).pod;
      next = (arc_value k.version).next;
      effects = (arc_value k.version).effects;
      oldest = (arc_value k.version).oldest;
      last = k.last;
    } };
}

impl<D: Disk> Keeper<D> {
    /// The current version of the keeper's pod.
    pub fn version(&self) -> &Arc<Version>
        ensures pod { (arc_value result.now).pod ≡ self.now.pod }
        ensures next { (arc_value result.now).next ≡ self.now.next }
        ensures effects { (arc_value result.now).effects ≡ self.now.effects }
        ensures oldest { (arc_value result.now).oldest ≡ self.now.oldest }
    {
        &self.version
    }

    /// The number of the keeper's next entry.
    pub fn seq(&self) -> u64
        ensures { result ≡ self.now.next }
    {
        self.version.next()
    }

    /// The moment of the keeper's last entry.
    pub fn last(&self) -> Option<Moment>
        ensures { result ≡ self.now.last }
    {
        self.last
    }

    /// Closes the keeper, and returns its disks as they are.
    pub fn close(self) -> Disks<D>
        ensures first { result.first ≡ self.first }
        ensures second { result.second ≡ self.second }
    {
        self.disks
    }
}
