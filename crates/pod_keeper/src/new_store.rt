//! New stores.

ghost use Rattle.std.specs.Prelude.{◌≡◌, ◌⊎◌, ◌≤◌, [], IfOk, OnOk, IsTrue, IsErrOf};
ghost use Rattle.iri_ref.specs.Components.{IsAbsolute};
ghost use Rattle.journal_pair.specs.PairMoments.{EachPair};
ghost use Rattle.pod_base.specs.Counts.{CountIncreased};
ghost use Rattle.pod_io.specs.Visible.{IfVisible};
ghost use Rattle.pod_keeper.specs.CrashedPods.{StandsFor};
ghost use Rattle.pod_keeper.specs.NewStores.{new_history, IsNewStore};
ghost use Rattle.pod_rows.specs.FirstPods.{first_pod};
ghost use Rattle.pod_records.specs.Records.{IsSnapshotText};
ghost use Rattle.pod_rows.specs.Base.{is_base};

use crate::fault::CommitFault;
use crate::keeper::Keeper;
use iri_ref::Iri;
use journal_log::{DiskFault, Framed};
use journal_pair::Pair;
use pod_base::{Mem, Moment, NoMemory, Text};
use pod_disk::{Disk, Disks};
use pod_records::record_of;
use pod_rows::{first_pods_are_well_formed, first_snapshot};
use std::alloc::Global;

/// The IRI that the text of a new store's owner is.
fn iri_of(alloc: Global, text: &Text) -> Mem<Iri>
    ensures { IfOk result (λ iri. iri ≡ text.now) }
{
    match Iri::read(alloc, text.as_str()) {
        Ok(iri) => Ok(iri),
        Err(_) => Err(NoMemory),
    }
}

/// The first record of a new store: the snapshot of a new pod.
fn first_record(alloc: Global, base: &Iri, owner: &Text, moment: Moment) -> Mem<Framed>
    requires { IsTrue (is_base base.now) }
    ensures { IfOk result (IsSnapshotText (first_pod base.now owner.now moment) 0) }
{
    let owner = iri_of(alloc, owner)?;
    let snapshot = first_snapshot(alloc, base, &owner, moment)?;
    first_pods_are_well_formed();
    record_of(alloc, &snapshot)
}

impl<D: Disk> Keeper<D> {
    /// Begins a new store on two empty disks, with the two first rows of a pod of that base and
    /// that owner, who is an absolute IRI. The rows have that moment. The first disk has a journal
    /// of format 2 and epoch 1 with these rows alone, and the second a closed head of epoch 0. A
    /// crash inside this call may leave anything.
    ///
    /// # Errors
    ///
    /// `NoMemory` comes before the first call of a disk.
    pub fn init(
        alloc: Global,
        disks: &mut Disks<D>,
        base: Iri,
        owner: Text,
        moment: Moment,
    ) -> Result<(), CommitFault>
        requires first_empty { IfVisible (D.content disks.old.first) (λ b. b ≡ []) }
        requires second_empty { IfVisible (D.content disks.old.second) (λ b. b ≡ []) }
        requires base { IsTrue (is_base base) }
        requires owner { IsAbsolute owner }
        ensures stands { OnOk result
            (EachPair (D.image disks.new.first) (D.image disks.new.second)
            (StandsFor (new_history base owner moment))) }
        ensures begun { OnOk result
            (EachPair (D.image disks.new.first) (D.image disks.new.second)
            (IsNewStore base owner moment)) }
        ensures memory { IsErrOf result CommitFault.NoMemory → (disks.new.first ≡ disks.old.first)
            × (disks.new.second ≡ disks.old.second) }
        ensures no_fewer_first { D.faults disks.old.first ≤ D.faults disks.new.first }
        ensures no_fewer_second { D.faults disks.old.second ≤ D.faults disks.new.second }
        ensures counted { IsErrOf result CommitFault.DiskFault
            → CountIncreased (D.faults disks.old.first) (D.faults disks.new.first)
            ⊎ CountIncreased (D.faults disks.old.second) (D.faults disks.new.second) }
    {
        match first_record(alloc, &base, &owner, moment) {
            Ok(record) => match Pair::init(&mut disks.first, &mut disks.second, &record) {
                Ok(pair) => {
                    pair.clean_stands(&disks.first, &disks.second);
                    Ok(())
                }
                Err(DiskFault) => Err(CommitFault::DiskFault),
            },
            Err(NoMemory) => Err(CommitFault::NoMemory),
        }
    }
}
