//! Making a store.
ghost use Rattle.std.specs.Prelude.{◌≡◌, ◌⊎◌, ◌≤◌, ◌<◌, [], length, IsTrue, IfOk, OnOk, IsErr};
ghost use Rattle.std.specs.Prelude.{false};
ghost use Rattle.iri_ref.specs.Components.{IsAbsolute};
ghost use Rattle.journal_pair.specs.PairMoments.{EachPair, LeavesPairs};
ghost use Rattle.pod_disk.specs.Disk.{Passes, Unchanged};
ghost use Rattle.pod_io.specs.Counts.{CountsFaults};
ghost use Rattle.pod_io.specs.Visible.{IfVisible};
ghost use Rattle.pod_keeper.specs.CrashedPods.{StandsFor};
ghost use Rattle.pod_keeper.specs.NewStores.{new_history, IsNewStore};
ghost use Rattle.pod_pipe.specs.CountedFaults.{DiskCountIncreased};
ghost use Rattle.pod_rows.specs.Base.{is_base};
ghost use Rattle.podctl_commands.specs.Ends.{IsInitEnd, IsMadeEnd};
ghost use Rattle.podctl_commands.specs.Making.{HoldsBytes};

use crate::store_end::StoreEnd;
use iri_ref::Iri;
use pod_base::{Moment, Text};
use pod_disk::{Disk, Disks};
use pod_io::Failed;
use pod_keeper::{CommitFault, Keeper};
use std::alloc::Global;

/// Whether a disk for `init` is empty.
fn is_empty<D: Disk>(disk: &mut D) -> Result<bool, Failed>
    ensures yes { IfOk result (λ empty. IsTrue empty
        → IfVisible (D.content disk.old) (λ b. b ≡ [])) }
    ensures no { IfOk result (λ empty. empty ≡ false
        → IfVisible (D.content disk.old) (λ b. 0 < length b)) }
    ensures content { OnOk result (D.content disk.new ≡ D.content disk.old) }
    ensures passes { Passes D.image D.moment D.left_since Unchanged disk.old disk.new }
    ensures faults { CountsFaults result (D.faults disk.old) (D.faults disk.new) }
{
    let len = disk.len()?;
    Ok(len == 0)
}

/// Whether both disks for `init` are empty. The second isn't queried where the first isn't.
fn are_empty<D: Disk>(disks: &mut Disks<D>) -> Result<bool, Failed>
    ensures first { IfOk result (λ empty. IsTrue empty
        → IfVisible (D.content disks.old.first) (λ b. b ≡ [])) }
    ensures second { IfOk result (λ empty. IsTrue empty
        → IfVisible (D.content disks.old.second) (λ b. b ≡ [])) }
    ensures no { IfOk result (λ empty. empty ≡ false
        → IfVisible (D.content disks.old.first) (λ b. 0 < length b)
        ⊎ IfVisible (D.content disks.old.second) (λ b. 0 < length b)) }
    ensures kept_first { OnOk result (D.content disks.new.first ≡ D.content disks.old.first) }
    ensures kept_second { OnOk result (D.content disks.new.second ≡ D.content disks.old.second) }
    ensures left { LeavesPairs D.moment D.left_since disks.old.first disks.old.second
        disks.new.first disks.new.second
        (λ c d. D.image disks.old.first c × D.image disks.old.second d) }
    ensures no_fewer_first { D.faults disks.old.first ≤ D.faults disks.new.first }
    ensures no_fewer_second { D.faults disks.old.second ≤ D.faults disks.new.second }
    ensures counted { IsErr result → DiskCountIncreased D.faults disks.old disks.new }
{
    if is_empty(&mut disks.first)? {
        is_empty(&mut disks.second)
    } else {
        Ok(false)
    }
}

/// Makes the store of `init` on two empty disks.
fn make<D: Disk>(
    alloc: Global,
    disks: &mut Disks<D>,
    base: Iri,
    owner: Text,
    moment: Moment,
) -> StoreEnd
    requires first_empty { IfVisible (D.content disks.old.first) (λ b. b ≡ []) }
    requires second_empty { IfVisible (D.content disks.old.second) (λ b. b ≡ []) }
    requires base { IsTrue (is_base base) }
    requires owner { IsAbsolute owner }
    ensures ends { IsMadeEnd result }
    ensures stands { result ≡ StoreEnd.Done
        → EachPair (D.image disks.new.first) (D.image disks.new.second)
        (StandsFor (new_history base owner moment)) }
    ensures begun { result ≡ StoreEnd.Done
        → EachPair (D.image disks.new.first) (D.image disks.new.second)
        (IsNewStore base owner moment) }
    ensures memory_first { result ≡ StoreEnd.NoMemory → disks.new.first ≡ disks.old.first }
    ensures memory_second { result ≡ StoreEnd.NoMemory → disks.new.second ≡ disks.old.second }
    ensures disk_fault { result ≡ StoreEnd.DiskFault
        → DiskCountIncreased D.faults disks.old disks.new }
    ensures no_fewer_first { D.faults disks.old.first ≤ D.faults disks.new.first }
    ensures no_fewer_second { D.faults disks.old.second ≤ D.faults disks.new.second }
{
    match Keeper::init(alloc, disks, base, owner, moment) {
        Ok(()) => StoreEnd::Done,
        Err(CommitFault::DiskFault) => StoreEnd::DiskFault,
        Err(CommitFault::NoMemory) => StoreEnd::NoMemory,
    }
}

/// Makes a store on two empty disks for `podctl init`, with the two first rows of a pod of that
/// base and that owner, which have that moment. It prints nothing. A crash inside it may leave
/// anything, but an existing store stays as it is.
///
/// `NotEmpty` comes exactly where a disk isn't empty, and `DiskFault` only where a disk's count of
/// faults increased. Where it ends with `NotEmpty` or `NoMemory`, nothing was written.
pub fn init<D: Disk>(
    alloc: Global,
    disks: &mut Disks<D>,
    base: Iri,
    owner: Text,
    moment: Moment,
) -> StoreEnd
    requires base { IsTrue (is_base base) }
    requires owner { IsAbsolute owner }
    ensures ends { IsInitEnd result }
    ensures stands { result ≡ StoreEnd.Done
        → EachPair (D.image disks.new.first) (D.image disks.new.second)
        (StandsFor (new_history base owner moment)) }
    ensures begun { result ≡ StoreEnd.Done
        → EachPair (D.image disks.new.first) (D.image disks.new.second)
        (IsNewStore base owner moment) }

    // The other ends have their causes.
    ensures not_empty { result ≡ StoreEnd.NotEmpty
        → IfVisible (D.content disks.old.first) (λ b. 0 < length b)
        ⊎ IfVisible (D.content disks.old.second) (λ b. 0 < length b) }
    ensures empty_first { (result ≡ StoreEnd.Done) ⊎ (result ≡ StoreEnd.NoMemory)
        → IfVisible (D.content disks.old.first) (λ b. b ≡ []) }
    ensures empty_second { (result ≡ StoreEnd.Done) ⊎ (result ≡ StoreEnd.NoMemory)
        → IfVisible (D.content disks.old.second) (λ b. b ≡ []) }
    ensures disk_fault { result ≡ StoreEnd.DiskFault
        → DiskCountIncreased D.faults disks.old disks.new }
    ensures no_fewer_first { D.faults disks.old.first ≤ D.faults disks.new.first }
    ensures no_fewer_second { D.faults disks.old.second ≤ D.faults disks.new.second }

    // Where nothing was written, the disks hold what they held, at each moment and after it.
    ensures left { (result ≡ StoreEnd.NotEmpty) ⊎ (result ≡ StoreEnd.NoMemory)
        → LeavesPairs D.moment D.left_since disks.old.first disks.old.second
        disks.new.first disks.new.second
        (λ c d. D.image disks.old.first c × D.image disks.old.second d) }
    ensures kept_first { (result ≡ StoreEnd.NotEmpty) ⊎ (result ≡ StoreEnd.NoMemory)
        → D.content disks.new.first ≡ D.content disks.old.first }
    ensures kept_second { (result ≡ StoreEnd.NotEmpty) ⊎ (result ≡ StoreEnd.NoMemory)
        → D.content disks.new.second ≡ D.content disks.old.second }

    // An existing store stays at each moment, whatever the end.
    ensures stays { HoldsBytes (D.content disks.old.first) ⊎ HoldsBytes (D.content disks.old.second)
        → LeavesPairs D.moment D.left_since disks.old.first disks.old.second
        disks.new.first disks.new.second
        (λ c d. D.image disks.old.first c × D.image disks.old.second d) }
{
    match are_empty(disks) {
        Ok(empty) => {
            if empty {
                make(alloc, disks, base, owner, moment)
            } else {
                StoreEnd::NotEmpty
            }
        }
        Err(Failed) => StoreEnd::DiskFault,
    }
}
