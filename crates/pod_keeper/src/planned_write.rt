//! A planned entry is written to the disks, and applied.

ghost use Rattle.std.specs.Prelude.{◌≡◌, ◌≤◌, ◌++◌, ◌∷◌, [], Some, IfOk, OnOk, OnErr};
ghost use Rattle.std.specs.Arc.{arc_value};
ghost use Rattle.pod_command.specs.Bare.{bare_entry};
ghost use Rattle.pod_keeper.specs.Commits.{IsGrown, IsLeftFaulted, LeavesPodsOf};
ghost use Rattle.pod_keeper.specs.KeeperDisks.{ForEachWhereSure, IncreasesFaults};
ghost use Rattle.pod_keeper.specs.KeeperDisks.{StaysLong, StaysSure};
ghost use Rattle.pod_keeper.specs.Kept.{entries_in, ForEachHistory, StandsForSome};
ghost use Rattle.pod_keeper.specs.KeeperState.{version_in};
ghost use Rattle.pod_keeper.specs.Plans.{IsPlannedAt};

use crate::keeper::Keeper;
use crate::plan::Planned;
use journal_log::DiskFault;
use journal_pair::write;
use pod_command::Entry;
use pod_disk::Disk;

impl<D: Disk> Keeper<D> {
    /// Writes an entry that was planned at the current version to the disks, and applies it. The
    /// entry is returned. Before it the gate in doubt is closed, where there is one, and a
    /// checkpoint is made, where it is due. It takes no memory.
    ///
    /// # Errors
    ///
    /// After `DiskFault` the version is that from before the call, and the entry may be in doubt.
    pub fn write_planned(&mut self, planned: Planned) -> Result<Entry, DiskFault>
        requires planned { IsPlannedAt self.old planned }
        requires stands { StandsForSome D.image self.old }
        ensures entry { IfOk result (λ entry. entry ≡ planned.entry) }

        // For each history that the keeper represented.
        ensures grown { OnOk result (ForEachHistory D.image self.old (λ history place doubt.
            IsGrown D.image self.old self.new history place (bare_entry planned.entry))) }
        ensures fault { OnErr result (ForEachHistory D.image self.old (λ history place doubt.
            IsLeftFaulted D.image self.new history place doubt (bare_entry planned.entry))) }
        ensures stands { StandsForSome D.image self.new }

        // The version and the last moment.
        ensures after { OnOk result (version_in self.new ≡ arc_value planned.version) }
        ensures last { OnOk result (self.new.last ≡ Some planned.entry.moment) }
        ensures same { OnErr result (version_in self.new ≡ version_in self.old) }
        ensures last_stays { OnErr result (self.new.last ≡ self.old.last) }

        // At each moment.
        ensures pairs { ForEachWhereSure D.image self.old (λ history doubt.
            LeavesPodsOf D.moment D.left_since self.old self.new history
            (entries_in doubt ++ bare_entry planned.entry ∷ [])) }
        ensures sure { StaysSure D.image self.old self.new }
        ensures long { StaysLong D.image self.old self.new }
        ensures no_fewer_first { D.faults self.old.first ≤ D.faults self.new.first }
        ensures no_fewer_second { D.faults self.old.second ≤ D.faults self.new.second }
        ensures counted { OnErr result (IncreasesFaults D.faults self.old self.new) }
    {
        let Planned {
            entry,
            version,
            body,
            snapshot,
        } = planned;
        match write(&mut self.pair, &mut self.disks, &snapshot, &body) {
            Ok(()) => {
                self.version = version;
                self.last = Some(entry.moment);
                Ok(entry)
            }
            Err(DiskFault) => Err(DiskFault),
        }
    }
}
