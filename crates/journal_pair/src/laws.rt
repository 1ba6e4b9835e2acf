//! Laws of stores. Each is the contract of a function that does nothing.

ghost use Rattle.std.specs.Prelude.{List, ℕ};
ghost use Rattle.journal_pair.specs.Stores.{StoreStands, StoreStandsEither, StoreStandsBoth};
ghost use Rattle.journal_pair.specs.PairJournal.{IsPairClean, IsAppendInDoubt, IsCheckpointInDoubt};
ghost use Rattle.journal_pair.specs.PairJournal.{IsPassedBeside};
ghost use Rattle.journal_pair.specs.PairMoments.{EachPair};
ghost use Rattle.journal_pair.specs.PairLaws.{StoreStandsOnce, StoreDamagedOnce};
ghost use Rattle.journal_pair.specs.PairLaws.{StoreStandsOrDamaged, StoreEmptyOnly};

use crate::pair::Pair;
use pod_disk::Disk;

/// Two crash images of a store's disks stand for one list of records at most.
pub fn store_stands_once()
    ensures { StoreStandsOnce }
{}

/// Two crash images of a store's disks are damaged at one place at most.
pub fn store_damaged_once()
    ensures { StoreDamagedOnce }
{}

/// Two crash images of a store's disks that stand for records aren't damaged.
pub fn store_stands_or_damaged()
    ensures { StoreStandsOrDamaged }
{}

/// Two crash images of a store's disks that are both empty stand for nothing and aren't damaged.
pub fn store_empty_only()
    ensures { StoreEmptyOnly }
{}

impl Pair {
    /// Every pair of crash images of a clean pair's disks stands for exactly its records.
    pub fn clean_stands<D: Disk>(&self, _first: &D, _second: &D)
        ensures { (bodies : List (List ℕ))
            → IsPairClean D.image _first.now _second.now self.now bodies
            → IsPassedBeside D.image _first.now _second.now self.now
            → EachPair (D.image _first.now) (D.image _second.now)
            (StoreStands self.now.active self.now.journal.format self.now.journal.epoch bodies) }
    {}

    /// With the last gate in doubt, every pair of crash images of a pair's disks stands for its
    /// records, with the one in doubt or without.
    pub fn append_in_doubt_stands<D: Disk>(&self, _first: &D, _second: &D)
        ensures { (bodies : List (List ℕ)) (body : List ℕ)
            → IsAppendInDoubt D.image _first.now _second.now self.now bodies body
            → IsPassedBeside D.image _first.now _second.now self.now
            → EachPair (D.image _first.now) (D.image _second.now)
            (StoreStandsEither self.now.active self.now.journal.format self.now.journal.epoch
            bodies body) }
    {}

    /// With the first gate of a checkpoint in doubt, every pair of crash images of a pair's disks
    /// stands for its records, or for the snapshot of the checkpoint alone.
    pub fn checkpoint_in_doubt_stands<D: Disk>(&self, _first: &D, _second: &D)
        ensures { (bodies : List (List ℕ)) (body : List ℕ)
            → IsCheckpointInDoubt D.image _first.now _second.now self.now bodies body
            → EachPair (D.image _first.now) (D.image _second.now)
            (StoreStandsBoth self.now.active self.now.journal.format self.now.journal.epoch
            bodies body) }
    {}
}
