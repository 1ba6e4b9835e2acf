//! Laws of crash images. Each is the contract of a function that does nothing.

ghost use Rattle.std.specs.Prelude.{List, ℕ};
ghost use Rattle.pod_disk.specs.Disk.{EachImage};
ghost use Rattle.journal_log.specs.Images.{Stands, IsEither};
ghost use Rattle.journal_log.specs.CleanJournal.{IsClean, IsInDoubt};
ghost use Rattle.journal_log.specs.Laws.{StandsOnce, DamagedOnce, StandsOrDamaged, OneClass};
ghost use Rattle.journal_log.specs.Laws.{HasSomeClass, NewIsClosedOrOpen, OpenedAgain};

use crate::journal::Journal;
use pod_disk::Disk;

/// A crash image of a journal's disk stands for one list of records at most.
pub fn stands_once()
    ensures { StandsOnce }
{}

/// A crash image of a journal's disk is damaged at one place at most.
pub fn damaged_once()
    ensures { DamagedOnce }
{}

/// A crash image of a journal's disk that stands for records isn't damaged.
pub fn stands_or_damaged()
    ensures { StandsOrDamaged }
{}

/// A crash image of a journal's disk has at most one class.
pub fn one_class()
    ensures { OneClass }
{}

/// A crash image of a journal's disk has a class.
pub fn some_class()
    ensures { HasSomeClass }
{}

/// A crash image with a new head and the new record after any first gate is closed, or open with
/// that epoch and that record alone.
pub fn new_is_closed_or_open()
    ensures { NewIsClosedOrOpen }
{}

/// A crash image that was left while a journal was opened may be opened again: whatever a crash
/// leaves then, one might have left the first time.
pub fn opened_again()
    ensures { OpenedAgain }
{}

impl Journal {
    /// Every crash image of a clean journal's disk stands for exactly its records.
    pub fn clean_stands<D: Disk>(&self, _disk: &D)
        ensures { (bodies : List (List ℕ)) → IsClean (D.image _disk.now) self.now bodies
            → EachImage (D.image _disk.now) (Stands self.now.format self.now.epoch bodies) }
    {}

    /// Every crash image of an in-doubt journal's disk stands for its records, with the one in
    /// doubt or without.
    pub fn in_doubt_stands<D: Disk>(&self, _disk: &D)
        ensures { (bodies : List (List ℕ)) (body : List ℕ)
            → IsInDoubt (D.image _disk.now) self.now bodies body
            → EachImage (D.image _disk.now) (IsEither self.now.format self.now.epoch bodies body) }
    {}
}
