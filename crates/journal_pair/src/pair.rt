//! A pair: the active journal, the side that it is on, and the calls that add and repair.

ghost use Rattle.std.specs.Prelude.{◌≡◌, ◌⊎◌, ◌+◌, ◌≤◌, ◌^◌, ◌++◌, ◌∷◌, [], ◌||◌, List, ℕ, length};
ghost use Rattle.std.specs.Prelude.{IfOk, OnOk, OnErr, IsTrue, true, false};
ghost use Rattle.pod_io.specs.Visible.{IfVisible};
ghost use Rattle.pod_disk.specs.Disk.{EachImage, LeavesOnly};
ghost use Rattle.journal_log.specs.CleanJournal.{IsWhileAppended};
ghost use Rattle.journal_log.specs.Heads.{IsClosedHead};
ghost use Rattle.journal_log.specs.Images.{IsEither};
ghost use Rattle.journal_log.specs.Renewing.{IsNewJournal};
ghost use Rattle.journal_pair.specs.Sides.{active_of, other_of};
ghost use Rattle.journal_pair.specs.Stores.{StoreStandsEither, StoreStandsBoth};
ghost use Rattle.journal_pair.specs.PairState.{IsDue, len_of};
ghost use Rattle.journal_pair.specs.PairJournal.{ForEachInDoubt, HasGateInDoubt, IsAppendInDoubt};
ghost use Rattle.journal_pair.specs.PairJournal.{IsLongBeside, IsPairClean, IsPairInDoubt};
ghost use Rattle.journal_pair.specs.PairJournal.{IsPassedBeside};
ghost use Rattle.journal_pair.specs.PairMoments.{LeavesPairs};
ghost use Rattle.journal_pair.specs.Repaired.{AppendLeaves, AppendLeavesPairs, CheckpointLeaves};
ghost use Rattle.journal_pair.specs.Repaired.{CheckpointLeavesPairs, IsOpeningLast};
ghost use Rattle.journal_pair.specs.Causes.{PairCounts};

use crate::on_side::{append_on, repair_on, shut_beside};
use journal_log::{DiskFault, Framed, Journal, Side};
use pod_disk::Disk;
use std::marker::Model;

/// A journal is made short only where it is longer than this, in bytes.
pub const SIZE_LIMIT: u64 = 67_108_864;

/// The active journal of a store, and what else is known of its two disks. The disks are passed to
/// each call, always the same and in the same order.
///
/// Contracts see the side of the active journal, that journal, the length of the record of its
/// snapshot and whether the first gate of a checkpoint is in doubt (`PairState`), and say by
/// `IsPairClean` and `IsPairInDoubt` how these fit the crash images of the disks.
#[derive(Drop)]
pub struct Pair {
    pub(crate) active: Side,
    pub(crate) journal: Journal,
    // How many bytes the record of its snapshot has.
    pub(crate) snapshot: u64,
    // Whether the first gate of the other disk is in doubt.
    pub(crate) checkpoint: bool,
}

impl Model for Pair {
    ghost use Rattle.journal_pair.specs.PairState.{PairState};

    ghost Value = { PairState };

    ghost view = { λ p. record {
      active = p.active;
      journal = p.journal;
      snapshot = p.snapshot;
      checkpoint = p.checkpoint;
    } };
}

impl Pair {
    /// Begins the pair of a new store on two empty disks: a journal of format 2 and epoch 1 with
    /// this snapshot on the first, and on the second a head of format 2 and epoch 0 with a closed
    /// gate, and nothing else. A crash inside this call may leave anything.
    pub fn init<D: Disk>(
        first: &mut D,
        second: &mut D,
        snapshot: &Framed,
    ) -> Result<Pair, DiskFault>
        requires first_empty { IfVisible (D.content first.old) (λ b. b ≡ []) }
        requires second_empty { IfVisible (D.content second.old) (λ b. b ≡ []) }
        ensures clean { IfOk result
            (λ pair. IsPairClean D.image first.new second.new pair (snapshot.now ∷ [])) }
        ensures passed { IfOk result (λ pair. IsPassedBeside D.image first.new second.new pair) }
        ensures long { IfOk result (λ pair. IsLongBeside D.image first.new second.new pair) }
        ensures second { OnOk result (EachImage (D.image second.new) (IsClosedHead 0)) }
        ensures active { IfOk result (λ pair. pair.active ≡ Side.First) }
        ensures format { IfOk result (λ pair. pair.journal.format ≡ 2) }
        ensures epoch { IfOk result (λ pair. pair.journal.epoch ≡ 1) }
        ensures faults { PairCounts result (D.faults first.old) (D.faults first.new)
            (D.faults second.old) (D.faults second.new) }
    {
        let journal = Journal::init(first, 1, snapshot)?;
        Journal::init_closed(second, 0)?;
        Ok(Pair {
            active: Side::First,
            journal,
            snapshot: snapshot.len(),
            checkpoint: false,
        })
    }

    /// The side of the pair's active journal: the disk that was taken, or the one on which the last
    /// checkpoint was made since.
    pub fn active(&self) -> Side
        ensures { result ≡ self.now.active }
    {
        self.active
    }

    /// The format of the pair's active journal: 1 or 2.
    pub fn format(&self) -> u8
        ensures format { result ≡ self.now.journal.format }
        ensures known { (result ≡ 1) ⊎ (result ≡ 2) }
    {
        self.journal.format()
    }

    /// The epoch of the pair's active journal, which is at most 2^63. A checkpoint adds one.
    pub fn epoch(&self) -> u64
        ensures epoch { result ≡ self.now.journal.epoch }
        ensures most { result ≤ 2 ^ 63 }
    {
        self.journal.epoch()
    }

    /// How many bytes the pair's active journal has, from its first byte to its last gate.
    pub fn len(&self) -> u64
        ensures { result ≡ len_of self.now }
    {
        self.journal.len()
    }

    /// How many bytes the record of the pair's snapshot has, with which its active journal begins.
    pub fn snapshot_len(&self) -> u64
        ensures { result ≡ self.now.snapshot }
    {
        self.snapshot
    }

    /// Whether a gate of the pair may be open though what follows it isn't to count: the last gate
    /// of the active journal, or the first gate of a checkpoint. Then [`repair`](Pair::repair)
    /// closes it before anything else.
    pub fn needs_repair(&self) -> bool
        ensures { result ≡ (self.now.checkpoint || self.now.journal.doubt) }
    {
        self.checkpoint || self.journal.needs_repair()
    }

    /// Whether the pair's active journal is long enough for a checkpoint: longer than
    /// [`SIZE_LIMIT`] bytes and than twice the record of its snapshot.
    pub fn due(&self) -> bool
        ensures yes { IsTrue result → IsDue self.now }
        ensures no { IsDue self.now → IsTrue result }
    {
        let len = self.journal.len();
        len > SIZE_LIMIT && len > self.snapshot.saturating_mul(2)
    }

    /// Adds a record to the pair's active journal, as [`Journal::append`] does. At each moment
    /// every pair of crash images stands for the records from before the call, with the new one or
    /// without, and at `Ok` for those with the new one. After an `Err` the pair is clean as before,
    /// or its last gate is in doubt; [`needs_repair`](Pair::needs_repair) says which. The pair is
    /// clean before the call.
    pub fn append<D: Disk>(
        &mut self,
        first: &mut D,
        second: &mut D,
        framed: &Framed,
    ) -> Result<(), DiskFault>
        requires { (bodies : List (List ℕ))
            × IsPairClean D.image first.old second.old self.old bodies }
        ensures moments { (bodies : List (List ℕ))
            → IsPairClean D.image first.old second.old self.old bodies
            → LeavesOnly D.moment D.left_since
            (active_of self.old.active first.old second.old)
            (active_of self.old.active first.new second.new)
            (IsEither self.old.journal.format self.old.journal.epoch bodies framed.now) }
        ensures gates { (bodies : List (List ℕ))
            → IsPairClean D.image first.old second.old self.old bodies
            → LeavesOnly D.moment D.left_since
            (active_of self.old.active first.old second.old)
            (active_of self.old.active first.new second.new)
            (IsWhileAppended self.old.journal.format self.old.journal.epoch bodies framed.now) }
        ensures pairs { (bodies : List (List ℕ))
            → IsPairClean D.image first.old second.old self.old bodies
            → IsPassedBeside D.image first.old second.old self.old
            → LeavesPairs D.moment D.left_since first.old second.old first.new second.new
            (StoreStandsEither self.old.active self.old.journal.format self.old.journal.epoch
            bodies framed.now) }
        ensures other { other_of self.old.active first.new second.new
            ≡ other_of self.old.active first.old second.old }
        ensures active { self.new.active ≡ self.old.active }
        ensures format { self.new.journal.format ≡ self.old.journal.format }
        ensures epoch { self.new.journal.epoch ≡ self.old.journal.epoch }
        ensures appended { OnOk result ((bodies : List (List ℕ))
            → IsPairClean D.image first.old second.old self.old bodies
            → IsPairClean D.image first.new second.new self.new (bodies ++ framed.now ∷ [])) }
        ensures fault { OnErr result ((bodies : List (List ℕ))
            → IsPairClean D.image first.old second.old self.old bodies
            → IsPairClean D.image first.new second.new self.new bodies
            ⊎ IsAppendInDoubt D.image first.new second.new self.new bodies framed.now) }
        ensures passed { IsPassedBeside D.image first.old second.old self.old
            → IsPassedBeside D.image first.new second.new self.new }
        ensures long { IsLongBeside D.image first.old second.old self.old
            → IsLongBeside D.image first.new second.new self.new }
        ensures faults { PairCounts result (D.faults first.old) (D.faults first.new)
            (D.faults second.old) (D.faults second.new) }
    {
        append_on(self.active, &mut self.journal, first, second, framed)
    }

    /// Closes the pair's gate that is in doubt: writes 0 there, and syncs. That is the last gate of
    /// the active journal, or the first gate of a checkpoint on the other disk. At each moment
    /// every pair of crash images stands for what it stood for before, with the record after that
    /// gate or without, and at `Ok` for the records without it.
    pub fn repair<D: Disk>(&mut self, first: &mut D, second: &mut D) -> Result<(), DiskFault>
        requires { HasGateInDoubt D.image first.old second.old self.old }
        ensures append_moments { AppendLeaves D.image D.moment D.left_since first.old second.old
            first.new second.new self.old
            (IsEither self.old.journal.format self.old.journal.epoch) }
        ensures append_gates { AppendLeaves D.image D.moment D.left_since first.old second.old
            first.new second.new self.old
            (IsOpeningLast self.old.journal.format self.old.journal.epoch) }
        ensures checkpoint_moments { CheckpointLeaves D.image D.moment D.left_since first.old
            second.old first.new second.new self.old (IsNewJournal (self.old.journal.epoch + 1)) }
        ensures append_pairs { AppendLeavesPairs D.image D.moment D.left_since first.old second.old
            first.new second.new self.old
            (StoreStandsEither self.old.active self.old.journal.format self.old.journal.epoch) }
        ensures checkpoint_pairs { CheckpointLeavesPairs D.image D.moment D.left_since first.old
            second.old first.new second.new self.old
            (StoreStandsBoth self.old.active self.old.journal.format self.old.journal.epoch) }
        ensures active_kept { self.old.checkpoint ≡ true
            → active_of self.old.active first.new second.new
            ≡ active_of self.old.active first.old second.old }
        ensures other_kept { self.old.checkpoint ≡ false
            → other_of self.old.active first.new second.new
            ≡ other_of self.old.active first.old second.old }
        ensures active { self.new.active ≡ self.old.active }
        ensures format { self.new.journal.format ≡ self.old.journal.format }
        ensures epoch { self.new.journal.epoch ≡ self.old.journal.epoch }
        ensures repaired { OnOk result (ForEachInDoubt D.image first.old second.old self.old
            (λ bodies body. IsPairClean D.image first.new second.new self.new bodies)) }
        ensures fault { OnErr result (ForEachInDoubt D.image first.old second.old self.old
            (λ bodies body. IsPairInDoubt D.image first.new second.new self.new bodies body)) }
        ensures fault_kind { OnErr result (self.new.checkpoint ≡ self.old.checkpoint) }
        ensures append_passed { self.old.checkpoint ≡ false
            → IsPassedBeside D.image first.old second.old self.old
            → IsPassedBeside D.image first.new second.new self.new }
        ensures append_long { self.old.checkpoint ≡ false
            → IsLongBeside D.image first.old second.old self.old
            → IsLongBeside D.image first.new second.new self.new }
        ensures checkpoint_passed { OnOk result (self.old.checkpoint ≡ true
            → IsPassedBeside D.image first.new second.new self.new) }
        ensures checkpoint_long { OnOk result (self.old.checkpoint ≡ true
            → IsLongBeside D.image first.new second.new self.new) }
        ensures faults { PairCounts result (D.faults first.old) (D.faults first.new)
            (D.faults second.old) (D.faults second.new) }
    {
        if self.checkpoint {
            shut_beside(self.active, first, second)?;
            self.checkpoint = false;
            return Ok(());
        }
        repair_on(self.active, &mut self.journal, first, second)
    }
}
