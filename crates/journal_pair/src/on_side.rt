//! Calls of a journal on one of two disks, which a side names.

ghost use Rattle.std.specs.Prelude.{◌≡◌, ◌≤◌, ◌<◌, ◌+◌, ◌^◌, ◌++◌, ◌∷◌, [], List, ℕ, length, IfOk};
ghost use Rattle.std.specs.Prelude.{OnOk, OnErr, IsErrOf};
ghost use Rattle.pod_io.specs.Visible.{IfVisible};
ghost use Rattle.pod_disk.specs.Disk.{EachImage, LeavesOnly};
ghost use Rattle.journal_log.specs.Frames.{framed_of, opened};
ghost use Rattle.journal_log.specs.Gates.{IsFirstGateClosed, IsOpening};
ghost use Rattle.journal_log.specs.Heads.{encoded_head};
ghost use Rattle.journal_log.specs.Images.{IsEither};
ghost use Rattle.journal_log.specs.CleanJournal.{IsClean, IsInDoubt, IsCleanOrInDoubt};
ghost use Rattle.journal_log.specs.CleanJournal.{IsWhileAppended};
ghost use Rattle.journal_log.specs.Renewing.{IsBeforeOpening, IsNewJournal, IsWhileRenewed};
ghost use Rattle.journal_pair.specs.Sides.{active_of, other_of, opposite_of};
ghost use Rattle.journal_pair.specs.Causes.{PairCounts};

use journal_log::{DiskFault, Framed, Journal, RenewFault, Side};
use pod_disk::Disk;

/// The side of a pair that is opposite to this one.
pub fn opposite(side: Side) -> Side
    ensures { result ≡ opposite_of side }
{
    match side {
        Side::First => Side::Second,
        Side::Second => Side::First,
    }
}

/// Appends a record to the journal on this side of a pair.
pub fn append_on<D: Disk>(
    side: Side,
    journal: &mut Journal,
    first: &mut D,
    second: &mut D,
    framed: &Framed,
) -> Result<(), DiskFault>
    requires { (bodies : List (List ℕ))
        × IsClean (D.image (active_of side first.old second.old)) journal.old bodies }
    ensures moments { (bodies : List (List ℕ))
        → IsClean (D.image (active_of side first.old second.old)) journal.old bodies
        → LeavesOnly D.moment D.left_since
        (active_of side first.old second.old) (active_of side first.new second.new)
        (IsEither journal.old.format journal.old.epoch bodies framed.now) }
    ensures gates { (bodies : List (List ℕ))
        → IsClean (D.image (active_of side first.old second.old)) journal.old bodies
        → LeavesOnly D.moment D.left_since
        (active_of side first.old second.old) (active_of side first.new second.new)
        (IsWhileAppended journal.old.format journal.old.epoch bodies framed.now) }
    ensures other { other_of side first.new second.new ≡ other_of side first.old second.old }
    ensures kept { (journal.new.format ≡ journal.old.format)
        × (journal.new.epoch ≡ journal.old.epoch) }
    ensures appended { OnOk result ((bodies : List (List ℕ))
        → IsClean (D.image (active_of side first.old second.old)) journal.old bodies
        → IsClean (D.image (active_of side first.new second.new)) journal.new
        (bodies ++ framed.now ∷ [])) }
    ensures fault { OnErr result ((bodies : List (List ℕ))
        → IsClean (D.image (active_of side first.old second.old)) journal.old bodies
        → IsCleanOrInDoubt (D.image (active_of side first.new second.new)) journal.new
        bodies framed.now) }
    ensures faults { PairCounts result (D.faults first.old) (D.faults first.new)
        (D.faults second.old) (D.faults second.new) }
{
    match side {
        Side::First => journal.append(first, framed),
        Side::Second => journal.append(second, framed),
    }
}

/// Closes the gate that is in doubt in the journal on this side of a pair.
pub fn repair_on<D: Disk>(
    side: Side,
    journal: &mut Journal,
    first: &mut D,
    second: &mut D,
) -> Result<(), DiskFault>
    requires { (bodies : List (List ℕ)) × (body : List ℕ)
        × IsInDoubt (D.image (active_of side first.old second.old)) journal.old bodies body }
    ensures moments { (bodies : List (List ℕ)) (body : List ℕ)
        → IsInDoubt (D.image (active_of side first.old second.old)) journal.old bodies body
        → LeavesOnly D.moment D.left_since
        (active_of side first.old second.old) (active_of side first.new second.new)
        (IsEither journal.old.format journal.old.epoch bodies body) }
    ensures gates { (bodies : List (List ℕ)) (body : List ℕ)
        → IsInDoubt (D.image (active_of side first.old second.old)) journal.old bodies body
        → LeavesOnly D.moment D.left_since
        (active_of side first.old second.old) (active_of side first.new second.new)
        (IsOpening (encoded_head journal.old.format journal.old.epoch ++ opened bodies)
        (framed_of body)) }
    ensures other { other_of side first.new second.new ≡ other_of side first.old second.old }
    ensures kept { (journal.new.format ≡ journal.old.format)
        × (journal.new.epoch ≡ journal.old.epoch) }
    ensures repaired { OnOk result ((bodies : List (List ℕ)) (body : List ℕ)
        → IsInDoubt (D.image (active_of side first.old second.old)) journal.old bodies body
        → IsClean (D.image (active_of side first.new second.new)) journal.new bodies) }
    ensures fault { OnErr result ((bodies : List (List ℕ)) (body : List ℕ)
        → IsInDoubt (D.image (active_of side first.old second.old)) journal.old bodies body
        → IsInDoubt (D.image (active_of side first.new second.new)) journal.new bodies body) }
    ensures faults { PairCounts result (D.faults first.old) (D.faults first.new)
        (D.faults second.old) (D.faults second.new) }
{
    match side {
        Side::First => journal.repair(first),
        Side::Second => journal.repair(second),
    }
}

/// Begins a journal anew on the disk beside this side of a pair.
pub fn renew_beside<D: Disk>(
    side: Side,
    first: &mut D,
    second: &mut D,
    epoch: u64,
    snapshot: &Framed,
) -> Result<Journal, RenewFault>
    requires { epoch ≤ 2 ^ 63 }
    ensures moments { IfVisible (D.content (other_of side first.old second.old))
        (λ b. 17 ≤ length b)
        → LeavesOnly D.moment D.left_since
        (other_of side first.old second.old) (other_of side first.new second.new)
        (IsWhileRenewed (D.image (other_of side first.old second.old)) epoch snapshot.now) }
    ensures active { active_of side first.new second.new ≡ active_of side first.old second.old }
    ensures clean { IfOk result (λ journal.
        IsClean (D.image (other_of side first.new second.new)) journal (snapshot.now ∷ [])) }
    ensures format { IfOk result (λ journal. journal.format ≡ 2) }
    ensures epoch { IfOk result (λ journal. journal.epoch ≡ epoch) }
    ensures closed { IsErrOf result RenewFault.Closed
        → IfVisible (D.content (other_of side first.old second.old)) (λ b. 17 ≤ length b)
        → LeavesOnly D.moment D.left_since
        (other_of side first.old second.old) (other_of side first.new second.new)
        (IsBeforeOpening (D.image (other_of side first.old second.old))) }
    ensures in_doubt { IsErrOf result RenewFault.InDoubt
        → EachImage (D.image (other_of side first.new second.new))
        (IsNewJournal epoch snapshot.now) }
    ensures faults { PairCounts result (D.faults first.old) (D.faults first.new)
        (D.faults second.old) (D.faults second.new) }
{
    match side {
        Side::First => Journal::renew(second, epoch, snapshot),
        Side::Second => Journal::renew(first, epoch, snapshot),
    }
}

/// Closes the first gate of the disk beside this side of a pair.
pub fn shut_beside<D: Disk>(side: Side, first: &mut D, second: &mut D) -> Result<(), DiskFault>
    requires { IfVisible (D.content (other_of side first.old second.old)) (λ b. 17 ≤ length b) }
    ensures in_doubt { (epoch : ℕ) (body : List ℕ)
        → EachImage (D.image (other_of side first.old second.old)) (IsNewJournal epoch body)
        → LeavesOnly D.moment D.left_since
        (other_of side first.old second.old) (other_of side first.new second.new)
        (IsNewJournal epoch body) }
    ensures active { active_of side first.new second.new ≡ active_of side first.old second.old }
    ensures shut { OnOk result
        (EachImage (D.image (other_of side first.new second.new)) IsFirstGateClosed) }
    ensures faults { PairCounts result (D.faults first.old) (D.faults first.new)
        (D.faults second.old) (D.faults second.new) }
{
    match side {
        Side::First => Journal::shut(second),
        Side::Second => Journal::shut(first),
    }
}
