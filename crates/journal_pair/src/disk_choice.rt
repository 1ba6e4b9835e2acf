//! Which of two disks is taken, by their classes.

ghost use Rattle.std.specs.Prelude.{◌≡◌, IfOk, OnOk};
ghost use Rattle.pod_disk.specs.Disk.{EachImage, LeavesOnly};
ghost use Rattle.journal_pair.specs.Choices.{IsUnopenedClass, IsChosen, IsChosenBy};
ghost use Rattle.journal_pair.specs.Causes.{PairCounts};

use journal_log::{DiskClass, DiskFault, Journal, Side};
use pod_disk::Disk;

/// The offset of the first gate, which closed disks are damaged at.
const FIRST_GATE: u64 = 16;

/// What two disks are opened as, as far as their heads and first gates say.
#[derive(Clone, Copy, Debug, PartialEq, Eq)]
pub enum Choice {
    /// The journal on this side, which has this epoch.
    Take { side: Side, epoch: u64 },
    /// No journal, since this side is damaged at this offset.
    Damaged { side: Side, at: u64 },
    /// No journal, since both disks are empty.
    Empty,
}

/// Chooses which of two disks is opened, by their classes, which it reads.
pub fn choose_disk<D: Disk>(first: &mut D, second: &mut D) -> Result<Choice, DiskFault>
    ensures first { LeavesOnly D.moment D.left_since first.old first.new (D.image first.old) }
    ensures second { LeavesOnly D.moment D.left_since second.old second.new (D.image second.old) }
    ensures first_images { EachImage (D.image first.new) (D.image first.old) }
    ensures second_images { EachImage (D.image second.new) (D.image second.old) }
    ensures first_content { OnOk result (D.content first.new ≡ D.content first.old) }
    ensures second_content { OnOk result (D.content second.new ≡ D.content second.old) }
    ensures chosen { IfOk result
        (IsChosenBy (D.content first.old) (D.content second.old)
        (D.image first.new) (D.image second.new)) }
    ensures faults { PairCounts result (D.faults first.old) (D.faults first.new)
        (D.faults second.old) (D.faults second.new) }
{
    let one = Journal::classify(first)?;
    let other = Journal::classify(second)?;
    Ok(choose(one, other))
}

/// Chooses one of two disks by their classes.
fn choose(first: DiskClass, second: DiskClass) -> Choice
    ensures { IsChosen result first second }
{
    match first {
        DiskClass::Wrong => Choice::Damaged {
            side: Side::First,
            at: 0,
        },
        DiskClass::Open { epoch } => beside_open(epoch, second),
        DiskClass::Empty => beside_empty(second),
        DiskClass::Closed => beside_unopened(FIRST_GATE, second),
        DiskClass::Short | DiskClass::Torn => beside_unopened(0, second),
    }
}

/// Chooses a disk beside a first one that is open, with this epoch.
fn beside_open(epoch: u64, second: DiskClass) -> Choice
    ensures { IsChosen result (DiskClass.Open epoch) second }
{
    match second {
        DiskClass::Wrong => Choice::Damaged {
            side: Side::Second,
            at: 0,
        },
        DiskClass::Open { epoch: other } => greater(epoch, other),
        DiskClass::Empty | DiskClass::Short | DiskClass::Torn | DiskClass::Closed => Choice::Take {
            side: Side::First,
            epoch,
        },
    }
}

/// Chooses between two open disks of these epochs.
fn greater(epoch: u64, other: u64) -> Choice
    ensures { IsChosen result (DiskClass.Open epoch) (DiskClass.Open other) }
{
    if other > epoch {
        return Choice::Take {
            side: Side::Second,
            epoch: other,
        };
    }
    Choice::Take {
        side: Side::First,
        epoch,
    }
}

/// Chooses a disk beside a first one that holds bytes and no journal, and is damaged at this offset
/// where there is no journal at all.
fn beside_unopened(at: u64, second: DiskClass) -> Choice
    ensures { (first : DiskClass) → IsUnopenedClass at first → IsChosen result first second }
{
    match second {
        DiskClass::Wrong => Choice::Damaged {
            side: Side::Second,
            at: 0,
        },
        DiskClass::Open { epoch } => Choice::Take {
            side: Side::Second,
            epoch,
        },
        DiskClass::Empty | DiskClass::Short | DiskClass::Torn | DiskClass::Closed => {
            Choice::Damaged {
                side: Side::First,
                at,
            }
        }
    }
}

/// Chooses a disk beside an empty first one.
fn beside_empty(second: DiskClass) -> Choice
    ensures { IsChosen result DiskClass.Empty second }
{
    match second {
        DiskClass::Empty => Choice::Empty,
        DiskClass::Open { epoch } => Choice::Take {
            side: Side::Second,
            epoch,
        },
        DiskClass::Closed => Choice::Damaged {
            side: Side::Second,
            at: FIRST_GATE,
        },
        DiskClass::Wrong | DiskClass::Short | DiskClass::Torn => Choice::Damaged {
            side: Side::Second,
            at: 0,
        },
    }
}
