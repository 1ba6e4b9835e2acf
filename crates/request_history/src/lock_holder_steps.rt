//! How far the holder of the lock has come, and which steps it may make.
ghost use Rattle.std.specs.Prelude.{◌≡◌};
ghost use Rattle.request_history.specs.Phases as spec;

/// How far the holder of the lock has come.
#[derive(Clone, Copy)]
pub(crate) enum Stage {
    Taken,
    Written,
    Opened,
}

/// A step of the holder of the lock.
#[derive(Clone, Copy)]
pub(crate) enum Step {
    Repair,
    Body,
    Gate,
}

/// Whether there is a holder of the lock whose steps have opened its gate.
pub(crate) fn is_opened(held: bool, stage: Stage) -> bool
    ensures { result ≡ spec.is_opened held stage }
{
    if !held {
        return false;
    }
    match stage {
        Stage::Taken => false,
        Stage::Written => false,
        Stage::Opened => true,
    }
}

/// Whether the holder of the lock may make the step when its change is taken, where an entry is in
/// doubt or not.
fn may_when_taken(doubtful: bool, step: Step) -> bool
    ensures { result ≡ spec.may_when_taken doubtful step }
{
    match step {
        Step::Repair => doubtful,
        Step::Body => !doubtful,
        Step::Gate => false,
    }
}

/// Whether the holder of the lock may make the step when its record is written.
fn may_when_written(step: Step) -> bool
    ensures { result ≡ spec.may_when_written step }
{
    match step {
        Step::Repair => false,
        Step::Body => false,
        Step::Gate => true,
    }
}

/// Whether there is a holder of the lock who has come so far that it may make the step, where an
/// entry is in doubt or not.
pub(crate) fn may_now(held: bool, stage: Stage, doubtful: bool, step: Step) -> bool
    ensures { result ≡ spec.may_now held stage doubtful step }
{
    if !held {
        return false;
    }
    match stage {
        Stage::Taken => may_when_taken(doubtful, step),
        Stage::Written => may_when_written(step),
        Stage::Opened => false,
    }
}
