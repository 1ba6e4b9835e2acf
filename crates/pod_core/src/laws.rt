//! What follows from the definitions: the contracts of these functions are laws, and they do
//! nothing.
ghost use Rattle.pod_core.specs.Laws.{StaysSession, AlikeWritesSame};

use pod_io::Clock;

/// A session over a history stays one where the history grows.
pub fn sessions_stay<C: Clock>(clock: &C)
    ensures { StaysSession (C.may_give clock.now) }
{
    let _clock = clock;
}

/// Sessions whose answers have equal responses at equal moments write equal bytes.
pub fn bytes_follow_answers()
    ensures { AlikeWritesSame }
{}
