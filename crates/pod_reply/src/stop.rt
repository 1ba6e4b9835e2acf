//! [`Stop`]: why a request ends before its success.

ghost use Rattle.std.specs.Prelude.{◌≡◌, ⊤};
ghost use Rattle.pod_reply.specs.Obstacles as spec;
ghost use Rattle.pod_reply.specs.Ranks.{Passes};
ghost use Rattle.pod_reply.specs.declared.stop.Stop.TheVariants as stops;
ghost use Rattle.pod_responses.specs.Responses as responses;

use pod_base::{NoMemory, Response};
use pod_responses::refusal;
use std::alloc::Global;

/// Why a request ends before its success: a rank refuses it, or memory ran out.
#[derive(Debug, Drop)]
pub enum Stop {
    Refused(Response),
    NoMemory,
}

/// What a rank goes on with, or why it stops.
pub type Rank<T> = Result<T, Stop>;

impl From<NoMemory> for Stop {
    ghost from_gives = { λ _ stop. stop ≡ stops.NoMemory };

    /// Stops a request where memory ran out.
    fn from(_error: NoMemory) -> Stop {
        Stop::NoMemory
    }
}

/// Stops a request with the refusal, where the test holds.
pub(crate) fn refuse_if(alloc: Global, holds: bool, status: u16, word: &[u8]) -> Rank<()>
    ensures { Passes result (spec.refuse_if holds (responses.refusal status word.now)) (λ _. ⊤) }
{
    if holds {
        return Err(Stop::Refused(refusal(alloc, status, word)?));
    }
    Ok(())
}
