//! [`Origin`]: who makes a request, when, and the number of the change that it may make.

ghost use Rattle.std.specs.Prelude.{◌≡◌, IfOk};
ghost use Rattle.pod_reply.specs.Reply as spec;
ghost use Rattle.token_table.specs.Credentials.{asked_view};

use pod_base::{Agent, Mem, Stamp};
use std::alloc::Global;
use token_table::Asked;

/// Where a request comes from, as an entry records it.
#[derive(Debug, Drop)]
pub struct Origin {
    /// The number of the next change.
    pub seq: u64,
    pub stamp: Stamp,
    pub agent: Agent,
}

/// The origin of a request: its agent, its stamp and the number of its change.
pub(crate) fn origin_of(alloc: Global, asked: &Asked<'_>, seq: u64, stamp: Stamp) -> Mem<Origin>
    ensures { IfOk result (λ origin. origin ≡ spec.origin_of (asked_view asked.now) seq stamp) }
{
    let agent = match asked {
        Asked::Known(agent) => Agent::Known(agent.copy(alloc)?),
        _ => Agent::Public,
    };
    Ok(Origin { seq, stamp, agent })
}
