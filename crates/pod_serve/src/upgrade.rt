//! [`Upgrade`]: what a switch of protocols was answered for.
ghost use Rattle.std.specs.Prelude.{◌≡◌, IfOk, IfSome};
ghost use Rattle.pod_reply.specs.Reply.{agent_of};
ghost use Rattle.token_table.specs.Credentials.{asked_view};
ghost use Rattle.pod_serve.specs.Upgrades.{IsUpgradeTo, NotesAnswer};

use conn_talk::AnswerFault;
use iri_ref::Iri;
use pod_base::{Agent, Mem, Request};
use pod_core::Answer;
use pod_path::Path;
use request_target::target_path;
use std::alloc::Global;
use token_table::Asked;

/// The status of a switch of protocols.
const SWITCHING_PROTOCOLS: u16 = 101;

/// What a switch of protocols was answered for: the path, the agent, and the place of the answer,
/// from which on the entries are yet to be told.
#[derive(Debug, Drop)]
pub(crate) struct Upgrade {
    pub topic: Path,
    pub agent: Agent,
    pub last: u64,
}

/// The agent of a request that is answered by an upgrade.
fn agent_of(alloc: Global, asked: &Asked<'_>) -> Mem<Agent>
    ensures { IfOk result (λ agent. agent ≡ agent_of (asked_view asked.now)) }
{
    match asked {
        Asked::Public => Ok(Agent::Public),
        Asked::Known(agent) => {
            let agent = agent.copy(alloc)?;
            Ok(Agent::Known(agent))
        }
        Asked::Refused => Ok(Agent::Public),
    }
}

/// The upgrade that the answer at a place is for; nothing where memory runs out.
fn upgrade_to(
    alloc: Global,
    base: &Iri,
    request: &Request,
    asked: &Asked<'_>,
    place: u64,
) -> Option<Upgrade>
    ensures { IfSome result (IsUpgradeTo base.now request.now (asked_view asked.now) place) }
{
    let Ok(topic) = target_path(alloc, base, request.target.as_slice()) else {
        return None;
    };
    match agent_of(alloc, asked) {
        Ok(agent) => Some(Upgrade {
            topic,
            agent,
            last: place,
        }),
        Err(_) => None,
    }
}

/// The upgrade that an answer is for, where it switches protocols; nothing where memory runs out.
pub(crate) fn upgrade_in(
    alloc: Global,
    base: &Iri,
    request: &Request,
    asked: &Asked<'_>,
    answer: &Result<Answer, AnswerFault>,
) -> Option<Upgrade>
    ensures { IfSome result
        (NotesAnswer base.now request.now (asked_view asked.now) answer.now) }
{
    match answer {
        Ok(told) => {
            if told.response.status == SWITCHING_PROTOCOLS {
                upgrade_to(alloc, base, request, asked, told.place)
            } else {
                None
            }
        }
        Err(_) => None,
    }
}
