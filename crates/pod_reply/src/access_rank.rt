//! [`grant`]: whether what a request needs is granted.

ghost use Rattle.std.specs.Prelude.{◌≡◌, IfOk, is_some, true};
ghost use Rattle.std.specs.List.{list_all};
ghost use Rattle.pod_access.specs.Bases.{basis_of};
ghost use Rattle.pod_reply.specs.AccessRank as spec;
ghost use Rattle.pod_reply.specs.Ranks.{IsGrant, Tells, reads};

use crate::context::Context;
use crate::stop::{Rank, Stop};
use pod_access::{Need, Shape, decide, is_granted, needs};
use pod_base::{Agent, List, Mem, Method, Response};
use pod_command::Basis;
use pod_responses::{refusal, unauthorized};
use pod_rows::PodState;
use std::alloc::Global;

/// The refusal of access: 401 `access` for anybody, 403 `access` for a known agent (RFC 9110,
/// sections 15.5.2 and 15.5.4).
fn refuse_access(alloc: Global, agent: &Agent) -> Mem<Response>
    ensures { IfOk result (λ response. response ≡ spec.access_refusal agent.now) }
{
    match agent {
        Agent::Public => unauthorized(alloc, b"access"),
        Agent::Known(_) => refusal(alloc, 403, b"access"),
    }
}

/// Whether access is granted for each need.
fn are_granted<S: PodState>(state: &S, agent: &Agent, needs: &[Need]) -> bool
    ensures { result ≡ list_all (λ need. is_some (basis_of (S.pod state.now) agent.now need))
        needs.now }
{
    needs.iter().all(|need| is_granted(state, agent, need))
}

/// The rank of access for a request that only reads: the decision without its bases.
fn admit_reader<S: PodState>(
    alloc: Global,
    state: &S,
    agent: &Agent,
    shape: &Shape,
) -> Rank<List<Basis>>
    ensures { Tells result (IsGrant true (spec.access_of (S.pod state.now) agent.now shape.now)) }
{
    let needs = needs(alloc, shape)?;
    if are_granted(state, agent, needs.as_slice()) {
        Ok(List::new(alloc))
    } else {
        Err(Stop::Refused(refuse_access(alloc, agent)?))
    }
}

/// Whether a request with this method makes no entry, so that its access needs no bases.
fn is_reading(method: Method) -> bool
    ensures { result ≡ reads method }
{
    matches!(method, Method::Get | Method::Head | Method::Options)
}

/// The rank of access: 401 or 403 `access`, unless all that a request of this shape needs is
/// granted; else the bases, in the order of the needs, which only a change has.
pub(crate) fn grant<S: PodState>(context: &Context<'_, S>, shape: &Shape) -> Rank<List<Basis>>
    ensures { Tells result (IsGrant (reads context.now.request.method)
        (spec.access_of context.now.pod context.now.origin.agent shape.now)) }
{
    let (alloc, state, agent) = (context.alloc, context.state, &context.origin.agent);
    if is_reading(context.request.method) {
        return admit_reader(alloc, state, agent, shape);
    }
    let needs = needs(alloc, shape)?;
    match decide(alloc, state, agent, &needs)? {
        Some(bases) => Ok(bases),
        None => Err(Stop::Refused(refuse_access(alloc, agent)?)),
    }
}
