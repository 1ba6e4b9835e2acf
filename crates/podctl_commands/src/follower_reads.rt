//! Reads: requests that change nothing, which a follower answers.
ghost use Rattle.std.specs.Prelude.{◌≡◌, None, IfOk, IfSome, IsErrOf, IsTrue, false};
ghost use Rattle.pod_base.specs.declared.agent.Agent.{Agent as AgentValue};
ghost use Rattle.pod_base.specs.declared.moment.Moment.{Moment as MomentValue};
ghost use Rattle.pod_base.specs.declared.request.Request.{Request as RequestValue};
ghost use Rattle.stored_forms.specs.declared.read_back.ReadBack.TheVariants.{NotCanonical};
ghost use Rattle.http_out.specs.Text as sent;
ghost use Rattle.http_out.specs.Calendar.{date_text};
ghost use Rattle.reply_laws.specs.Granted as granted;
ghost use Rattle.reply_laws.specs.Sent.{IsSent};
ghost use Rattle.request_fields.specs.Upgrades as upgrades;
ghost use Rattle.token_table.specs.Credentials.{asked_view};
ghost use Rattle.podctl_commands.specs.Reads.{IsRead, IsReadRequest, IsReadText, IsResponseText};
ghost use Rattle.podctl_commands.specs.Reads.{asked_as};

use crate::read_parts::read_head;
use http_conn::laws::one_parse;
use http_conn::one_request;
use http_out::bytes_of;
use pod_base::{Agent, Bytes, Mem, Moment, NoMemory, Request, Response};
use pod_core::is_change;
use pod_follow::Follower;
use request_fields::upgrade_key;
use std::alloc::Global;
use stored_forms::ReadBack;
use token_table::Asked;

/// A read: who makes it, its moment, and what is requested.
#[derive(Drop)]
struct Read {
    agent: Agent,
    moment: Moment,
    request: Request,
}

/// Whether a request is a follower's read: it changes nothing, and asks for no switch of protocols.
fn is_read(request: &Request) -> bool
    ensures no_change { IsTrue result → granted.is_change request.now.method ≡ false }
    ensures no_upgrade { IsTrue result → upgrades.upgrade_key request.now ≡ None }
    ensures no { result ≡ false → granted.is_change request.now.method ≡ false
        → upgrades.upgrade_key request.now ≡ None → ⊥ }
{
    if is_change(request.method) {
        return false;
    }
    match upgrade_key(request) {
        Some(_key) => false,
        None => true,
    }
}

/// The request in a follower's read, which these bytes are.
fn request_of(alloc: Global, bytes: &[u8]) -> Result<Request, ReadBack>
    ensures some { IfOk result (IsReadRequest bytes.now) }
    ensures none { IsErrOf result NotCanonical
        → (request : RequestValue) → IsReadRequest bytes.now request → ⊥ }
{
    one_parse();
    match one_request(alloc, bytes)? {
        Some(request) => {
            if is_read(&request) {
                Ok(request)
            } else {
                Err(ReadBack::NotCanonical)
            }
        }
        None => Err(ReadBack::NotCanonical),
    }
}

/// The follower's read that the body of a frame is.
fn read_of(alloc: Global, body: &[u8]) -> Result<Read, ReadBack>
    ensures some { IfOk result (λ read. IsRead body.now read.agent read.moment read.request) }
    ensures none { IsErrOf result NotCanonical
        → (agent : AgentValue) (moment : MomentValue) (request : RequestValue)
        → IsRead body.now agent moment request → ⊥ }
{
    let (agent, seconds, bytes) = read_head(alloc, body)?;
    let request = request_of(alloc, bytes)?;
    Ok(Read {
        agent,
        moment: Moment(seconds),
        request,
    })
}

/// How the agent of a follower's read was authenticated: by whoever sent the frame.
fn asked_of(agent: &Agent) -> Asked<'_>
    ensures { asked_view result ≡ asked_as agent.now }
{
    match agent {
        Agent::Public => Asked::Public,
        Agent::Known(iri) => Asked::Known(iri),
    }
}

/// The bytes of the response to a follower's read, on a connection that stays open.
fn sent_text(alloc: Global, response: &Response, moment: Moment) -> Mem<Bytes>
    requires { IsSent response.now }
    ensures { IfOk result (λ text. text
        ≡ sent.response_text response.now (date_text moment.0) false) }
{
    bytes_of(alloc, response, moment, false)
}

/// The bytes of the response to a follower's read.
fn response_text(alloc: Global, follower: &Follower, read: &Read) -> Mem<Bytes>
    requires { granted.is_change read.now.request.method ≡ false }
    ensures { IfOk result (λ text. IsResponseText follower.now read.now.agent read.now.moment
        read.now.request text) }
{
    let asked = asked_of(&read.agent);
    let response = follower.read(alloc, &read.request, &asked, read.moment)?;
    sent_text(alloc, &response, read.moment)
}

/// The bytes of the response to the follower's read that the body of a frame is; none where it is
/// no read.
pub(crate) fn answer_read(alloc: Global, follower: &Follower, body: &[u8]) -> Mem<Option<Bytes>>
    ensures some { IfOk result (λ found. IfSome found
        (λ text. IsReadText follower.now body.now text)) }
    ensures none { IfOk result (λ found. found ≡ None
        → (agent : AgentValue) (moment : MomentValue) (request : RequestValue)
        → IsRead body.now agent moment request → ⊥) }
{
    match read_of(alloc, body) {
        Ok(read) => {
            let text = response_text(alloc, follower, &read)?;
            Ok(Some(text))
        }
        Err(ReadBack::NotCanonical) => Ok(None),
        Err(ReadBack::NoMemory) => Err(NoMemory),
    }
}
