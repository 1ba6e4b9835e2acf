//! [`reply`]: what a pod replies to a request.

ghost use Rattle.std.specs.Prelude.{◌≡◌, IfOk, Ok, true};
ghost use Rattle.pod_reply.specs.Ranks.{Ends};
ghost use Rattle.pod_reply.specs.Replies.{reply_of};
ghost use Rattle.pod_reply.specs.Reply as spec;
ghost use Rattle.pod_reply.specs.Shapes.{IsPlaced};
ghost use Rattle.pod_responses.specs.Allow.{is_allowed};
ghost use Rattle.request_body.specs.Bodies.{IsBoundOutcome, Means};
ghost use Rattle.request_target.specs.Admission.{admitted};
ghost use Rattle.token_table.specs.Credentials.{asked_view};

use crate::access_rank::grant;
use crate::context::Context;
use crate::delete_reply::delete;
use crate::origin::{Origin, origin_of};
use crate::patch_reply::patch;
use crate::post_reply::{candidate_base, content_of, post};
use crate::put_reply::put;
use crate::read_reply::read;
use crate::request_shape::{place_of, shape_of};
use crate::response_and_entry::{Replied, sent_to, unchanged};
use crate::stop::{Rank, Stop};
use conditional_req::read_conditions;
use iri_ref::Iri;
use pod_base::{List, Mem, Method, NoMemory, Request, Stamp};
use pod_command::Basis;
use pod_edits::Place;
use pod_path::Path;
use pod_responses::{options, options_of_server};
use pod_rows::PodState;
use request_body::{RequestBody, read_body, refused};
use request_target::{Target, admit};
use std::alloc::Global;
use token_table::Asked;

/// Dispatches a granted request to the reply of its method.
fn reply_by_method<S: PodState>(
    context: &Context<'_, S>,
    place: Option<Place>,
    bases: List<Basis>,
    base: &Iri,
    body: RequestBody,
) -> Rank<Replied>
    requires place { IsPlaced context.now.pod.rows context.now.path place }
    requires allowed { is_allowed context.now.path context.now.request.method ≡ true }
    requires means { Means base.now context.now.path context.now.request (Ok body) }
    requires bound { IsBoundOutcome (Ok body) }
    ensures { Ends result (spec.IsMethodReply context.now.request.method context.now.pod
        context.now.request context.now.path context.now.origin bases.items body) }
{
    match context.request.method {
        Method::Get | Method::Head => read(context),
        Method::Options => Ok(unchanged(options(context.alloc, context.path)?)),
        Method::Put => put(context, place, bases, content_of(body)),
        Method::Post => post(context, bases, base, content_of(body)),
        Method::Patch => patch(context, place, bases, &body),
        Method::Delete => delete(context, bases),
        Method::Other => unreachable!(),
    }
}

/// Dispatches a request whose body was read: the refusal of its access, or what follows by its
/// method.
fn reply_with_body<S: PodState>(
    context: &Context<'_, S>,
    base: &Iri,
    body: RequestBody,
) -> Rank<Replied>
    requires allowed { is_allowed context.now.path context.now.request.method ≡ true }
    requires means { Means base.now context.now.path context.now.request (Ok body) }
    requires bound { IsBoundOutcome (Ok body) }
    ensures { Ends result (spec.IsReadReply context.now.pod context.now.request context.now.path
        context.now.origin (Ok body)) }
{
    let place = place_of(context)?;
    let shape = shape_of(context, &place, &body)?;
    let bases = grant(context, &shape)?;
    reply_by_method(context, place, bases, base, body)
}

/// The URI by which the body of a request is read before it is dispatched to its method.
fn body_base<S: PodState>(context: &Context<'_, S>) -> Mem<Iri>
    requires { is_allowed context.now.path context.now.request.method ≡ true }
    ensures { IfOk result (λ base. base ≡ spec.body_base context.now.request.method
        context.now.pod context.now.request context.now.path) }
{
    match context.request.method {
        Method::Post => candidate_base(context),
        _ => context.path.uri(context.alloc, context.state.base()),
    }
}

/// Dispatches a request to a path, once its method is allowed: the refusal of its body, or what
/// follows of it. The row of the path is found here.
fn reply_at<S: PodState>(
    alloc: Global,
    state: &S,
    request: &Request,
    path: &Path,
    origin: &Origin,
) -> Rank<Replied>
    requires { is_allowed path.now request.now.method ≡ true }
    ensures { Ends result (spec.IsResourceReply (S.pod state.now) request.now path.now
        origin.now) }
{
    let conditions = read_conditions(alloc, &request.fields)?;
    let context = Context {
        alloc,
        state,
        request,
        path,
        origin,
        conditions: &conditions,
        row: state.find(path),
    };
    let base = body_base(&context)?;
    match read_body(alloc, &base, path, request)? {
        Ok(body) => reply_with_body(&context, &base, body),
        Err(fault) => {
            let response = refused(alloc, request.method, path, fault)?;
            Err(Stop::Refused(response))
        }
    }
}

/// Dispatches a request by its target, token and method: their refusal, or what follows.
fn reply_admitted<S: PodState>(
    alloc: Global,
    state: &S,
    request: &Request,
    asked: &Asked<'_>,
    origin: &Origin,
) -> Rank<Replied>
    ensures { Ends result (spec.IsAdmittedReply (S.pod state.now) request.now origin.now
        (admitted (S.pod state.now).base request.now (asked_view asked.now))) }
{
    match admit(alloc, state.base(), request, asked)? {
        Ok(Target::Resource(path)) => reply_at(alloc, state, request, &path, origin),
        Ok(Target::Server) => Ok(unchanged(options_of_server(alloc)?)),
        Err(response) => Err(Stop::Refused(response)),
    }
}

/// The reply of a pod to a request, dispatched by its method. Its entry, where it has one, gets
/// that number and that stamp.
pub fn reply<S: PodState>(
    alloc: Global,
    state: &S,
    request: &Request,
    asked: &Asked<'_>,
    seq: u64,
    stamp: Stamp,
) -> Mem<Replied>
    ensures reply { IfOk result (λ replied. spec.IsReply (S.pod state.now) request.now
        (asked_view asked.now) seq stamp (reply_of replied)) }
{
    let origin = origin_of(alloc, asked, seq, stamp)?;
    match reply_admitted(alloc, state, request, asked, &origin) {
        Ok(Replied { response, entry }) => {
            let response = sent_to(request.method, response);
            Ok(Replied { response, entry })
        }
        Err(Stop::Refused(response)) => Ok(unchanged(sent_to(request.method, response))),
        Err(Stop::NoMemory) => Err(NoMemory),
    }
}
