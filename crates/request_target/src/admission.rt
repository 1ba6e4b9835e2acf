//! [`admit`]: whether a request is refused by its target, its token or its method alone.

ghost use Rattle.std.specs.Prelude.{◌≡◌, IfOk};
ghost use Rattle.token_table.specs.Credentials.{asked_view};
ghost use Rattle.request_target.specs.Admission as spec;

use crate::target::{Target, read_target};
use iri_ref::Iri;
use pod_base::{Mem, Method, Request, Response};
use pod_responses::{is_allowed, not_allowed, refusal, unauthorized};
use std::alloc::Global;
use token_table::Asked;

/// The refusal to admit a request whose token isn't accepted.
fn refuse_token(alloc: Global, asked: &Asked<'_>) -> Mem<Option<Response>>
    ensures { IfOk result (λ response. response ≡ spec.token_refusal (asked_view asked.now)) }
{
    match asked {
        Asked::Refused => Ok(Some(unauthorized(alloc, b"token")?)),
        _ => Ok(None),
    }
}

/// The refusal to admit a request whose method the target doesn't take.
fn refuse_untaken(alloc: Global, target: &Target, method: Method) -> Mem<Option<Response>>
    ensures { IfOk result (λ response. response ≡ spec.untaken target.now method) }
{
    match target {
        Target::Server => Ok(None),
        Target::Resource(path) => {
            if is_allowed(path, method) {
                return Ok(None);
            }
            Ok(Some(not_allowed(alloc, path)?))
        }
    }
}

/// The refusal to admit a request whose method isn't implemented, or isn't taken by the target.
fn refuse_method(alloc: Global, target: &Target, method: Method) -> Mem<Option<Response>>
    ensures { IfOk result (λ response. response ≡ spec.method_refusal target.now method) }
{
    match method {
        Method::Other => Ok(Some(refusal(alloc, 501, b"method")?)),
        _ => refuse_untaken(alloc, target, method),
    }
}

/// The target of an admitted request, or the refusal of its token or its method.
fn admit_to(
    alloc: Global,
    target: Target,
    method: Method,
    asked: &Asked<'_>,
) -> Mem<Result<Target, Response>>
    ensures { IfOk result (λ admitted. admitted ≡ spec.unless target
        (spec.token_refusal (asked_view asked.now)) (spec.method_refusal target method)) }
{
    if let Some(response) = refuse_token(alloc, asked)? {
        return Ok(Err(response));
    }
    if let Some(response) = refuse_method(alloc, &target, method)? {
        return Ok(Err(response));
    }
    Ok(Ok(target))
}

/// Admits a request to its target, or returns the first refusal, in this order: 400 `path` and 414
/// `path-size` of a target that is no path, or is `*` without OPTIONS; 401 `token` of a token that
/// isn't accepted; 501 `method` of one that isn't implemented; 405 `not-allowed` of one that the
/// path doesn't take.
pub fn admit(
    alloc: Global,
    base: &Iri,
    request: &Request,
    asked: &Asked<'_>,
) -> Mem<Result<Target, Response>>
    ensures admitted { IfOk result (λ admitted. admitted
        ≡ spec.admitted base.now request.now (asked_view asked.now)) }
{
    let method = request.method;
    match read_target(alloc, base, method, request.target.as_slice())? {
        Ok(target) => admit_to(alloc, target, method, asked),
        Err(response) => Ok(Err(response)),
    }
}
