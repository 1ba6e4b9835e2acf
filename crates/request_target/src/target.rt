//! [`Target`]: what a request is about, by its target (RFC 9112, section 3.2).

ghost use Rattle.std.specs.Prelude.{◌≡◌, ◌++◌, List, ℕ, IfSome, IfNone, option_copied, IfOk, IfErr};
ghost use Rattle.std.specs.Prelude.{Ok, codes};
ghost use Rattle.pod_path.specs.Hierarchy.{without_last_slash};
ghost use Rattle.pod_path.specs.Norm.{norm, FailsAs};
ghost use Rattle.request_target.specs.Targets as spec;

use iri_ref::Iri;
use pod_base::{Mem, Method, NoMemory, Response};
use pod_path::{Path, PathFault};
use pod_responses::refusal;
use std::alloc::Global;

/// What a request is about.
#[derive(Debug, Drop)]
pub enum Target {
    /// The server as a whole.
    Server,
    /// What is, or may be, at a path.
    Resource(Path),
}

/// The text of the base before a slash at its end, which a target in absolute form begins with.
fn strip_slash<'a>(text: &'a str) -> Option<&'a str>
    ensures some { IfSome (option_copied result) (λ prefix. text.entry.now ≡ prefix ++ codes "/") }
    ensures none { IfNone (option_copied result) ((prefix : List ℕ)
        → text.entry.now ≡ prefix ++ codes "/" → ⊥) }
{
    text.strip_suffix("/")
}

/// The text of the base without one slash at its end, which a target in absolute form begins with.
fn trim_slash(text: &str) -> &str
    ensures { result.now ≡ without_last_slash text.now }
{
    match strip_slash(text) {
        Some(prefix) => prefix,
        None => text,
    }
}

/// A target in origin form: of one in absolute form under the base, the base but its last slash is
/// dropped.
fn origin_form<'a>(base: &str, target: &'a [u8]) -> &'a [u8]
    ensures { result.now ≡ spec.origin_form base.now target.entry.now }
{
    if target.starts_with(base.as_bytes()) {
        &target[trim_slash(base).len()..]
    } else {
        target
    }
}

/// The path of a target other than `*`, in origin form, or in absolute form under the base. A query
/// is dropped. The limits are those of [`Path::read`].
pub fn target_path(alloc: Global, base: &Iri, target: &[u8]) -> Result<Path, PathFault>
    ensures path { IfOk result (λ path. norm (spec.origin_form base.now target.now) ≡ Ok path) }
    ensures fault { IfErr result (λ fault. FailsAs fault (norm (spec.origin_form base.now target.now))) }
{
    Path::read(alloc, origin_form(base.as_str(), target))
}

/// The refusal of a target that is no path.
fn path_refusal(alloc: Global, fault: PathFault) -> Mem<Response>
    ensures { IfOk result (λ response. response ≡ spec.path_refusal fault) }
{
    match fault {
        PathFault::TooLong | PathFault::TooDeep => refusal(alloc, 414, b"path-size"),
        _ => refusal(alloc, 400, b"path"),
    }
}

/// What a target other than `*` is about, or its refusal.
fn read_resource(alloc: Global, base: &Iri, target: &[u8]) -> Mem<Result<Target, Response>>
    ensures { IfOk result (λ found. found
        ≡ spec.resource_of (norm (spec.origin_form base.now target.now))) }
{
    match target_path(alloc, base, target) {
        Ok(path) => Ok(Ok(Target::Resource(path))),
        Err(PathFault::NoMemory) => Err(NoMemory),
        Err(fault) => Ok(Err(path_refusal(alloc, fault)?)),
    }
}

/// The server as the target, where the method may have it, or the refusal.
fn read_server(alloc: Global, method: Method) -> Mem<Result<Target, Response>>
    ensures { IfOk result (λ found. found ≡ spec.server_for method) }
{
    match method {
        Method::Options => Ok(Ok(Target::Server)),
        _ => Ok(Err(refusal(alloc, 400, b"path")?)),
    }
}

/// What the target of a request is about, or its refusal.
pub(crate) fn read_target(
    alloc: Global,
    base: &Iri,
    method: Method,
    target: &[u8],
) -> Mem<Result<Target, Response>>
    ensures { IfOk result (λ found. found ≡ spec.target_of base.now method target.now) }
{
    if target == b"*".as_slice() {
        read_server(alloc, method)
    } else {
        read_resource(alloc, base, target)
    }
}
