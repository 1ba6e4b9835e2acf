//! The responses to faults of bodies.

ghost use Rattle.std.specs.Prelude.{◌≡◌, ◌++◌, IfOk, codes, decimal};
ghost use Rattle.pod_responses.specs.Responses.{refusal};
ghost use Rattle.request_body.specs.Refusals as spec;

use crate::fault::BodyFault;
use n3_patch::PatchRule;
use pod_base::{Bytes, BytesBuilder, Mem, Method, Response};
use pod_path::Path;
use pod_responses::{refusal, unsupported};
use std::alloc::Global;

/// The name of a broken rule in the response to a fault.
fn rule_name(rule: PatchRule) -> &'static str
    ensures { result.now ≡ spec.rule_name rule }
{
    match rule {
        PatchRule::NoPatch => "NoPatch",
        PatchRule::ManyPatches => "ManyPatches",
        PatchRule::Repeated => "Repeated",
        PatchRule::NotFormula => "NotFormula",
        PatchRule::Stray => "Stray",
        PatchRule::Nested => "Nested",
        PatchRule::BlankNode => "BlankNode",
        PatchRule::FreeVariable => "FreeVariable",
        PatchRule::TooManyConditions => "TooManyConditions",
    }
}

/// The word of the response to a fault of syntax: `syntax` and the position of the fault.
fn syntax_word(alloc: Global, at: usize) -> Mem<Bytes>
    ensures { IfOk result (λ word. word ≡ codes "syntax " ++ decimal at) }
{
    let mut digits = itoa::Buffer::new();
    let mut word = BytesBuilder::new(alloc);
    word.append(alloc, b"syntax ")?;
    word.append(alloc, digits.format(at).as_bytes())?;
    word.freeze(alloc)
}

/// The word of the response to a patch whose fault is a broken rule: `patch` and the name of the
/// rule.
fn rule_word(alloc: Global, rule: PatchRule) -> Mem<Bytes>
    ensures { IfOk result (λ word. word ≡ codes "patch " ++ spec.rule_name rule) }
{
    let mut word = BytesBuilder::new(alloc);
    word.append(alloc, b"patch ")?;
    word.append(alloc, rule_name(rule).as_bytes())?;
    word.freeze(alloc)
}

impl BodyFault {
    /// The status of the response to the fault.
    pub fn status(self) -> u16
        ensures { result ≡ spec.fault_status self }
    {
        match self {
            BodyFault::NoType | BodyFault::Syntax { .. } | BodyFault::Json => 400,
            BodyFault::UnsupportedType => 415,
            BodyFault::Rule(_) => 422,
            BodyFault::GraphSize => 413,
        }
    }

    /// The word of the response to the fault, with the position of a fault of syntax and the name
    /// of a broken rule.
    pub fn word(self, alloc: Global) -> Mem<Bytes>
        ensures { IfOk result (λ word. word ≡ spec.fault_word self) }
    {
        match self {
            BodyFault::NoType => Ok(Bytes::from_static(b"no-type")),
            BodyFault::UnsupportedType => Ok(Bytes::from_static(b"type")),
            BodyFault::Syntax { at } => syntax_word(alloc, at),
            BodyFault::Json => Ok(Bytes::from_static(b"json")),
            BodyFault::Rule(rule) => rule_word(alloc, rule),
            BodyFault::GraphSize => Ok(Bytes::from_static(b"graph-size")),
        }
    }
}

/// The response to a fault by its status and its word.
fn refused_by_word(alloc: Global, fault: BodyFault) -> Mem<Response>
    ensures { IfOk result (λ response. response
        ≡ refusal (spec.fault_status fault) (spec.fault_word fault)) }
{
    let word = fault.word(alloc)?;
    refusal(alloc, fault.status(), word.as_slice())
}

/// The response to a request with this method, to the path, whose body has the fault: 415 lists the
/// accepted types.
pub fn refused(alloc: Global, method: Method, path: &Path, fault: BodyFault) -> Mem<Response>
    ensures { IfOk result (λ response. response ≡ spec.refusal_of method path.now fault) }
{
    match fault {
        BodyFault::UnsupportedType => unsupported(alloc, method, path),
        _ => refused_by_word(alloc, fault),
    }
}
