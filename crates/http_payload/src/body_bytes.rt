//! The bytes of a body: a vector that grows, until the body is complete, and then the shared bytes
//! that it was frozen into.

ghost use Rattle.std.specs.Prelude.{◌≡◌, ◌≢◌, ◌++◌, ◌≤◌, List, ℕ, [], None, take, length};
ghost use Rattle.std.specs.Prelude.{IsOk, IfOk, IfErr, OnOk};
ghost use Rattle.http_head.specs.declared.body_form.BodyForm.{BodyForm as Form};
ghost use Rattle.http_payload.specs.Bodies.{IsFault};
ghost use Rattle.http_payload.specs.PayloadState.{payload_state, IsSoundAt, RepresentsBody};
ghost use Rattle.http_payload.specs.PayloadState.{fault_at};
ghost use Rattle.http_payload.specs.BodyBytes.{bytes_of_body, IsKeptAt};

use crate::body_stage::Stage;
use crate::feed_loop::{Step, feed_piece};
use crate::payload_fault::PayloadFault;
use pod_base::{Bytes, Mem};
use std::alloc::Global;
use std::mem;

/// The bytes of a body so far, or those of the complete body.
#[derive(Debug, Drop)]
pub(crate) enum BodyBytes {
    /// More bytes may follow.
    Growing(Vec<u8>),
    /// The body is complete.
    Complete(Bytes),
}

impl BodyBytes {
    /// The bytes of a body at that stage, of which none has come. It takes no memory.
    pub(crate) fn new(alloc: Global, stage: Stage) -> BodyBytes
        ensures empty { bytes_of_body result ≡ [] }
        ensures kept { IsKeptAt stage result }
    {
        if stage.is_end() {
            BodyBytes::Complete(Bytes::new())
        } else {
            BodyBytes::Growing(Vec::new(alloc))
        }
    }

    /// The same bytes of a body, at the same stage.
    pub(crate) fn copy(&self, alloc: Global) -> Mem<BodyBytes>
        ensures same { IfOk result (λ copy. bytes_of_body copy ≡ bytes_of_body self.now) }
        ensures kept { IfOk result (λ copy. (stage : Stage) → IsKeptAt stage self.now
            → IsKeptAt stage copy) }
    {
        match self {
            BodyBytes::Growing(bytes) => {
                let bytes = Vec::from_slice(alloc, bytes.as_slice())?;
                Ok(BodyBytes::Growing(bytes))
            }
            BodyBytes::Complete(bytes) => {
                let bytes = bytes.copy(alloc)?;
                Ok(BodyBytes::Complete(bytes))
            }
        }
    }

    /// The bytes of a complete body.
    pub(crate) fn into_bytes(self) -> Bytes
        requires { IsKeptAt (Stage.Rest 0) self }
        ensures { result ≡ bytes_of_body self }
    {
        match self {
            BodyBytes::Complete(bytes) => bytes,
            BodyBytes::Growing(_) => unreachable!(),
        }
    }
}

/// Freezes the bytes of a complete body: it takes memory for the count of owners, and none for no
/// bytes. Out of memory, nothing changes.
fn freeze(alloc: Global, body: &mut BodyBytes) -> Result<(), PayloadFault>
    ensures complete { OnOk result (IsKeptAt (Stage.Rest 0) body.new) }
    ensures same { OnOk result (bytes_of_body body.new ≡ bytes_of_body body.old) }
    ensures fault { IfErr result (λ fault. fault ≡ PayloadFault.NoMemory) }
    ensures failed { IfErr result (λ fault. IsKeptAt (Stage.Failed fault) body.new) }
    ensures again { IsKeptAt (Stage.Rest 0) body.old → IsOk result }
{
    match mem::replace(body, BodyBytes::Complete(Bytes::new())) {
        BodyBytes::Growing(bytes) => match Bytes::from_vec(alloc, bytes) {
            Ok(bytes) => {
                *body = BodyBytes::Complete(bytes);
                Ok(())
            }
            Err(bytes) => {
                *body = BodyBytes::Growing(bytes);
                Err(PayloadFault::NoMemory)
            }
        },
        BodyBytes::Complete(bytes) => {
            *body = BodyBytes::Complete(bytes);
            Ok(())
        }
    }
}

/// Adds a piece to the bytes of a body, up to the piece's end, or to that of the body. A complete
/// body takes nothing.
fn grow_body(
    stage: Stage,
    line: &mut Vec<u8>,
    body: &mut BodyBytes,
    piece: &[u8],
) -> Result<Step, PayloadFault>
    requires sound { IsSoundAt stage line.old.items (bytes_of_body body.old) }
    requires kept { IsKeptAt stage body.old }
    requires no_fault { fault_at stage ≡ None }
    ensures within { IfOk result (λ step. step.taken ≤ length piece.now) }
    ensures all { IfOk result (λ step. step.stage ≢ Stage.Rest 0 → step.taken ≡ length piece.now) }
    ensures sound { IfOk result (λ step. IsSoundAt step.stage line.new.items
        (bytes_of_body body.new)) }
    ensures no_fault { IfOk result (λ step. fault_at step.stage ≡ None) }
    ensures represents { IfOk result (λ step. (form : Form) (text : List ℕ)
        → RepresentsBody form (payload_state stage line.old.items (bytes_of_body body.old)) text
        → RepresentsBody form (payload_state step.stage line.new.items (bytes_of_body body.new))
        (text ++ take step.taken piece.now)) }
    ensures fault { IfErr result (λ fault. fault ≢ PayloadFault.NoMemory
        → (form : Form) (text : List ℕ)
        → RepresentsBody form (payload_state stage line.old.items (bytes_of_body body.old)) text
        → IsFault form (text ++ piece.now) fault) }
    ensures open { IfOk result (λ step. step.stage ≢ Stage.Rest 0 → IsKeptAt step.stage body.new) }
    ensures failed { IfErr result (λ fault. IsKeptAt (Stage.Failed fault) body.new) }
    ensures done { stage ≡ Stage.Rest 0 → IfOk result (λ step. (step.taken ≡ 0)
        × (step.stage ≡ Stage.Rest 0)
        × (line.new.items ≡ line.old.items) × (body.new ≡ body.old)) }
    ensures not_failed { stage ≡ Stage.Rest 0 → IsOk result }
{
    match body {
        BodyBytes::Growing(bytes) => feed_piece(stage, line, bytes, piece),
        BodyBytes::Complete(_) => Ok(Step { taken: 0, stage }),
    }
}

/// Adds a piece to the bytes of a body, and freezes them where the body is complete then.
pub(crate) fn feed_body(
    alloc: Global,
    stage: Stage,
    line: &mut Vec<u8>,
    body: &mut BodyBytes,
    piece: &[u8],
) -> Result<Step, PayloadFault>
    requires sound { IsSoundAt stage line.old.items (bytes_of_body body.old) }
    requires kept { IsKeptAt stage body.old }
    requires no_fault { fault_at stage ≡ None }
    ensures within { IfOk result (λ step. step.taken ≤ length piece.now) }
    ensures all { IfOk result (λ step. step.stage ≢ Stage.Rest 0 → step.taken ≡ length piece.now) }
    ensures sound { IfOk result (λ step. IsSoundAt step.stage line.new.items
        (bytes_of_body body.new)) }
    ensures no_fault { IfOk result (λ step. fault_at step.stage ≡ None) }
    ensures represents { IfOk result (λ step. (form : Form) (text : List ℕ)
        → RepresentsBody form (payload_state stage line.old.items (bytes_of_body body.old)) text
        → RepresentsBody form (payload_state step.stage line.new.items (bytes_of_body body.new))
        (text ++ take step.taken piece.now)) }
    ensures fault { IfErr result (λ fault. fault ≢ PayloadFault.NoMemory
        → (form : Form) (text : List ℕ)
        → RepresentsBody form (payload_state stage line.old.items (bytes_of_body body.old)) text
        → IsFault form (text ++ piece.now) fault) }
    ensures kept { IfOk result (λ step. IsKeptAt step.stage body.new) }
    ensures failed { IfErr result (λ fault. IsKeptAt (Stage.Failed fault) body.new) }
    ensures done { stage ≡ Stage.Rest 0 → IfOk result (λ step. (step.taken ≡ 0)
        × (step.stage ≡ Stage.Rest 0) × (line.new.items ≡ line.old.items)
        × (bytes_of_body body.new ≡ bytes_of_body body.old)) }
    ensures not_failed { stage ≡ Stage.Rest 0 → IsOk result }
{
    let step = grow_body(stage, line, body, piece)?;
    if step.stage.is_end() {
        freeze(alloc, body)?;
    }
    Ok(step)
}
