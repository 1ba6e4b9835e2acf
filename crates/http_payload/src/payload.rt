//! [`Payload`]: the body of one request, as far as it has come.

ghost use Rattle.std.specs.Prelude.{◌≡◌, ◌≢◌, ◌≤◌, ◌-◌, ◌++◌, List, ℕ, [], true, false, Some, None};
ghost use Rattle.std.specs.Prelude.{take, length, IsTrue, IfOk, IfErr, IfSome};
ghost use Rattle.http_head.specs.declared.body_form.BodyForm.{BodyForm as Form};
ghost use Rattle.http_payload.specs.Bodies.{IsBody, IsFault, IsPartial, IsOrOutOfMemory};
ghost use Rattle.http_payload.specs.PayloadState.{IsDone, RepresentsBody, fault_of};

use crate::body_bytes::{BodyBytes, feed_body};
use crate::body_stage::Stage;
use crate::payload_fault::PayloadFault;
use http_head::BodyForm;
use pod_base::{Bytes, Mem};
use std::alloc::Global;
use std::marker::Model;

/// What [`Payload::feed`] took of its piece.
#[derive(Clone, Copy, Debug, PartialEq, Eq)]
pub struct Fed {
    /// How many of its first bytes: all of them, or those up to the body's end.
    pub taken: usize,
    /// Whether the body is complete.
    pub done: bool,
}

/// The body of one request, as far as it has come.
///
/// It doesn't keep what was fed. Contracts say which texts it represents (`RepresentsBody`): those
/// after which the same bytes complete the body. The body grows in a block of its own, so it keeps
/// neither the head nor the pieces alive. Once it is complete, it is held as shared [`Bytes`].
#[derive(Debug, Drop)]
pub struct Payload {
    stage: Stage,
    line: Vec<u8>,
    body: BodyBytes,
}

impl Model for Payload {
    ghost use Rattle.http_payload.specs.PayloadState.{PayloadState, payload_state, IsSoundAt};
    ghost use Rattle.http_payload.specs.BodyBytes.{bytes_of_body, IsKeptAt};

    ghost Value = { PayloadState };

    ghost view = { λ p. payload_state p.stage p.line.items (bytes_of_body p.body) };

    ghost invariant = { λ p. IsSoundAt p.stage p.line.items (bytes_of_body p.body)
        × IsKeptAt p.stage p.body };
}

impl Payload {
    /// A body of that form of which nothing has come. It takes no memory, and grows by `alloc`.
    pub fn new(alloc: Global, form: BodyForm) -> Payload
        ensures { RepresentsBody form result [] }
    {
        let stage = Stage::first(form);
        Payload {
            stage,
            line: Vec::new(alloc),
            body: BodyBytes::new(alloc, stage),
        }
    }

    /// Whether the body of the request is complete.
    pub fn is_done(&self) -> bool
        ensures done { IsTrue result → IsDone self.now }
        ensures whole { IsTrue result → (form : Form) (text : List ℕ)
            → RepresentsBody form self.now text
            → IsBody form text self.now.body }
        ensures partial { result ≡ false → (form : Form) (text : List ℕ)
            → RepresentsBody form self.now text → IsPartial form text }
    {
        self.stage.is_end()
    }

    /// Takes the next piece of the body's bytes, up to the body's end. A complete body takes
    /// nothing more.
    ///
    /// It takes memory for the bytes that it keeps. The feed that completes the body also takes the
    /// memory for the count of owners of [`Payload::body`], unless the body has no bytes.
    ///
    /// # Errors
    ///
    /// [`PayloadFault::Malformed`] exactly where the text that was fed is no prefix of a body, and
    /// [`PayloadFault::TooLarge`] exactly where a chunk line in it has too large a size, or
    /// [`PayloadFault::NoMemory`]. After an error each feed returns that error again.
    pub fn feed(&mut self, alloc: Global, piece: &[u8]) -> Result<Fed, PayloadFault>
        ensures within { IfOk result (λ fed. fed.taken ≤ length piece.now) }
        ensures represents { IfOk result (λ fed. (form : Form) (text : List ℕ)
            → RepresentsBody form self.old text
            → RepresentsBody form self.new (text ++ take fed.taken piece.now)) }

        // Each result is right.
        ensures done { IfOk result (λ fed. IsTrue fed.done → IsDone self.new) }
        ensures whole { IfOk result (λ fed. IsTrue fed.done → (form : Form) (text : List ℕ)
            → RepresentsBody form self.old text
            → IsBody form (text ++ take fed.taken piece.now) self.new.body) }
        ensures all { IfOk result (λ fed. fed.done ≡ false → fed.taken ≡ length piece.now) }
        ensures partial { IfOk result (λ fed. fed.done ≡ false → (form : Form) (text : List ℕ)
            → RepresentsBody form self.old text
            → IsPartial form (text ++ piece.now)) }
        ensures fault { IfErr result (λ fault. fault ≢ PayloadFault.NoMemory
            → (form : Form) (text : List ℕ)
            → RepresentsBody form self.old text → IsFault form (text ++ piece.now) fault) }

        // The right result comes, unless it is out of memory.
        ensures exact_whole { (form : Form) (text prefix rest body : List ℕ)
            → RepresentsBody form self.old text
            → text ++ piece.now ≡ prefix ++ rest → IsBody form prefix body
            → IsOrOutOfMemory result
            (Ok (record { taken = length prefix - length text; done = true })) }
        ensures exact_partial { (form : Form) (text : List ℕ) → RepresentsBody form self.old text
            → IsPartial form (text ++ piece.now)
            → IsOrOutOfMemory result (Ok (record { taken = length piece.now; done = false })) }
        ensures exact_fault { (form : Form) (text : List ℕ) (fault : _)
            → RepresentsBody form self.old text
            → IsFault form (text ++ piece.now) fault → IsOrOutOfMemory result (Err fault) }

        // A complete body stays so, and a fault too.
        ensures ended { IsDone self.old
            → (self.new ≡ self.old) × (result ≡ Ok (record { taken = 0; done = true })) }
        ensures again { IfSome (fault_of self.old) (λ fault. (self.new ≡ self.old)
            × (result ≡ Err fault)) }
        ensures failed { IfErr result (λ fault. fault_of self.new ≡ Some fault) }
    {
        if let Stage::Failed(fault) = self.stage {
            return Err(fault);
        }
        match feed_body(alloc, self.stage, &mut self.line, &mut self.body, piece) {
            Ok(step) => {
                self.stage = step.stage;
                Ok(Fed {
                    taken: step.taken,
                    done: step.stage.is_end(),
                })
            }
            Err(fault) => {
                self.stage = Stage::Failed(fault);
                Err(fault)
            }
        }
    }

    /// The bytes of a complete body, in the block in which they grew. It takes no memory.
    pub fn body(self) -> Bytes
        requires { IsDone self }
        ensures bytes { result ≡ self.body }
        ensures decodes { (form : Form) (text : List ℕ) → RepresentsBody form self text
            → IsBody form text result }
    {
        self.body.into_bytes()
    }
}

impl Payload {
    /// A payload in the same state: what it is fed doesn't change this one.
    pub fn copy(&self, alloc: Global) -> Mem<Payload>
        ensures { IfOk result (λ copy. copy ≡ self.now) }
    {
        let line = Vec::from_slice(alloc, self.line.as_slice())?;
        let body = self.body.copy(alloc)?;
        Ok(Payload {
            stage: self.stage,
            line,
            body,
        })
    }
}
