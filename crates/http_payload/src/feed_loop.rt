//! Steps over the bytes of a piece.

ghost use Rattle.std.specs.Prelude.{◌≡◌, ◌≢◌, ◌<◌, ◌≤◌, ◌++◌, List, ℕ, None, min, take, length};
ghost use Rattle.std.specs.Prelude.{IsOk, IfOk, IfErr};
ghost use Rattle.http_head.specs.declared.body_form.BodyForm.{BodyForm as Form};
ghost use Rattle.http_payload.specs.Bodies.{IsFault};
ghost use Rattle.http_payload.specs.PayloadState.{payload_state, IsSoundAt, TakesBytes};
ghost use Rattle.http_payload.specs.PayloadState.{RepresentsBody};
ghost use Rattle.http_payload.specs.PayloadState.{fault_at};
ghost use Rattle.http_payload.specs.Steps.{Advances, Blocks};

use crate::body_stage::{Stage, after_byte, after_line};
use crate::chunk_line::read_line;
use crate::payload_fault::PayloadFault;

/// How many bytes were read, and the stage after them.
#[derive(Clone, Copy)]
pub(crate) struct Step {
    pub(crate) taken: usize,
    pub(crate) stage: Stage,
}

/// Appends bytes of the piece that is fed to a body, at most `left`, and returns how many.
fn append_up_to(body: &mut Vec<u8>, left: u64, bytes: &[u8]) -> Result<usize, PayloadFault>
    ensures taken { IfOk result (λ taken. taken ≡ min left (length bytes.now)) }
    ensures appended { IfOk result (λ taken. body.new.items
        ≡ body.old.items ++ take taken bytes.now) }
    ensures fault { IfErr result (λ fault. fault ≡ PayloadFault.NoMemory) }
{
    let taken = left.min(bytes.len() as u64) as usize;
    body.extend_from_slice(&bytes[..taken])?;
    Ok(taken)
}

/// One step of the loop that feeds a body, in a chunk line.
fn line_step(line: &mut Vec<u8>, body: &[u8], bytes: &[u8]) -> Result<Step, PayloadFault>
    requires some { 0 < length bytes.now }
    requires sound { IsSoundAt Stage.Line line.old.items body.now }
    ensures ok { IfOk result
        (λ step. Advances (payload_state Stage.Line line.old.items body.now) bytes.now step.taken
        (payload_state step.stage line.new.items body.now)) }
    ensures fault { IfErr result
        (Blocks (payload_state Stage.Line line.old.items body.now) bytes.now) }
{
    let (taken, ended) = read_line(line, bytes)?;
    let stage = match ended {
        Some(size) => after_line(body.len(), size)?,
        None => Stage::Line,
    };
    Ok(Step { taken, stage })
}

/// One step of the loop that feeds a body, by one byte.
fn byte_step(stage: Stage, bytes: &[u8]) -> Result<Step, PayloadFault>
    requires some { 0 < length bytes.now }
    requires byte { TakesBytes stage }
    ensures ok { IfOk result (λ step. (line body : List ℕ) → IsSoundAt stage line body
        → Advances (payload_state stage line body) bytes.now step.taken
        (payload_state step.stage line body)) }
    ensures fault { IfErr result (λ fault. (line body : List ℕ)
        → Blocks (payload_state stage line body) bytes.now fault) }
{
    match after_byte(stage, bytes[0]) {
        Some(stage) => Ok(Step { taken: 1, stage }),
        None => Err(PayloadFault::Malformed),
    }
}

/// One step of the loop that feeds a body, by some of the first bytes.
fn feed_step(
    stage: Stage,
    line: &mut Vec<u8>,
    body: &mut Vec<u8>,
    bytes: &[u8],
) -> Result<Step, PayloadFault>
    requires some { 0 < length bytes.now }
    requires sound { IsSoundAt stage line.old.items body.old.items }
    requires not_done { stage ≢ Stage.Rest 0 }
    requires no_fault { fault_at stage ≡ None }
    ensures ok { IfOk result
        (λ step. Advances (payload_state stage line.old.items body.old.items) bytes.now step.taken
        (payload_state step.stage line.new.items body.new.items)) }
    ensures fault { IfErr result
        (Blocks (payload_state stage line.old.items body.old.items) bytes.now) }
{
    match stage {
        Stage::Rest(left) => {
            let taken = append_up_to(body, left, bytes)?;
            Ok(Step {
                taken,
                stage: Stage::Rest(left - taken as u64),
            })
        }
        Stage::Chunk(left) if left > 0 => {
            let taken = append_up_to(body, left, bytes)?;
            Ok(Step {
                taken,
                stage: Stage::Chunk(left - taken as u64),
            })
        }
        Stage::Line => line_step(line, body.as_slice(), bytes),
        _ => byte_step(stage, bytes),
    }
}

/// The loop that feeds a piece to a body, up to the piece's end, or to that of the body.
pub(crate) fn feed_piece(
    stage: Stage,
    line: &mut Vec<u8>,
    body: &mut Vec<u8>,
    piece: &[u8],
) -> Result<Step, PayloadFault>
    requires sound { IsSoundAt stage line.old.items body.old.items }
    requires no_fault { fault_at stage ≡ None }
    ensures within { IfOk result (λ step. step.taken ≤ length piece.now) }
    ensures all { IfOk result (λ step. step.stage ≢ Stage.Rest 0 → step.taken ≡ length piece.now) }
    ensures sound { IfOk result (λ step. IsSoundAt step.stage line.new.items body.new.items) }
    ensures no_fault { IfOk result (λ step. fault_at step.stage ≡ None) }
    ensures represents { IfOk result (λ step. (form : Form) (text : List ℕ)
        → RepresentsBody form (payload_state stage line.old.items body.old.items) text
        → RepresentsBody form (payload_state step.stage line.new.items body.new.items)
        (text ++ take step.taken piece.now)) }
    ensures fault { IfErr result (λ fault. fault ≢ PayloadFault.NoMemory
        → (form : Form) (text : List ℕ)
        → RepresentsBody form (payload_state stage line.old.items body.old.items) text
        → IsFault form (text ++ piece.now) fault) }
    ensures done { stage ≡ Stage.Rest 0 → IfOk result (λ step. (step.taken ≡ 0)
        × (step.stage ≡ Stage.Rest 0)
        × (line.new.items ≡ line.old.items) × (body.new.items ≡ body.old.items)) }
    ensures not_failed { stage ≡ Stage.Rest 0 → IsOk result }
{
    let mut taken = 0;
    let mut stage = stage;
    while taken < piece.len() && !stage.is_end() {
        let step = feed_step(stage, line, body, &piece[taken..])?;
        taken += step.taken;
        stage = step.stage;
    }
    Ok(Step { taken, stage })
}
