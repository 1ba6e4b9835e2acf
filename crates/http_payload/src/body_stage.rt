//! How far a body has come, and what one more byte makes of it.

ghost use Rattle.std.specs.Prelude.{◌≡◌, ◌≢◌, ◌<◌, ◌≤◌, ◌+◌, ◌∷◌, [], List, ℕ, false, IsTrue};
ghost use Rattle.std.specs.Prelude.{IfSome, IfNone};
ghost use Rattle.http_payload.specs.PayloadState.{payload_state, TakesBytes, first_stage};
ghost use Rattle.http_payload.specs.Steps.{Never, TakesByte, AfterLine};

use crate::payload_fault::PayloadFault;
use http_head::{BODY_LIMIT, BodyForm};

/// The most bytes of the trailer lines of a body, their ends included.
pub const TRAILERS_LIMIT: u64 = 16_384;

/// The position in a body after the bytes so far.
#[derive(Clone, Copy, Debug, PartialEq, Eq)]
pub(crate) enum Stage {
    /// So many bytes are still to come, all of them of the body. At 0 the body is complete.
    Rest(u64),
    /// In the line before a chunk.
    Line,
    /// In a chunk, of which so many bytes are still to come, and then its CR LF.
    Chunk(u64),
    /// After the CR after a chunk.
    ChunkEnd,
    /// At the start of a line after the last chunk, after so many bytes of trailer lines.
    Trailers(u64),
    /// In a trailer line, after so many bytes of trailer lines.
    Trailer(u64),
    /// After the CR of a trailer line, after so many bytes of trailer lines.
    TrailerEnd(u64),
    /// After the CR of the empty line.
    LastEnd,
    /// That fault was returned.
    Failed(PayloadFault),
}

impl Stage {
    /// Whether the body is complete at this stage.
    pub(crate) fn is_end(self) -> bool
        ensures yes { IsTrue result → self ≡ Stage.Rest 0 }
        ensures no { result ≡ false → self ≢ Stage.Rest 0 }
    {
        matches!(self, Stage::Rest(0))
    }

    /// The stage before any byte of a body of that form.
    pub(crate) fn first(form: BodyForm) -> Stage
        ensures { result ≡ first_stage form }
    {
        match form {
            BodyForm::Empty => Stage::Rest(0),
            BodyForm::Length(length) => Stage::Rest(length),
            BodyForm::Chunked => Stage::Line,
        }
    }
}

/// The next stage of a body, where the byte is the wanted one.
fn expect_byte(byte: u8, wanted: u8, next: Stage) -> Option<Stage>
    ensures some { IfSome result (λ stage. (stage ≡ next) × (byte ≡ wanted)) }
    ensures none { IfNone result (byte ≢ wanted) }
{
    if byte == wanted { Some(next) } else { None }
}

/// The stage of a body after one more byte of a trailer line, with `used` bytes of trailer lines
/// before it. The byte isn't CR.
fn in_trailer(used: u64, byte: u8) -> Option<Stage>
    ensures some { IfSome result (λ next. (next ≡ Stage.Trailer (used + 1))
        × (used + 3 ≤ TRAILERS_LIMIT) × (byte ≢ 10)) }
    ensures none { IfNone result (byte ≢ 10 → TRAILERS_LIMIT < used + 3) }
{
    if byte != b'\n' && used <= TRAILERS_LIMIT - 3 {
        Some(Stage::Trailer(used + 1))
    } else {
        None
    }
}

/// The stage of a body after one more byte, at a stage that takes bytes one by one; none where no
/// body goes on with that byte.
pub(crate) fn after_byte(stage: Stage, byte: u8) -> Option<Stage>
    requires { TakesBytes stage }
    ensures some { IfSome result (TakesByte stage byte) }
    ensures none { IfNone result ((line body : List ℕ)
        → Never (payload_state stage line body) (byte ∷ [])) }
{
    match stage {
        Stage::Chunk(0) => expect_byte(byte, b'\r', Stage::ChunkEnd),
        Stage::ChunkEnd => expect_byte(byte, b'\n', Stage::Line),
        Stage::Trailers(used) => {
            if byte == b'\r' {
                Some(Stage::LastEnd)
            } else {
                in_trailer(used, byte)
            }
        }
        Stage::Trailer(used) => {
            if byte == b'\r' {
                Some(Stage::TrailerEnd(used + 1))
            } else {
                in_trailer(used, byte)
            }
        }
        Stage::TrailerEnd(used) => expect_byte(byte, b'\n', Stage::Trailers(used + 1)),
        Stage::LastEnd => expect_byte(byte, b'\n', Stage::Rest(0)),
        _ => None,
    }
}

/// The stage of a body after a chunk line of that size, after so many bytes of chunks.
pub(crate) fn after_line(used: usize, size: u64) -> Result<Stage, PayloadFault>
    requires { used ≤ BODY_LIMIT }
    ensures { AfterLine used size result }
{
    if size == 0 {
        Ok(Stage::Trailers(0))
    } else if size > BODY_LIMIT - used as u64 {
        Err(PayloadFault::TooLarge)
    } else {
        Ok(Stage::Chunk(size))
    }
}
