//! The line before a chunk (RFC 9112, section 7.1), as its bytes come in.

ghost use Rattle.std.specs.Prelude.{◌≡◌, ◌<◌, ◌≤◌, ◌++◌, [], false, length, vec_len, IfOk, IfErr};
ghost use Rattle.std.specs.Prelude.{IfSome, IfNone, IsTrue};
ghost use Rattle.http_payload.specs.PayloadState.{IsOpenLine};
ghost use Rattle.http_payload.specs.ChunkLines.{CanEnd, NeverLine, BeginsWithLine, LineContinues};
ghost use Rattle.http_payload.specs.ChunkLines.{LineFault};

use crate::payload_fault::PayloadFault;
use httparse::{Status, parse_chunk_size};

/// The most bytes of the line before a chunk, its end included.
pub const CHUNK_LINE_LIMIT: usize = 256;

/// Whether a chunk line with this prefix can still end within [`CHUNK_LINE_LIMIT`]: its CR LF takes
/// two bytes more, and after a CR one.
fn can_end(text: &[u8]) -> bool
    ensures yes { IsTrue result → CanEnd text.now }
    ensures no { result ≡ false → CanEnd text.now → ⊥ }
{
    if text.len() == CHUNK_LINE_LIMIT - 1 {
        text[CHUNK_LINE_LIMIT - 2] == b'\r'
    } else {
        text.len() < CHUNK_LINE_LIMIT
    }
}

/// The chunk line at the start of the text: its length and its size, or none where the text is a
/// prefix of a line.
fn line_in(text: &[u8]) -> Result<Option<(usize, u64)>, PayloadFault>
    ensures some { IfOk result (λ found. IfSome found (λ r. BeginsWithLine text.now r.0 r.1)) }
    ensures none { IfOk result (λ found. IfNone found (IsOpenLine text.now)) }
    ensures fault { IfErr result (LineFault text.now) }
{
    match parse_chunk_size(text) {
        Ok(Status::Complete((len, size))) if len <= CHUNK_LINE_LIMIT => Ok(Some((len, size))),
        Ok(Status::Partial) if can_end(text) => Ok(None),
        _ => Err(PayloadFault::Malformed),
    }
}

/// Reads a chunk line of which nothing has come: how many bytes it takes, and its size where it
/// ends.
fn new_line(line: &mut Vec<u8>, bytes: &[u8]) -> Result<(usize, Option<u64>), PayloadFault>
    requires empty { line.old.items ≡ [] }
    requires some { 0 < length bytes.now }
    ensures taken { IfOk result (λ r. (0 < r.0) × (r.0 ≤ length bytes.now)) }
    ensures continues { IfOk result
        (λ r. LineContinues line.old.items bytes.now r.0 r.1 line.new.items) }
    ensures fault { IfErr result (LineFault (line.old.items ++ bytes.now)) }
{
    match line_in(bytes)? {
        Some((len, size)) => Ok((len, Some(size))),
        None => {
            line.extend_from_slice(bytes)?;
            Ok((bytes.len(), None))
        }
    }
}

/// Continues a chunk line of which some bytes have come: how many more it takes, and its size where
/// it ends.
fn kept_line(line: &mut Vec<u8>, bytes: &[u8]) -> Result<(usize, Option<u64>), PayloadFault>
    requires open { IsOpenLine line.old.items }
    requires some { 0 < length bytes.now }
    ensures taken { IfOk result (λ r. (0 < r.0) × (r.0 ≤ length bytes.now)) }
    ensures continues { IfOk result
        (λ r. LineContinues line.old.items bytes.now r.0 r.1 line.new.items) }
    ensures fault { IfErr result (LineFault (line.old.items ++ bytes.now)) }
{
    let kept = line.len();
    let window = &bytes[..bytes.len().min(CHUNK_LINE_LIMIT - kept)];
    line.extend_from_slice(window)?;
    match line_in(line.as_slice())? {
        Some((len, size)) => {
            line.clear();
            Ok((len - kept, Some(size)))
        }
        None => Ok((window.len(), None)),
    }
}

/// Continues the line before a chunk: how many bytes it takes, and its size where it ends.
///
/// At most [`CHUNK_LINE_LIMIT`] bytes are kept. They are parsed anew with each piece, so a line
/// that comes byte by byte costs at most 256 parses of at most 256 bytes.
pub(crate) fn read_line(
    line: &mut Vec<u8>,
    bytes: &[u8],
) -> Result<(usize, Option<u64>), PayloadFault>
    requires open { IsOpenLine line.old.items }
    requires some { 0 < length bytes.now }
    ensures taken { IfOk result (λ r. (0 < r.0) × (r.0 ≤ length bytes.now)) }
    ensures continues { IfOk result
        (λ r. LineContinues line.old.items bytes.now r.0 r.1 line.new.items) }
    ensures fault { IfErr result (LineFault (line.old.items ++ bytes.now)) }
{
    if line.is_empty() {
        new_line(line, bytes)
    } else {
        kept_line(line, bytes)
    }
}
