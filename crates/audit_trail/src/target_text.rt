//! Targets of requests, as a line shows them.

ghost use Rattle.std.specs.Prelude.{◌≡◌, ◌&&◌, ◌++◌, nat_le, OnOk};
ghost use Rattle.audit_trail.specs.Lines as spec;

use percent_encoding::percent_encode_byte;
use pod_base::Mem;

/// Whether a byte of a target is a visible character of ASCII, which its text has as it is.
fn is_visible(byte: u8) -> bool
    ensures { result ≡ spec.is_visible byte }
{
    b'!' <= byte && byte <= b'~'
}

/// How many bytes the text of a target's byte has.
fn byte_len(byte: u8) -> usize {
    if is_visible(byte) { 1 } else { 3 }
}

/// How many bytes the text of a target has in a line of the trail, at most those of a `usize`.
pub(crate) fn target_len(target: &[u8]) -> usize {
    let mut len = 0usize;
    for byte in target {
        len = len.saturating_add(byte_len(*byte));
    }
    len
}

/// Appends a byte of a target to its text in a line of the trail, or the byte's escape.
fn append_byte(line: &mut Vec<u8>, byte: u8) -> Mem<()>
    ensures { OnOk result (line.new.items ≡ line.old.items ++ spec.target_byte byte) }
{
    if is_visible(byte) {
        line.push(byte)?;
    } else {
        line.extend_from_slice(percent_encode_byte(byte).as_bytes())?;
    }
    Ok(())
}

/// Appends the text of a target to a line of the trail, whose bytes outside `!` to `~` are escaped.
pub(crate) fn append_target(line: &mut Vec<u8>, target: &[u8]) -> Mem<()>
    ensures { OnOk result (line.new.items ≡ line.old.items ++ spec.target_word target.now) }
{
    for byte in target {
        append_byte(line, *byte)?;
    }
    Ok(())
}
