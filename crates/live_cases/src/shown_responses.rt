//! What a connection of a world wrote, in short.

use pod_base::Mem;
use std::alloc::Global;
use std::str;

/// Appends the status of a response without its version, and its body.
fn push_response(shown: &mut String, response: &str) -> Mem<()> {
    let (head, body) = response.split_once("\r\n\r\n").unwrap_or((response, ""));
    let (status, _) = head.split_once(' ').unwrap_or((head, ""));
    shown.push_str(" ")?;
    shown.push_str(status)?;
    let body = body.trim_end();
    if !body.is_empty() {
        shown.push_str(" ")?;
        shown.push_str(body)?;
    }
    Ok(())
}

/// Appends the responses that are written in these bytes.
pub(crate) fn push_responses(shown: &mut String, bytes: &[u8]) -> Mem<()> {
    let Ok(text) = str::from_utf8(bytes) else {
        return Ok(());
    };
    let mut pieces = text.split("HTTP/1.1 ");
    let _before = pieces.next();
    for response in pieces {
        push_response(shown, response)?;
    }
    Ok(())
}
