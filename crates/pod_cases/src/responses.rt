//! Responses as a text.

use case_words::shown;
use pod_base::Mem;
use std::alloc::Global;

/// Appends a response, which is given without its first word: its status and its body.
fn push_response(alloc: Global, text: &mut String, response: &str) -> Mem<()> {
    let (status, _rest) = response.split_once(' ').unwrap_or((response, ""));
    let (_head, body) = response.split_once("\r\n\r\n").unwrap_or((response, ""));
    text.push_str(" [")?;
    text.push_str(status)?;
    if !body.is_empty() {
        let body = body.strip_suffix('\n').unwrap_or(body);
        text.push(' ')?;
        text.push_str(shown(alloc, body.as_bytes())?.as_str())?;
    }
    text.push(']')?;
    Ok(())
}

/// Appends the responses of an output.
pub(crate) fn push_responses(alloc: Global, text: &mut String, output: &[u8]) -> Mem<()> {
    let Ok(output) = str::from_utf8(output) else {
        text.push_str(" not UTF-8")?;
        return Ok(());
    };
    let mut responses = output.split("HTTP/1.1 ");
    let _empty = responses.next();
    for response in responses {
        push_response(alloc, text, response)?;
    }
    Ok(())
}
