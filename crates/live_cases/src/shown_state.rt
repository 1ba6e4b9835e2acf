//! What is shown of sinks, connections and gates.

use crate::link::ScriptLink;
use case_words::shown_whole;
use pod_base::Mem;
use pod_io::MemGate;
use std::alloc::Global;

/// The most bytes of one connection that are shown one by one.
const SENT_LIMIT: usize = 10_000;

/// Appends a word and what a sink has taken, where it has taken something.
pub(crate) fn push_taken(alloc: Global, text: &mut String, word: &str, taken: &[u8]) -> Mem<()> {
    if !taken.is_empty() {
        text.push_str(word)?;
        text.push_str(shown_whole(alloc, taken)?.as_str())?;
    }
    Ok(())
}

/// How a connection was left.
fn state(alloc: Global, link: &ScriptLink) -> Mem<String> {
    if link.is_stuck() {
        Ok(String::from_str(alloc, "stuck")?)
    } else if link.has_ended() {
        Ok(String::from_str(alloc, "ended")?)
    } else {
        Ok(format!(in alloc; "left {}", link.left())?)
    }
}

/// What a connection has sent.
fn sent(alloc: Global, sent: &[u8]) -> Mem<String> {
    if sent.len() > SENT_LIMIT {
        Ok(format!(in alloc; "{} bytes", sent.len())?)
    } else {
        Ok(shown_whole(alloc, sent)?)
    }
}

/// Appends a connection: its name, how it was left, and what it has sent.
fn push_link(alloc: Global, text: &mut String, link: &ScriptLink) -> Mem<()> {
    let state = state(alloc, link)?;
    let sent = sent(alloc, link.sent())?;
    let shown = format!(in alloc;
        " {} {}: {}",
        link.name.as_str(),
        state.as_str(),
        sent.as_str()
    )?;
    text.push_str(shown.as_str())?;
    Ok(())
}

/// Appends gates, each with its connections.
pub(crate) fn push_gates(
    alloc: Global,
    text: &mut String,
    gates: &[MemGate<ScriptLink>],
) -> Mem<()> {
    for gate in gates {
        text.push_str(" | gate")?;
        for link in gate.back() {
            push_link(alloc, text, link)?;
        }
    }
    Ok(())
}
