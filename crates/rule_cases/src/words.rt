//! Agents and modes.

use case_words::pod_iri;
use pod_base::{Agent, Mem, Mode, Text};
use std::alloc::Global;

/// The agent of a word.
pub(crate) fn agent_of(alloc: Global, base: &str, word: &str) -> Mem<Agent> {
    if word == "-" {
        return Ok(Agent::Public);
    }
    let iri = pod_iri(alloc, base, word)?;
    Ok(Agent::Known(Text::of(alloc, iri.as_str())?))
}

/// The mode of a word; `control` for each other word.
pub(crate) fn mode_of(word: &str) -> Mode {
    match word {
        "read" => Mode::Read,
        "append" => Mode::Append,
        "write" => Mode::Write,
        _ => Mode::Control,
    }
}

/// The word of a mode.
pub(crate) fn mode_word(mode: Mode) -> &'static str {
    match mode {
        Mode::Read => "read",
        Mode::Append => "append",
        Mode::Write => "write",
        Mode::Control => "control",
    }
}
