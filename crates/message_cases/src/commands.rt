//! The commands that words ask for.

use iri_ref::Iri;
use program_words::{Asking, Command, read};
use std::alloc::{AllocError, Global};

/// How the agents of a connection are known.
fn asking_text<'a>(asking: &'a Asking) -> (&'static str, &'a str) {
    match asking {
        Asking::ByTokens => ("by tokens", ""),
        Asking::Owner => ("as the owner", ""),
        Asking::Fresh(owner) => ("fresh ", owner.as_str()),
    }
}

/// A connection.
fn pipe_text(alloc: Global, asking: &Asking, trail: bool) -> Result<String, AllocError> {
    let (how, owner) = asking_text(asking);
    let end = if trail { ", trail" } else { "" };
    format!(in alloc; "pipe {how}{owner}{end}")
}

/// A report.
fn report_text(alloc: Global, agent: &Option<Iri>) -> Result<String, AllocError> {
    match agent {
        Some(agent) => format!(in alloc; "report of {}", agent.as_str()),
        None => String::from_str(alloc, "report of everyone"),
    }
}

/// A command as text.
fn command_text(alloc: Global, command: &Command) -> Result<String, AllocError> {
    match command {
        Command::Init { base, owner } => {
            format!(in alloc; "init {} {}", base.as_str(), owner.as_str())
        }
        Command::Pipe { asking, trail } => pipe_text(alloc, asking, *trail),
        Command::Check => String::from_str(alloc, "check"),
        Command::Audit => String::from_str(alloc, "audit"),
        Command::Load(requests) => format!(in alloc; "load {requests}"),
        Command::Report { agent } => report_text(alloc, agent),
        Command::Ship => String::from_str(alloc, "ship"),
        Command::Follow => String::from_str(alloc, "follow"),
    }
}

/// The words of a case.
fn words_of(alloc: Global, fields: &[&str]) -> Result<Vec<String>, AllocError> {
    let mut words = Vec::new(alloc);
    for field in fields {
        words.push(case_words::text(alloc, field)?)?;
    }
    Ok(words)
}

/// The command that the words ask for.
pub(crate) fn answer(alloc: Global, fields: &[&str]) -> Result<String, AllocError> {
    let words = words_of(alloc, fields)?;
    match read(alloc, words.as_slice()) {
        Ok(Some(command)) => command_text(alloc, &command),
        Ok(None) => String::from_str(alloc, "none"),
        Err(_none) => String::from_str(alloc, "out of memory"),
    }
}
