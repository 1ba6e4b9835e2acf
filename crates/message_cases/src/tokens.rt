//! Token tables, and who makes a request.

use crate::preconditions::fields_of;
use case_words::bytes;
use pod_base::{Fields, NoMemory};
use std::alloc::{AllocError, Global};
use token_table::{Asked, TokenFault, Tokens};

/// Why a text is no table.
fn show_fault(alloc: Global, fault: TokenFault) -> Result<String, AllocError> {
    match fault {
        TokenFault::Line { line } => format!(in alloc; "line {line}"),
        TokenFault::NoMemory => Err(AllocError),
    }
}

/// Whether a text is a table.
pub(crate) fn table(alloc: Global, text: &str) -> Result<String, AllocError> {
    let text = bytes(alloc, text)?;
    match Tokens::read(alloc, text.as_slice()) {
        Ok(_tokens) => String::from_str(alloc, "a table"),
        Err(fault) => show_fault(alloc, fault),
    }
}

/// Who makes a request with these fields.
fn show_agent(alloc: Global, tokens: &Tokens, fields: &Fields) -> Result<String, AllocError> {
    match tokens.agent_of(fields) {
        Asked::Public => String::from_str(alloc, "public"),
        Asked::Known(agent) => format!(in alloc; "<{}>", agent.as_str()),
        Asked::Refused => String::from_str(alloc, "refused"),
    }
}

/// Who makes a request with the fields of some lines.
pub(crate) fn agent(alloc: Global, text: &str, lines: &[&str]) -> Result<String, AllocError> {
    let text = bytes(alloc, text)?;
    match Tokens::read(alloc, text.as_slice()) {
        Ok(tokens) => match fields_of(alloc, lines) {
            Ok(fields) => show_agent(alloc, &tokens, &fields),
            Err(NoMemory) => Err(AllocError),
        },
        Err(fault) => show_fault(alloc, fault),
    }
}
