//! Cases of `turtle_grammar`. A case is a call (`derive` or `read`), a start symbol (`turtle`, `patch`
//! or `update`) and a list of symbols.
//!
//! Productions and faults are shown as text: `S P O at END` for a triple, with `in` and the formula
//! where it stands in one.

use crate::symbol_letters::{start, symbols};
use case_words::bytes;
use std::alloc::{AllocError, Global};
use turtle_grammar::{Machine, Node, Production, Refusal, Start, Symbol, SymbolicTriple, Within};

fn push_node(shown: &mut String, node: Node) -> Result<(), AllocError> {
    match node {
        Node::Token(at) => write!(shown, "{at}"),
        Node::Tagged(string, tag) => write!(shown, "{string}@{tag}"),
        Node::Typed(string, datatype) => write!(shown, "{string}^{datatype}"),
        Node::Unnamed(number) => write!(shown, "_{number}"),
        Node::Formula(brace) => write!(shown, "{{{brace}"),
        Node::Nil => shown.push_str("nil"),
        Node::First => shown.push_str("first"),
        Node::Rest => shown.push_str("rest"),
    }
}

fn push_within(shown: &mut String, within: Within) -> Result<(), AllocError> {
    match within {
        Within::Document => Ok(()),
        Within::Formula(brace) => write!(shown, " in {brace}"),
        Within::Insert => shown.push_str(" in insert"),
        Within::Delete => shown.push_str(" in delete"),
    }
}

fn push_triple(shown: &mut String, triple: SymbolicTriple) -> Result<(), AllocError> {
    push_node(shown, triple.subject)?;
    shown.push(' ')?;
    push_node(shown, triple.predicate)?;
    shown.push(' ')?;
    push_node(shown, triple.object)?;
    push_within(shown, triple.within)?;
    write!(shown, " at {}", triple.end)
}

fn push_production(shown: &mut String, production: Production) -> Result<(), AllocError> {
    if !shown.is_empty() {
        shown.push_str("; ")?;
    }
    match production {
        Production::Prefix { name, iri } => write!(shown, "prefix {name} {iri}"),
        Production::Base { iri } => write!(shown, "base {iri}"),
        Production::Triple(triple) => push_triple(shown, triple),
    }
}

fn show_productions(alloc: Global, productions: &[Production]) -> Result<String, AllocError> {
    if productions.is_empty() {
        return String::from_str(alloc, "nothing");
    }
    let mut shown = String::new(alloc);
    for production in productions {
        push_production(&mut shown, *production)?;
    }
    Ok(shown)
}

/// Reads the symbols, and appends what they produce. The refusal of one of them, with its index.
fn read_all(
    machine: &mut Machine,
    produced: &mut Vec<Production>,
    symbols: &[Symbol],
) -> Result<Option<(Refusal, usize)>, AllocError> {
    for (at, symbol) in symbols.iter().enumerate() {
        match machine.step(*symbol) {
            Ok(()) => produced.extend_from_slice(machine.produced())?,
            Err(Refusal::NoMemory) => return Err(AllocError),
            Err(refusal) => return Ok(Some((refusal, at))),
        }
    }
    Ok(None)
}

/// What the symbols produce, or the first that is refused, or that they are no derivation.
fn show_derivation(alloc: Global, start: Start, symbols: &[Symbol]) -> Result<String, AllocError> {
    let mut machine = Machine::new(alloc, start);
    let mut produced = Vec::new(alloc);
    match read_all(&mut machine, &mut produced, symbols)? {
        Some((refusal, at)) => format!(in alloc; "{refusal:?} at {at}"),
        None if machine.is_complete() => show_productions(alloc, produced.as_slice()),
        None => format!(in alloc; "Grammar at {}", symbols.len()),
    }
}

/// What the machine's last step says: what it produced, what waits, and whether a document may end.
fn show_machine(alloc: Global, machine: &Machine) -> Result<String, AllocError> {
    let mut shown = show_productions(alloc, machine.produced())?;
    if let Some(triple) = machine.waiting() {
        shown.push_str(", waiting ")?;
        push_triple(&mut shown, triple)?;
    }
    if machine.is_complete() {
        shown.push_str(", complete")?;
    }
    Ok(shown)
}

/// What the machine says of the last symbol, or the first that it refuses.
fn show_reading(alloc: Global, start: Start, symbols: &[Symbol]) -> Result<String, AllocError> {
    let mut machine = Machine::new(alloc, start);
    let mut produced = Vec::new(alloc);
    match read_all(&mut machine, &mut produced, symbols)? {
        Some((refusal, at)) => format!(in alloc; "{refusal:?} at {at}"),
        None => show_machine(alloc, &machine),
    }
}

/// What `turtle_grammar` returns for a call, a start symbol and the letters of symbols.
pub(crate) fn answer(alloc: Global, case: &[&str]) -> Result<String, AllocError> {
    match case {
        [call, start_name, letters] => {
            let text = bytes(alloc, letters)?;
            let symbols = symbols(alloc, text.as_slice())?;
            match *call {
                "derive" => show_derivation(alloc, start(start_name), symbols.as_slice()),
                "read" => show_reading(alloc, start(start_name), symbols.as_slice()),
                _ => String::from_str(alloc, "no call"),
            }
        }
        _ => String::from_str(alloc, "no case"),
    }
}
