//! Texts, and the agents that they name.

use pod_base::{Agent, Text};

/// Shows a copy of a known agent.
fn show_agent(rt: &HostRuntime, iri: Text) -> anyhow::Result<()> {
    let copy = Agent::Known(iri).copy(rt.alloc())?;
    match &copy {
        Agent::Known(iri) => println!(rt; "agent: known, copied: {}", iri.as_str())?,
        Agent::Public => println!(rt; "agent: known, copied: public")?,
    }
    Ok(())
}

/// Shows that a text of a string is copied.
pub(crate) fn show_text(rt: &HostRuntime) -> anyhow::Result<()> {
    let alloc = rt.alloc();
    let string = String::from_str(alloc, "grüße")?;
    let text = Text::from_string(alloc, string)?.copy(alloc)?;
    println!(rt; "text: of a string, copied: {}", text.as_str())?;
    let equal = text == Text::of(alloc, "grüße")?;
    println!(rt; "text: equal to one in a block of its own: {equal}")?;
    show_agent(rt, text)
}
