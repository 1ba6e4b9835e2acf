//! A wire in memory.

use pod_base::Text;
use pod_io::{MemWire, Polled, Wire, WireFault};

/// What a send came to.
fn sent(outcome: Result<(), WireFault>) -> &'static str {
    match outcome {
        Ok(()) => "ok",
        Err(WireFault) => "failed",
    }
}

/// What a poll found.
fn polled(outcome: Result<Polled, WireFault>) -> &'static str {
    match outcome {
        Ok(Polled::Nothing) => "open",
        Ok(Polled::Closed) => "closed",
        Err(WireFault) => "failed",
    }
}

/// Shows a wire that stays open for one poll, and whose second call fails.
pub(crate) fn show_wire(rt: &HostRuntime) -> anyhow::Result<()> {
    let alloc = rt.alloc();
    let mut wire = MemWire::new(alloc, 1, vec![in alloc; 2]?);
    let text = Text::of(alloc, "hi")?;
    println!(rt; "wire in memory: send hi: {}", sent(wire.send_text(&text)))?;
    println!(rt; "wire in memory: send hi: {}", sent(wire.send_text(&text)))?;
    println!(rt; "wire in memory: poll: {}", polled(wire.poll()))?;
    println!(rt; "wire in memory: poll: {}", polled(wire.poll()))?;
    for text in wire.sent() {
        println!(rt; "wire in memory: sent: {}", text.as_str())?;
    }
    Ok(())
}
