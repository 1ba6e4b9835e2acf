//! A listener in memory, and its gates.

use crate::links::mem_link;
use anyhow::bail;
use pod_base::{List, Mem};
use pod_io::{Failed, Gate, Listen, ListenFault, MemGate, MemLink, MemListen};
use std::alloc::Global;

/// Takes what may go to another thread.
pub(crate) fn sent<T: Send>(_value: &T) {}

/// A listener whose first call fails, and whose first gate gives one connection over `one` and then
/// fails in its second call.
fn listener(alloc: Global) -> Mem<MemListen<MemLink>> {
    let conns = List::from_vec(vec![in alloc; mem_link(alloc, b"one")?]?);
    let gate = MemGate::new(alloc, conns, vec![in alloc; 2]?)?;
    sent(&gate);
    let gates = List::from_vec(vec![in alloc; gate]?);
    Ok(MemListen::new(alloc, gates, vec![in alloc; 1]?))
}

/// What a listener answered.
fn opened<G>(answer: &Result<List<G>, ListenFault>) -> &'static str {
    match answer {
        Ok(_gates) => "gates",
        Err(ListenFault::Failed) => "failed",
        Err(ListenFault::NoMemory) => "out of memory",
    }
}

/// What a gate answered.
fn next<L>(answer: &Result<Option<L>, Failed>) -> &'static str {
    match answer {
        Ok(Some(_conn)) => "a connection",
        Ok(None) => "none",
        Err(Failed) => "failed",
    }
}

/// Shows the calls of a gate with one connection, and what came back to it.
fn show_gate(rt: &HostRuntime, gate: &mut MemGate<MemLink>) -> anyhow::Result<()> {
    let Ok(Some(conn)) = gate.next() else {
        bail!("the gate gave no connection");
    };
    println!(rt; "gate in memory: next: a connection")?;
    println!(rt; "gate in memory: next: {}", next(&gate.next()))?;
    println!(rt; "gate in memory: next: {}", next(&gate.next()))?;
    gate.done(conn);
    for conn in gate.back() {
        println!(rt; "gate in memory: back: {}", conn.rest().escape_ascii())?;
    }
    Ok(())
}

/// Shows two gates, of which the second has no connections, and that they come back.
fn show_two(rt: &HostRuntime, listen: &mut MemListen<MemLink>) -> anyhow::Result<()> {
    let Ok(mut gates) = listen.open(rt.alloc(), 80, 2) else {
        bail!("the listener opened no gates");
    };
    println!(rt; "listener in memory: open: {} gates", gates.len())?;
    let Some(idle) = gates.pop() else {
        bail!("there is no second gate");
    };
    listen.close(idle);
    let Some(mut gate) = gates.pop() else {
        bail!("there is no first gate");
    };
    show_gate(rt, &mut gate)?;
    listen.close(gate);
    println!(rt; "listener in memory: back: {} gates", listen.back().len())?;
    Ok(())
}

/// Shows that gates in memory give their connections and get them back.
pub(crate) fn show_gates(rt: &HostRuntime) -> anyhow::Result<()> {
    let alloc = rt.alloc();
    let mut listen = listener(alloc)?;
    println!(rt;
        "listener in memory: open: {}",
        opened(&listen.open(alloc, 80, 2))
    )?;
    show_two(rt, &mut listen)
}
