//! Runs the events of a `world` case, and shows the outcome of each.
ghost use Rattle.std.specs.Prelude.{IfOk};
ghost use Rattle.pod_rows.specs.WellFormed.{IsWellFormedSnapshot};

use crate::shown_responses::push_responses;
use crate::world_events::{MOMENT, event};
use case_words::{first_word, iri_or_bad, number_of};
use pod_base::{Bytes, Mem, Moment, NoMemory};
use pod_command::Snapshot;
use pod_rows::{first_snapshot, is_snapshot_well_formed};
use request_history::{Event, StepFault, World};
use std::alloc::Global;
use token_table::Tokens;

/// The tokens of the owner and of another agent.
const TOKENS: &[u8] = b"t1 https://alice.example/#me\nt2 https://bob.example/#me\n";

/// A world under way: how much of each connection's output is shown, and the gate and the record
/// that are remembered.
#[derive(Drop)]
struct Run {
    world: World,
    shown: Vec<usize>,
    noted: Vec<u8>,
}

/// The first pod.
fn first(alloc: Global) -> Mem<Snapshot>
    ensures { IfOk result IsWellFormedSnapshot }
{
    let base = iri_or_bad(alloc, "http://127.0.0.1:8080/")?;
    let owner = iri_or_bad(alloc, "https://alice.example/#me")?;
    let snapshot = first_snapshot(alloc, &base, &owner, Moment(MOMENT))?;
    if !is_snapshot_well_formed(alloc, &snapshot)? {
        return Err(NoMemory);
    }
    Ok(snapshot)
}

/// A new world.
fn new_world(alloc: Global, conns: usize) -> Mem<World> {
    let tokens = match Tokens::read(alloc, TOKENS) {
        Ok(tokens) => tokens,
        Err(_) => return Err(NoMemory),
    };
    let first = first(alloc)?;
    World::with_tokens(alloc, first, tokens, conns)
}

/// The name of an outcome.
fn name(outcome: Result<(), StepFault>) -> &'static str {
    match outcome {
        Ok(()) => "ok",
        Err(StepFault::NotNow) => "not now",
        Err(StepFault::NoMemory) => "out of memory",
    }
}

/// Takes an event.
fn take(world: &mut World, alloc: Global, event: &Event) -> Result<(), StepFault> {
    world.step(alloc, event)
}

/// Takes these fields' events, as far as the world can.
fn replay(world: &mut World, alloc: Global, fields: &[&str]) -> Mem<()> {
    for field in fields {
        if let Some(event) = event(alloc, field)? {
            let _outcome = take(world, alloc, &event);
        }
    }
    Ok(())
}

/// What an open gate adds to the journal of a world after these fields' events.
fn record_of(world: &mut World, alloc: Global, fields: &[&str]) -> Mem<Vec<u8>> {
    replay(world, alloc, fields)?;
    let before = world.journal().len();
    let _outcome = take(world, alloc, &Event::Body { ok: true });
    let _outcome = take(world, alloc, &Event::Gate { ok: true });
    let journal = world.journal().as_slice();
    Ok(Vec::from_slice(alloc, &journal[before.min(journal.len())..])?)
}

/// What an open gate adds to the journal after these fields' events.
fn record_after(alloc: Global, conns: usize, fields: &[&str]) -> Mem<Vec<u8>> {
    let mut world = new_world(alloc, conns)?;
    record_of(&mut world, alloc, fields)
}

/// What a connection wrote.
fn output(world: &World, conn: usize) -> &[u8] {
    if conn < world.conns() {
        world.output(conn).as_slice()
    } else {
        &[]
    }
}

/// Appends what a connection wrote now, if anything.
fn push_output(told: &mut String, alloc: Global, conn: usize, new: &[u8]) -> Mem<()> {
    if new.is_empty() {
        return Ok(());
    }
    told.push_str(&format!(in alloc; "; {conn}:")?)?;
    push_responses(told, new)
}

impl Run {
    /// The image of a `stop`.
    fn image(&self, alloc: Global, rest: &str) -> Mem<Bytes> {
        let mut image = Vec::from_slice(alloc, self.world.journal().as_slice())?;
        let (gate, cut) = first_word(rest);
        image.push(gate.parse().unwrap_or(0))?;
        if !gate.is_empty() {
            if let Some((_gate, record)) = self.noted.as_slice().split_first() {
                image.extend_from_slice(record)?;
            }
            if cut.is_empty() {
                image.push(0)?;
            }
        }
        Bytes::of(alloc, image.as_slice())
    }

    /// The event of a field, if it is one.
    fn event(&self, alloc: Global, field: &str) -> Mem<Option<Event>> {
        let (word, rest) = first_word(field);
        if word == "stop" {
            let image = self.image(alloc, rest)?;
            return Ok(Some(Event::Stop { image }));
        }
        event(alloc, field)
    }

    /// The outcome of a field, after others.
    fn step(&mut self, alloc: Global, before: &[&str], field: &str) -> Mem<&'static str> {
        if field == "note" {
            self.noted = record_after(alloc, self.shown.len(), before)?;
            return Ok("noted");
        }
        match self.event(alloc, field)? {
            Some(event) => Ok(name(take(&mut self.world, alloc, &event))),
            None => Ok("no event"),
        }
    }

    /// Appends what the connections have written since.
    fn push_written(&mut self, alloc: Global, told: &mut String) -> Mem<()> {
        for (conn, shown) in self.shown.iter_mut().enumerate() {
            let output = output(&self.world, conn);
            push_output(told, alloc, conn, &output[(*shown).min(output.len())..])?;
            *shown = output.len();
        }
        Ok(())
    }

    /// The outcomes of the fields.
    fn outcomes(&mut self, alloc: Global, fields: &[&str]) -> Mem<String> {
        let mut told = String::new(alloc);
        for (at, field) in fields.iter().enumerate() {
            if at > 0 {
                told.push_str(" | ")?;
            }
            told.push_str(self.step(alloc, &fields[..at], field)?)?;
            self.push_written(alloc, &mut told)?;
        }
        let entries = self.world.entries().len();
        told.push_str(&format!(in alloc; " | entries={entries}")?)?;
        Ok(told)
    }
}

/// The outcomes of the fields, over a new world.
pub(crate) fn outcomes(alloc: Global, conns: &str, fields: &[&str]) -> Mem<String> {
    let conns = number_of(conns).min(8) as usize;
    let shown = vec![in alloc; 0usize; conns]?;
    let mut run = Run {
        world: new_world(alloc, conns)?,
        shown,
        noted: Vec::new(alloc),
    };
    run.outcomes(alloc, fields)
}
