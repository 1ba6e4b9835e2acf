//! [`World`].
ghost use Rattle.std.specs.Prelude.{◌≡◌, ◌<◌, [], length, replicate, slice_get, IfOk, IfSome};
ghost use Rattle.std.specs.Prelude.{IsErrOf, OnErr, OnOk};
ghost use Rattle.std.specs.List.{AllByRecursion};
ghost use Rattle.pod_core.specs.World as world;
ghost use Rattle.pod_core.specs.WorldImages.{journal_of};
ghost use Rattle.pod_rows.specs.WellFormed.{IsWellFormedSnapshot};
ghost use Rattle.request_history.specs.Connections.{Rests, fresh};
ghost use Rattle.request_history.specs.Keepers.{first_history};
ghost use Rattle.request_history.specs.Worlds.{HasNoStep, Steps, StepsStorable, event_of};
ghost use Rattle.request_history.specs.Worlds.{numbers_to, world_of};
ghost use Rattle.world_laws.specs.CrashedWorlds.{IsRecordableHistory};

use crate::event::{Event, StepFault};
use crate::parts_and_events::Parts;
use crate::world_connection::Connection;
use crate::world_keeper::Keeper;
use pod_base::{Bytes, List, Mem, NoMemory};
use pod_command::{Entry, Snapshot};
use std::alloc::Global;
use std::marker::Model;
use token_table::Tokens;

/// A world: connections that read and write, and one keeper with one history. Contracts see its
/// parts, which are a world of the definition (`world_of`).
#[derive(Drop)]
pub struct World {
    parts: Parts,
}

impl Model for World {
    ghost use Rattle.request_history.specs.declared.parts_and_events.Parts.{Parts};

    ghost Value = { Parts };

    ghost use Rattle.request_history.specs.Parts.{IsWorld};

    ghost view = { λ w. w.parts };

    ghost invariant = { λ w. IsWorld w.parts };
}

/// The new connections of a world, which have seen this place.
fn new_connections(alloc: Global, count: usize, seen: u64) -> Mem<Vec<Connection>>
    ensures fresh { IfOk result (λ connections. connections.items ≡ replicate count (fresh seen)) }
    ensures rests { IfOk result (λ connections. AllByRecursion Rests connections.items) }
{
    let mut connections = Vec::new(alloc);
    for made in 0..count {
        let _made = made;
        let connection = Connection::of(alloc, seen);
        connections.push(connection)?;
    }
    Ok(connections)
}

impl World {
    /// The first world of a pod, with so many connections. No request has a token that is known.
    pub fn new(alloc: Global, first: Snapshot, conns: usize) -> Mem<World>
        requires { IsWellFormedSnapshot first }
        ensures first { IfOk result (λ w. world_of w
            ≡ world.first_world (first_history first) (numbers_to conns)) }
        ensures tokens { IfOk result (λ w. w.tokens ≡ []) }

        // A journal can hold the pod.
        ensures recordable { IfOk result (λ _. IsRecordableHistory (first_history first)) }
    {
        match Tokens::read(alloc, b"") {
            Ok(tokens) => World::with_tokens(alloc, first, tokens, conns),
            Err(_) => Err(NoMemory),
        }
    }

    /// The first world of a pod, with so many connections. The table authenticates each request.
    pub fn with_tokens(alloc: Global, first: Snapshot, tokens: Tokens, conns: usize) -> Mem<World>
        requires { IsWellFormedSnapshot first }
        ensures first { IfOk result (λ w. world_of w
            ≡ world.first_world (first_history first) (numbers_to conns)) }
        ensures tokens { IfOk result (λ w. w.tokens ≡ tokens) }

        // A journal can hold the pod.
        ensures recordable { IfOk result (λ _. IsRecordableHistory (first_history first)) }
    {
        let published = first.seq;
        let keeper = Keeper::of(alloc, first)?;
        let connections = new_connections(alloc, conns, published)?;
        Ok(World {
            parts: Parts {
                tokens,
                keeper,
                connections,
                published,
                stopped: false,
            },
        })
    }

    /// Takes an event, as a step of the world.
    ///
    /// # Errors
    ///
    /// [`StepFault::NotNow`] exactly where the definition has no such step.
    pub fn step(&mut self, alloc: Global, event: &Event) -> Result<(), StepFault>
        // The world has become one to which the definition leads.
        ensures steps { OnOk result (Steps self.old (event_of event.now) self.new) }
        ensures tokens { self.new.tokens ≡ self.old.tokens }

        // Where the step writes the record of an entry, the entry has a stored form.
        ensures storable { StepsStorable self.old (event_of event.now) self.new }

        // It leads to none.
        ensures not_now { IsErrOf result StepFault.NotNow → HasNoStep self.old (event_of event.now) }
        ensures unchanged { OnErr result (self.new ≡ self.old) }
    {
        self.parts.step(alloc, event)
    }

    /// How many connections the world has.
    pub fn conns(&self) -> usize
        ensures { result ≡ length self.now.connections.items }
    {
        self.parts.connections.len()
    }

    /// What a connection of the world wrote.
    pub fn output(&self, conn: usize) -> &Bytes
        requires { conn < length self.now.connections.items }
        ensures { IfSome (slice_get self.now.connections.items conn)
            (λ connection. result.now ≡ connection.output) }
    {
        self.parts.connections[conn].output()
    }

    /// The entries of the world's history, in order.
    pub fn entries(&self) -> &List<Entry>
        ensures { result.now.items ≡ self.now.keeper.history.entries }
    {
        self.parts.keeper.entries()
    }

    /// The journal of the world's history in format 2 with epoch 1, up to its last gate.
    pub fn journal(&self) -> &Bytes
        ensures { result.now ≡ journal_of self.now.keeper.history }
    {
        self.parts.keeper.journal()
    }
}
